//! Where a message is cut into parts, and those that aren't.
ghost use Rattle.std.specs.Prelude.{IfSome};
ghost use Rattle.link_frames.specs.Parts.{HasParts};

use crate::parts::{Numbered, body, message_part, pg, rows, says};
use dist_types::{Body, Scope};
use link_frames::*;
use std::alloc::Global;

/// A part of a longer message.
#[derive(Clone, Copy)]
struct Cut {
    /// What stands before the rows.
    head: &'static [u8],
    /// The number of the first process.
    first: u32,
    /// How many rows it has.
    count: u32,
}

/// How many rows a Sync has, and its parts.
struct Cuts {
    count: u32,
    parts: &'static [Cut],
}

static CUTS: [Cuts; 4] = [
    Cuts {
        count: 0,
        parts: &[Cut {
            head: b"S\x02pg\0\0\0\x01\x01\0\0\0\0",
            first: 1,
            count: 0,
        }],
    },
    Cuts {
        count: 4096,
        parts: &[Cut {
            head: b"S\x02pg\0\0\0\x01\x01\0\0\x10\0",
            first: 1,
            count: 4096,
        }],
    },
    Cuts {
        count: 4097,
        parts: &[
            Cut {
                head: b"S\x02pg\0\0\0\x01\0\0\0\x10\0",
                first: 1,
                count: 4096,
            },
            Cut {
                head: b"S\x02pg\0\0\0\x02\x01\0\0\0\x01",
                first: 4097,
                count: 1,
            },
        ],
    },
    Cuts {
        count: 8193,
        parts: &[
            Cut {
                head: b"S\x02pg\0\0\0\x01\0\0\0\x10\0",
                first: 1,
                count: 4096,
            },
            Cut {
                head: b"S\x02pg\0\0\0\x02\0\0\0\x10\0",
                first: 4097,
                count: 4096,
            },
            Cut {
                head: b"S\x02pg\0\0\0\x03\x01\0\0\0\x01",
                first: 8193,
                count: 1,
            },
        ],
    },
];

/// A Sync of so many rows.
fn sync(alloc: Global, count: u32) -> Option<Message>
    ensures { IfSome result HasParts }
{
    let rows = rows(alloc, count)?;
    match pg(alloc) {
        Some(scope) => Some(Message::Sync(scope, rows)),
        None => None,
    }
}

fn is_body(alloc: Global, part: &Body, cut: &Cut) -> bool {
    match body(alloc, cut.head, cut.first, cut.count) {
        Some(body) => body == *part,
        None => false,
    }
}

fn are_bodies(alloc: Global, parts: &[Body], cuts: &[Cut]) -> bool {
    for (part, cut) in parts.iter().zip(cuts) {
        if !is_body(alloc, part, cut) {
            return false;
        }
    }
    parts.len() == cuts.len()
}

/// Whether the message is said in these bodies.
fn is_said(alloc: Global, message: &Message, cuts: &[Cut]) -> bool
    requires { HasParts message.now }
{
    match encode_parts(alloc, message) {
        Ok(parts) => are_bodies(alloc, &parts, cuts),
        Err(_) => false,
    }
}

fn is_cut(alloc: Global, cuts: &Cuts) -> bool {
    match sync(alloc, cuts.count) {
        Some(message) => is_said(alloc, &message, cuts.parts),
        None => false,
    }
}

#[test]
fn cuts_behind_each_4096_rows(rt: HostRuntime) {
    for cuts in &CUTS {
        assert!(rt; is_cut(rt.alloc(), cuts), "{} rows", cuts.count);
    }
}

/// A message that is said in one body.
struct Alone {
    kind: u8,
    body: &'static [u8],
}

static ALONE: [Alone; 4] = [
    Alone {
        kind: b'D',
        body: b"D\x02pg",
    },
    Alone {
        kind: b'J',
        body: b"J\x02pg\0\0\0\x01\x01\0\0\0\x01\x01g\0\x03a@h\0\0\0\x05\0\0\0\0\0\0\0\x01",
    },
    Alone {
        kind: b'L',
        body: b"L\x02pg\0\0\0\x01\x01\0\0\0\x01\x01g\0\x03a@h\0\0\0\x05\0\0\0\0\0\0\0\x01",
    },
    Alone {
        kind: b'X',
        body: b"X\x02pg",
    },
];

/// The message of that kind, and of a row where it has some.
fn message(alloc: Global, kind: u8) -> Option<Message>
    ensures { IfSome result HasParts }
{
    let rows = rows(alloc, 1)?;
    let Some(scope) = pg(alloc) else {
        return None;
    };
    Some(match kind {
        b'D' => Message::Discover(scope),
        b'J' => Message::Join(scope, rows),
        b'L' => Message::Leave(scope, rows),
        _ => Message::Down(scope),
    })
}

/// What is read of it.
fn read(alloc: Global, kind: u8) -> Option<Message2> {
    match kind {
        b'J' => message_part(alloc, &only(PartKind::Join)),
        b'L' => message_part(alloc, &only(PartKind::Leave)),
        _ => whole(kind, pg(alloc)),
    }
}

/// A part of one row, the only one.
fn only(kind: PartKind) -> Numbered {
    Numbered {
        kind,
        number: 1,
        last: true,
        count: 1,
    }
}

fn whole(kind: u8, scope: Option<Scope>) -> Option<Message2> {
    let scope = scope?;
    Some(if kind == b'D' {
        Message2::Discover(scope)
    } else {
        Message2::Down(scope)
    })
}

fn is_made(alloc: Global, row: &Alone) -> bool {
    let whole = Cut {
        head: row.body,
        first: 1,
        count: 0,
    };
    match message(alloc, row.kind) {
        Some(message) => is_said(alloc, &message, &[whole]),
        None => false,
    }
}

fn is_read(alloc: Global, row: &Alone) -> bool {
    match read(alloc, row.kind) {
        Some(read) => says(alloc, row.body, &read),
        None => false,
    }
}

#[test]
fn says_the_other_messages_in_one_body(rt: HostRuntime) {
    for row in &ALONE {
        let is_shown = is_made(rt.alloc(), row) && is_read(rt.alloc(), row);
        assert!(rt; is_shown, "{}", row.kind);
    }
}
