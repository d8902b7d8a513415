//! The bodies of parts, and bodies that are none. What can't be played for want of memory is None;
//! the assertions stand in the tests.
ghost use Rattle.std.specs.Prelude.{◌≡◌, IfSome, length};
ghost use Rattle.link_frames.specs.Parts.{HasSpelling2};

use crate::digits::{changes_of, exchange, front};
use crate::made::{Process, row_of, scope_of};
use dist_types::{Body, Row, Scope};
use link_frames::*;
use std::alloc::Global;

/// A part of a message of `pg`: its kind, its number, whether it is the last, and how many rows it
/// has.
#[derive(Clone, Copy)]
pub struct Numbered {
    pub kind: PartKind,
    pub number: u32,
    pub last: bool,
    pub count: u32,
}

/// The body of a part.
struct Part {
    body: &'static [u8],
    part: Numbered,
    /// How many bodies that differ from it in one byte, to 00, ff or a neighbour, are parts:
    /// counted by the reader of tests/model (`changed_parts`).
    changed: u32,
}

static PARTS: [Part; 5] = [
    Part {
        body: b"S\x02pg\0\0\0\x01\x01\0\0\0\0",
        part: Numbered {
            kind: PartKind::Sync,
            number: 1,
            last: true,
            count: 0,
        },
        changed: 13,
    },
    Part {
        body: b"S\x02pg\0\0\0\x02\0\0\0\0\0",
        part: Numbered {
            kind: PartKind::Sync,
            number: 2,
            last: false,
            count: 0,
        },
        changed: 14,
    },
    Part {
        body: b"S\x02pg\0\0\x01\0\x01\0\0\0\x01\x01g\0\x03a@h\0\0\0\x05\0\0\0\0\0\0\0\x01",
        part: Numbered {
            kind: PartKind::Sync,
            number: 256,
            last: true,
            count: 1,
        },
        changed: 46,
    },
    Part {
        body: b"J\x02pg\0\0\0\x01\0\0\0\0\x02\x01g\0\x03a@h\0\0\0\x05\0\0\0\0\0\0\0\x01\x01g\0\x03a@h\0\0\0\x05\0\0\0\0\0\0\0\x02",
        part: Numbered {
            kind: PartKind::Join,
            number: 1,
            last: false,
            count: 2,
        },
        changed: 80,
    },
    Part {
        body: b"L\x02pg\xff\xff\xff\xff\x01\0\0\0\x01\x01g\0\x03a@h\0\0\0\x05\0\0\0\0\0\0\0\x01",
        part: Numbered {
            kind: PartKind::Leave,
            number: 4_294_967_295,
            last: true,
            count: 1,
        },
        changed: 46,
    },
];

/// A body that is no part.
struct NoPart {
    what: &'static str,
    body: &'static [u8],
}

static NO_PARTS: [NoPart; 9] = [
    NoPart {
        what: "a part 0",
        body: b"S\x02pg\0\0\0\0\x01\0\0\0\0",
    },
    NoPart {
        what: "a last byte of 02",
        body: b"S\x02pg\0\0\0\x01\x02\0\0\0\0",
    },
    NoPart {
        what: "a last byte of ff",
        body: b"S\x02pg\0\0\0\x01\xff\0\0\0\0",
    },
    NoPart {
        what: "a Join without rows, the last part",
        body: b"J\x02pg\0\0\0\x01\x01\0\0\0\0",
    },
    NoPart {
        what: "a Join without rows",
        body: b"J\x02pg\0\0\0\x02\0\0\0\0\0",
    },
    NoPart {
        what: "a Leave without rows, the last part",
        body: b"L\x02pg\0\0\0\x01\x01\0\0\0\0",
    },
    NoPart {
        what: "a Leave without rows",
        body: b"L\x02pg\0\0\0\x02\0\0\0\0\0",
    },
    NoPart {
        what: "a Sync of version 1",
        body: b"S\x02pg\0\0\0\0",
    },
    NoPart {
        what: "a byte behind a part",
        body: b"S\x02pg\0\0\0\x01\x01\0\0\0\0\0",
    },
];

pub fn pg(alloc: Global) -> Option<Scope> {
    scope_of(alloc, b"pg")
}

/// A row of the group `g`, with the process of that number of `a@h` in its creation 5.
fn row(alloc: Global, number: u64) -> Option<Row> {
    let process = Process {
        node: b"a@h",
        creation: 5,
        number,
    };
    row_of(alloc, b"g", &process)
}

/// So many such rows: those of the first processes.
pub fn rows(alloc: Global, count: u32) -> Option<Rows>
    ensures { IfSome result (λ rows. length rows ≡ count) }
{
    let mut rows = Vec::new(alloc);
    for place in 0..count {
        let row = row(alloc, u64::from(place) + 1)?;
        rows.push(row).ok()?;
    }
    Some(Rows::of(rows))
}

/// The part, with the first of these rows.
pub fn message_part(alloc: Global, part: &Numbered) -> Option<Message2> {
    let rows = rows(alloc, part.count)?;
    match pg(alloc) {
        Some(scope) => Some(Message2::Part {
            kind: part.kind,
            scope,
            number: part.number,
            last: part.last,
            rows,
        }),
        None => None,
    }
}

/// The body of these bytes and so many such rows, from the process of this number on.
pub fn body(alloc: Global, head: &[u8], first: u32, count: u32) -> Option<Body> {
    let mut body = Vec::from_slice(alloc, head).ok()?;
    for place in 0..count {
        let number = u64::from(first) + u64::from(place);
        put_row(number, &mut body)?;
    }
    Body::of(body).ok()
}

fn put_row(number: u64, body: &mut Vec<u8>) -> Option<()> {
    body.extend_from_slice(b"\x01g\0\x03a@h\0\0\0\x05").ok()?;
    body.extend_from_slice(&number.to_be_bytes()).ok()
}

/// Whether the message is written as this body.
fn is_written(alloc: Global, message: &Message2, body: &[u8]) -> bool
    requires { HasSpelling2 message.now }
{
    let mut written = Vec::new(alloc);
    let has_memory = encode_v2(message, &mut written).is_ok();
    has_memory && written.as_slice() == body
}

/// Whether the body is read as this, and written again with the same bytes.
pub fn says(alloc: Global, body: &[u8], said: &Message2) -> bool {
    match decode_v2(alloc, body) {
        Ok(read) => read == *said && is_written(alloc, &read, body),
        Err(_) => false,
    }
}

fn is_part(alloc: Global, row: &Part) -> bool {
    match message_part(alloc, &row.part) {
        Some(said) => says(alloc, row.body, &said),
        None => false,
    }
}

/// Why the body isn't read, if it isn't.
fn fault_of(alloc: Global, body: &[u8]) -> Option<MessageFault> {
    decode_v2(alloc, body).err()
}

fn is_refused(alloc: Global, body: &[u8]) -> bool {
    fault_of(alloc, body) == Some(MessageFault::BadFrame)
}

fn are_fronts_refused(alloc: Global, body: &[u8]) -> bool {
    for len in 0..body.len() {
        if !is_refused(alloc, front(body, len)) {
            return false;
        }
    }
    true
}

fn is_tried(old: u8, new: u8) -> bool {
    new != old && changes_of(old).contains(&new)
}

/// How many of the bodies with another byte at that place are parts.
fn parts_at(alloc: Global, body: &mut [u8], place: usize) -> u32 {
    let old = exchange(body, place, 0);
    let mut count = 0_u32;
    for new in 0..=255_u8 {
        exchange(body, place, new);
        if is_tried(old, new) && fault_of(alloc, body).is_none() {
            count = count.wrapping_add(1);
        }
    }
    exchange(body, place, old);
    count
}

/// How many of the bodies with another byte are parts.
fn changed_parts(alloc: Global, body: &[u8]) -> Option<u32> {
    let mut changed = Vec::from_slice(alloc, body).ok()?;
    let mut count = 0_u32;
    for place in 0..body.len() {
        count = count.wrapping_add(parts_at(alloc, &mut changed, place));
    }
    Some(count)
}

/// Whether it is read and written, its beginnings are not, and of those with another byte so many.
fn stands(alloc: Global, row: &Part) -> bool {
    is_part(alloc, row)
        && are_fronts_refused(alloc, row.body)
        && changed_parts(alloc, row.body) == Some(row.changed)
}

#[test]
fn reads_and_writes_parts_and_nothing_near_them(rt: HostRuntime) {
    for row in &PARTS {
        assert!(rt; stands(rt.alloc(), row), "{}", row.part.number);
    }
}

#[test]
fn refuses_what_is_no_part(rt: HostRuntime) {
    for row in &NO_PARTS {
        assert!(rt; is_refused(rt.alloc(), row.body), "{}", row.what);
    }
}

/// The beginning of a part with so many rows. All of them are there, and each is well spelled.
struct Long {
    head: &'static [u8],
    count: u32,
    fault: Option<MessageFault>,
}

static LONG: [Long; 6] = [
    Long {
        head: b"S\x02pg\0\0\0\x01\x01\0\0\x10\0",
        count: 4096,
        fault: None,
    },
    Long {
        head: b"S\x02pg\0\0\0\x01\x01\0\0\x10\x01",
        count: 4097,
        fault: Some(MessageFault::BadFrame),
    },
    Long {
        head: b"J\x02pg\0\0\0\x01\x01\0\0\x10\0",
        count: 4096,
        fault: None,
    },
    Long {
        head: b"J\x02pg\0\0\0\x01\x01\0\0\x10\x01",
        count: 4097,
        fault: Some(MessageFault::BadFrame),
    },
    Long {
        head: b"L\x02pg\0\0\0\x01\x01\0\0\x10\0",
        count: 4096,
        fault: None,
    },
    Long {
        head: b"L\x02pg\0\0\0\x01\x01\0\0\x10\x01",
        count: 4097,
        fault: Some(MessageFault::BadFrame),
    },
];

fn is_judged(alloc: Global, row: &Long) -> bool {
    match body(alloc, row.head, 1, row.count) {
        Some(body) => fault_of(alloc, body.as_slice()) == row.fault,
        None => false,
    }
}

#[test]
fn takes_4096_rows_in_a_part_and_no_more(rt: HostRuntime) {
    for row in &LONG {
        assert!(rt; is_judged(rt.alloc(), row), "{} rows", row.count);
    }
}
