//! The signals of a running node of Erlang/OTP 25.2.3, and what is made of them.
use crate::bodies::{TOLD, Told};
use crate::digits::{bytes_of, changes_of, exchange, front, is_spelled};
use crate::made::group_of;
use dist_types::Group;
use otp_edge::{HearFault, Signal, read_signal, term_of};
use std::alloc::Global;

fn kind(signal: &Signal<'_>) -> u8 {
    match signal {
        Signal::Said(_, _) => b'S',
        Signal::Named(_, _) => b'N',
        Signal::Asked(_, _) => b'A',
        Signal::Monitor(_, _, _) => b'M',
        Signal::Demonitor(_, _, _) => b'D',
        Signal::MonitorExit(_, _) => b'E',
        Signal::Link(_, _) => b'L',
        Signal::Unlink(_, _, _) => b'U',
        Signal::Other => b'O',
    }
}

/// The kind of the body; none where the bytes are no body, and another one where memory is wanting.
fn kind_of(alloc: Global, bytes: &[u8]) -> Option<u8> {
    match read_signal(alloc, bytes) {
        Ok(signal) => Some(kind(&signal)),
        Err(HearFault::NoMessage) => None,
        Err(_) => Some(0),
    }
}

/// 1 where the bytes are a body.
fn is_body(alloc: Global, bytes: &[u8]) -> u32 {
    u32::from(kind_of(alloc, bytes).is_some())
}

fn bodies_in_fronts(alloc: Global, body: &[u8]) -> u32 {
    let mut count = 0_u32;
    for end in 0..body.len() {
        count = count.wrapping_add(is_body(alloc, front(body, end)));
    }
    count
}

fn bodies_at(alloc: Global, body: &mut [u8], at: usize) -> u32 {
    let old = exchange(body, at, 0);
    let mut count = 0_u32;
    for new in changes_of(old) {
        exchange(body, at, new);
        count = count.wrapping_add(is_body(alloc, body));
    }
    exchange(body, at, old);
    count
}

fn bodies_in_changes(alloc: Global, body: &mut [u8]) -> u32 {
    let mut count = 0_u32;
    for at in 0..body.len() {
        count = count.wrapping_add(bodies_at(alloc, body, at));
    }
    count
}

/// Whether the body is of that kind, and so many of its beginnings and of its changes are bodies.
fn is_judged(alloc: Global, body: &mut [u8], row: &Told) -> bool {
    kind_of(alloc, body) == Some(row.kind)
        && bodies_in_fronts(alloc, body) == row.fronts
        && bodies_in_changes(alloc, body) == row.changes
}

fn is_told(alloc: Global, row: &Told) -> bool {
    match bytes_of(alloc, row.body) {
        Some(mut body) => is_judged(alloc, &mut body, row),
        None => false,
    }
}

/// The call behind the first body that is judged otherwise.
fn first_wrong(alloc: Global) -> Option<&'static str> {
    for row in &TOLD {
        if !is_told(alloc, row) {
            return Some(row.call);
        }
    }
    None
}

#[test]
fn tells_bodies_from_what_is_near_them(rt: HostRuntime) {
    let wrong = first_wrong(rt.alloc());
    assert!(rt; wrong.is_none(), "{}", wrong.unwrap_or(""));
}

/// The text of a group, and its term; none where the text is no group's of a node.
struct Named {
    text: &'static str,
    term: Option<&'static str>,
}

static NAMED: [Named; 9] = [
    Named {
        text: "printers",
        term: Some("77087072696e74657273"),
    },
    Named {
        text: "#b:printers",
        term: Some("6d000000087072696e74657273"),
    },
    Named {
        text: "#x:68027706776f726b65726101",
        term: Some("68027706776f726b65726101"),
    },
    Named {
        text: "#x:6107",
        term: Some("6107"),
    },
    Named {
        text: "#x:zz",
        term: None,
    },
    Named {
        text: "#x:7701",
        term: None,
    },
    Named {
        text: "#x:770161",
        term: None,
    },
    Named {
        text: "#x:610",
        term: None,
    },
    Named {
        text: "#b:",
        term: Some("6d00000000"),
    },
];

fn is_term(alloc: Global, term: &[u8], digits: Option<&str>) -> bool {
    match digits {
        Some(digits) => is_spelled(alloc, term, digits),
        None => false,
    }
}

/// Whether the group has just this term.
fn has_term(alloc: Global, group: &Group, digits: Option<&str>) -> bool {
    match &term_of(alloc, group) {
        Ok(Some(term)) => is_term(alloc, term, digits),
        Ok(None) => digits.is_none(),
        Err(_) => false,
    }
}

fn is_named(alloc: Global, row: &Named) -> bool {
    match group_of(alloc, row.text.as_bytes()) {
        Some(group) => has_term(alloc, &group, row.term),
        None => false,
    }
}

#[test]
fn names_the_term_of_a_text(rt: HostRuntime) {
    for row in &NAMED {
        assert!(rt; is_named(rt.alloc(), row), "{}", row.text);
    }
}
