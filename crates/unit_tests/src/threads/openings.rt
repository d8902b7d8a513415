//! Nodes that aren't made: the seats come first, then the limit of the audit, and then the version
//! of link messages.
use super::opening;
use node_core::{NodeCore, OpenFault};
use node_threads::*;
use policy_audit::Opening;
use std::alloc::Global;

/// A node of that many seats and entries, which knows that version, and why there is none.
struct Refused {
    what: &'static str,
    seats: u32,
    entries: u32,
    links: u8,
    fault: NewFault,
}

static REFUSED: [Refused; 7] = [
    Refused {
        what: "no seats",
        seats: 0,
        entries: 100,
        links: 1,
        fault: NewFault::BadSeats,
    },
    Refused {
        what: "257 seats",
        seats: 257,
        entries: 100,
        links: 1,
        fault: NewFault::BadSeats,
    },
    Refused {
        what: "no seats, no entries and version 3",
        seats: 0,
        entries: 0,
        links: 3,
        fault: NewFault::BadSeats,
    },
    Refused {
        what: "no entries",
        seats: 1,
        entries: 0,
        links: 1,
        fault: NewFault::BadLimit,
    },
    Refused {
        what: "no entries and version 3",
        seats: 1,
        entries: 0,
        links: 3,
        fault: NewFault::BadLimit,
    },
    Refused {
        what: "version 0",
        seats: 1,
        entries: 100,
        links: 0,
        fault: NewFault::BadLinks,
    },
    Refused {
        what: "version 3",
        seats: 1,
        entries: 100,
        links: 3,
        fault: NewFault::BadLinks,
    },
];

/// The same of a core, which has no seats.
struct RefusedCore {
    what: &'static str,
    entries: u32,
    links: u8,
    fault: OpenFault,
}

static REFUSED_CORES: [RefusedCore; 4] = [
    RefusedCore {
        what: "no entries",
        entries: 0,
        links: 1,
        fault: OpenFault::BadLimit,
    },
    RefusedCore {
        what: "no entries and version 3",
        entries: 0,
        links: 3,
        fault: OpenFault::BadLimit,
    },
    RefusedCore {
        what: "version 0",
        entries: 100,
        links: 0,
        fault: OpenFault::BadLinks,
    },
    RefusedCore {
        what: "version 3",
        entries: 100,
        links: 3,
        fault: OpenFault::BadLinks,
    },
];

/// A node of that many entries, which knows that version of link messages.
fn opening_of(alloc: Global, entries: u32, links: u8) -> Option<Opening> {
    let mut opening = opening(alloc, b"a@h", 1, entries)?;
    opening.links = links;
    Some(opening)
}

fn refused_node(alloc: Global, row: &Refused) -> Option<NewFault> {
    Node::new(alloc, opening_of(alloc, row.entries, row.links)?, row.seats).err()
}

fn refused_core(alloc: Global, row: &RefusedCore) -> Option<OpenFault> {
    NodeCore::new(alloc, opening_of(alloc, row.entries, row.links)?).err()
}

/// Whether a node of that many seats opens, which knows that version.
fn opens(alloc: Global, seats: u32, links: u8) -> bool {
    match opening_of(alloc, 1, links) {
        Some(opening) => Node::new(alloc, opening, seats).is_ok(),
        None => false,
    }
}

#[test]
fn refuses_seats_limits_and_versions(rt: HostRuntime) {
    for row in &REFUSED {
        assert!(rt;
            refused_node(rt.alloc(), row) == Some(row.fault),
            "{}",
            row.what
        );
    }
    assert!(rt; opens(rt.alloc(), 256, 1));
    assert!(rt; opens(rt.alloc(), 1, 2));
}

#[test]
fn refuses_limits_and_versions_of_a_core(rt: HostRuntime) {
    for row in &REFUSED_CORES {
        assert!(rt;
            refused_core(rt.alloc(), row) == Some(row.fault),
            "{}",
            row.what
        );
    }
}
