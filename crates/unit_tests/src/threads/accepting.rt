//! Connections of a door in memory.
use super::{closed, give, is_done, opening, paired, put_back};
use cookie_digest::ChallengeSource;
use node_threads::*;
use policy_audit::Event;
use rand_chacha::ChaCha20Rng;
use rand_core::SeedableRng;
use std::alloc::Global;
use std::io::{ErrorKind, Read, Write};
use std::sync::Wait;
use std::sync::atomic::{AtomicU64, Ordering};
use std::thread::Threads;
use std::{io, thread};

/// The name frame of a@h behind its length.
pub(super) const NAME: [u8; 20] = [
    0, 18, 0x4e, 0, 0, 0, 0, 1, 0, 0, 1, 0, 0, 0, 5, 0, 3, 0x61, 0x40, 0x68,
];

/// What the gate and the connections tell the test.
#[derive(Drop)]
struct Heard {
    /// How many frames of links behind the first were answered.
    later: AtomicU64,
    /// How many readers waited for that in vain.
    missed: AtomicU64,
    hung_up: AtomicU64,
}

impl Heard {
    fn new() -> Heard {
        Heard {
            later: AtomicU64::new(0),
            missed: AtomicU64::new(0),
            hung_up: AtomicU64::new(0),
        }
    }

    /// Whether so many waited in vain, and so many hung up.
    fn has(&self, missed: u64, hung_up: u64) -> bool {
        self.missed.load(Ordering::SeqCst) == missed
            && self.hung_up.load(Ordering::SeqCst) == hung_up
    }

    /// Waits until a frame of a later link was answered, for a while.
    fn wait(&self) {
        for _ in 0..1_000_000u32 {
            if self.later.load(Ordering::SeqCst) > 0 {
                return;
            }
            thread::yield_now();
        }
        self.missed.fetch_add(1, Ordering::SeqCst);
    }
}

impl Gate for Heard {
    fn answered(&self, link: u32) {
        if link > 1 {
            self.later.fetch_add(1, Ordering::SeqCst);
        }
    }
}

/// A peer that sends its name and no more. It may wait first.
#[derive(Drop)]
struct Peer<'a> {
    waits: bool,
    sent: usize,
    heard: &'a Heard,
}

impl Read for Peer<'_> {
    fn read(&mut self, buf: &mut [u8]) -> io::Result<usize> {
        if self.waits {
            self.heard.wait();
        }
        let count = give(NAME.get(self.sent..).unwrap_or(&[]), buf);
        self.sent = self.sent.saturating_add(count);
        Ok(count)
    }
}

/// Takes all that is written.
#[derive(Drop)]
struct Line<'a> {
    heard: &'a Heard,
}

impl Write for Line<'_> {
    fn write(&mut self, buf: &[u8]) -> io::Result<usize> {
        Ok(buf.len())
    }

    fn flush(&mut self) -> io::Result<()> {
        Ok(())
    }
}

impl LinkOut for Line<'_> {
    fn hang_up(&mut self) {
        self.heard.hung_up.fetch_add(1, Ordering::SeqCst);
    }
}

/// So many connections, of which the first may wait; then no more, or a fault.
#[derive(Drop)]
struct Callers<'a> {
    left: u32,
    waits: bool,
    fails: bool,
    heard: &'a Heard,
}

impl<'a> Door for Callers<'a> {
    type Input = Peer<'a>;

    type Output = Line<'a>;

    fn next(&mut self) -> io::Result<Option<(Peer<'a>, Line<'a>)>> {
        if self.left == 0 {
            return if self.fails {
                Err(io::Error::from(ErrorKind::ConnectionAborted))
            } else {
                Ok(None)
            };
        }
        self.left -= 1;
        let peer = Peer {
            waits: self.waits,
            sent: 0,
            heard: self.heard,
        };
        self.waits = false;
        Ok(Some((peer, Line { heard: self.heard })))
    }
}

/// What is tried: a node of so many entries and pairs of passes, and the links that a caller of its
/// own has opened before.
struct Plan {
    entries: u32,
    pairs: u32,
    opened: u32,
    connections: u32,
    waits: bool,
    fails: bool,
}

/// The node b@h, and two passes for each pair and one more.
fn new_node(alloc: Global, plan: &Plan) -> Option<(Node, Vec<Pass>)> {
    let seats = plan.pairs.saturating_mul(2).saturating_add(1);
    Node::new(alloc, opening(alloc, b"b@h", 4, plan.entries)?, seats).ok()
}

/// Puts the pairs back behind the passes.
fn unpair(passes: &mut Vec<Pass>, pairs: Vec<Pair>) -> Option<()> {
    for pair in pairs {
        put_back(passes, pair)?;
    }
    Some(())
}

/// Opens so many links that nobody serves.
fn open_idle<R: Wait>(rt: &R, node: &Node, pass: &mut Pass, links: u32) -> Option<()> {
    for challenge in 0..links {
        if !is_done(rt, node, pass, Event::Opened(challenge)) {
            return None;
        }
    }
    Some(())
}

/// Serves the connections of the plan.
fn accept<R: Threads + Wait + Sync>(
    rt: &R,
    alloc: Global,
    node: &Node,
    pairs: Vec<Pair>,
    plan: &Plan,
    heard: &Heard,
) -> Accepted {
    let mut door = Callers {
        left: plan.connections,
        waits: plan.waits,
        fails: plan.fails,
        heard,
    };
    let mut source = ChallengeSource::new(ChaCha20Rng::from_seed([0; 32]));
    accept_links(rt, alloc, node, pairs, &mut door, &mut source, heard)
}

/// The same on a new node, which then closes with all passes: how many links were served, and why
/// no more are.
fn serve<R: Threads + Wait + Sync>(
    rt: &R,
    alloc: Global,
    plan: &Plan,
    heard: &Heard,
) -> Option<(usize, AcceptEnd)> {
    let (node, mut passes) = new_node(alloc, plan)?;
    let seen = serve_on(rt, alloc, &node, &mut passes, plan, heard);
    match closed(node, passes) {
        Some(_) => seen,
        None => None,
    }
}

/// The same on this node, whose passes are all there again in the end.
fn serve_on<R: Threads + Wait + Sync>(
    rt: &R,
    alloc: Global,
    node: &Node,
    passes: &mut Vec<Pass>,
    plan: &Plan,
    heard: &Heard,
) -> Option<(usize, AcceptEnd)> {
    open_idle(rt, node, passes.first_mut()?, plan.opened)?;
    let pairs = paired(alloc, passes, plan.pairs)?;
    let Accepted { pairs, served, end } = accept(rt, alloc, node, pairs, plan, heard);
    match unpair(passes, pairs) {
        Some(()) => Some((served, end)),
        None => None,
    }
}

const TWO: Plan = Plan {
    entries: 1000,
    pairs: 3,
    opened: 0,
    connections: 2,
    waits: false,
    fails: false,
};

/// The first of two readers waits until the second was answered.
static WAITING: Plan = Plan { waits: true, ..TWO };

#[test]
fn readers_run_at_once(rt: HostRuntime) {
    let heard = Heard::new();
    let wanted = Some((2, AcceptEnd::NoMore));
    assert!(rt; serve(&rt, rt.alloc(), &WAITING, &heard) == wanted);
    assert!(rt; heard.has(0, 2));
}

/// A plan, how many links are served, and why no more are.
struct Planned(&'static str, Plan, usize, AcceptEnd);

static PLANNED: [Planned; 7] = [
    Planned("two", TWO, 2, AcceptEnd::NoMore),
    Planned(
        "a fault",
        Plan { fails: true, ..TWO },
        2,
        AcceptEnd::DoorFault,
    ),
    Planned(
        "one pair",
        Plan { pairs: 1, ..TWO },
        1,
        AcceptEnd::PassesUsed,
    ),
    Planned(
        "two pairs",
        Plan { pairs: 2, ..TWO },
        2,
        AcceptEnd::PassesUsed,
    ),
    Planned(
        "no pair",
        Plan { pairs: 0, ..TWO },
        0,
        AcceptEnd::PassesUsed,
    ),
    Planned(
        "one entry",
        Plan { entries: 1, ..TWO },
        1,
        AcceptEnd::EntriesFull,
    ),
    Planned(
        "no link left",
        Plan { opened: 64, ..TWO },
        0,
        AcceptEnd::NoMore,
    ),
];

fn is_served<R: Threads + Wait + Sync>(rt: &R, alloc: Global, row: &Planned) -> bool {
    serve(rt, alloc, &row.1, &Heard::new()) == Some((row.2, row.3))
}

#[test]
fn ends_where_no_more_are_taken(rt: HostRuntime) {
    for row in &PLANNED {
        assert!(rt; is_served(&rt, rt.alloc(), row), "{}", row.0);
    }
}
