//! The workers of a link over bytes in memory: the name frame and the reply of a@h, and what b@h
//! owes to them.
use super::{closed, give, opening, put_back};
use crate::digits::front;
use node_threads::*;
use policy_audit::{Event, Reply};
use std::alloc::Global;
use std::io;
use std::io::{ErrorKind, Read, Write};
use std::sync::Wait;
use std::sync::atomic::{AtomicU64, Ordering};
use std::thread::Threads;

/// The name frame of a@h and its reply to the challenge 123, each behind its length.
const SENT: [u8; 43] = [
    0, 18, 0x4e, 0, 0, 0, 0, 1, 0, 0, 1, 0, 0, 0, 5, 0, 3, 0x61, 0x40, 0x68, // the name frame
    0, 21, 0x72, 0, 0, 0, 1, 0x48, 0x2c, 0x81, 0x1d, 0xa5, 0xd5, 0xb4, 0xbc, 0x6d, 0x49, 0x7f,
    0xfa, 0x98, 0x49, 0x1e, 0x38,
];

/// What b@h owes to it: the status, the challenge and the acknowledgement.
const OWED: [u8; 48] = [
    0, 3, 0x73, 0x6f, 0x6b, // the status
    0, 22, 0x4e, 0, 0, 0, 0, 1, 0, 0, 1, 0, 0, 0, 123, 0, 0, 0, 4, 0, 3, 0x62, 0x40, 0x68, 0, 17,
    0x61, 0x7c, 0x6a, 0x18, 0x0b, 0x36, 0x89, 0x6a, 0x0a, 0x8c, 0x02, 0x78, 0x7e, 0xea, 0xfb, 0x0e,
    0x4c,
];

/// Gives the bytes of the peer, at most so many a read; where it interrupts, each read is
/// interrupted once before it gives any.
#[derive(Drop)]
struct Sent {
    at: usize,
    step: usize,
    interrupts: bool,
    interrupted: bool,
}

impl Sent {
    fn by(step: usize, interrupts: bool) -> Sent {
        Sent {
            at: 0,
            step,
            interrupts,
            interrupted: false,
        }
    }
}

impl Read for Sent {
    fn read(&mut self, buf: &mut [u8]) -> io::Result<usize> {
        if self.interrupts && !self.interrupted {
            self.interrupted = true;
            return Err(io::Error::from(ErrorKind::Interrupted));
        }
        self.interrupted = false;
        let left = SENT.get(self.at..).unwrap_or(&[]);
        let count = give(front(left, self.step), buf);
        self.at = self.at.saturating_add(count);
        Ok(count)
    }
}

/// Takes so many bytes a write, and fails where it has taken as many as it ever takes.
#[derive(Drop)]
struct Wire<'a> {
    taken: Vec<u8>,
    step: usize,
    most: usize,
    told: &'a Told,
}

/// What a writer tells the test.
#[derive(Drop)]
struct Told {
    /// How many bytes were written, as they should be.
    right: AtomicU64,
    hung_up: AtomicU64,
}

impl Told {
    fn new() -> Told {
        Told {
            right: AtomicU64::new(0),
            hung_up: AtomicU64::new(0),
        }
    }

    /// Counts what was written so far, where it is as it should be.
    fn hear(&self, taken: &[u8]) {
        if OWED.starts_with(taken) {
            self.right.store(taken.len() as u64, Ordering::SeqCst);
        }
    }

    fn has_all(&self) -> bool {
        self.right.load(Ordering::SeqCst) == OWED.len() as u64
    }

    fn is_hung_up(&self) -> bool {
        self.hung_up.load(Ordering::SeqCst) > 0
    }
}

impl Write for Wire<'_> {
    fn write(&mut self, buf: &[u8]) -> io::Result<usize> {
        let room = self.most.saturating_sub(self.taken.len());
        if room == 0 {
            return Err(io::Error::from(ErrorKind::BrokenPipe));
        }
        let count = buf.len().min(self.step).min(room);
        if self.taken.extend_from_slice(&buf[..count]).is_err() {
            return Err(io::Error::from(ErrorKind::OutOfMemory));
        }
        self.told.hear(&self.taken);
        Ok(count)
    }

    fn flush(&mut self) -> io::Result<()> {
        Ok(())
    }
}

impl LinkOut for Wire<'_> {
    fn hang_up(&mut self) {
        self.told.hung_up.fetch_add(1, Ordering::SeqCst);
    }
}

/// Holds each read but the first until all that is owed was written, or the writer has hung up.
#[derive(Drop)]
struct Holding<'a> {
    reads: AtomicU64,
    told: &'a Told,
}

impl Gate for Holding<'_> {
    fn reading(&self, _link: u32) {
        if self.reads.fetch_add(1, Ordering::SeqCst) == 0 {
            return;
        }
        for _ in 0..100_000_000u32 {
            if self.told.has_all() || self.told.is_hung_up() {
                return;
            }
        }
    }
}

/// The node b@h with link 1 open, the pass of its reader, and that of its writer.
fn with_link<R: Wait>(rt: &R, alloc: Global, entries: u32) -> Option<(Node, Vec<Pass>)> {
    let (node, mut passes) = Node::new(alloc, opening(alloc, b"b@h", 4, entries)?, 2).ok()?;
    if opens_link(rt, &node, passes.as_mut_slice()) {
        Some((node, passes))
    } else {
        None
    }
}

/// Whether the first pass opens link 1.
fn opens_link<R: Wait>(rt: &R, node: &Node, passes: &mut [Pass]) -> bool {
    match passes.first_mut() {
        Some(reader) => is_link_1_made(rt, node, reader, Event::Opened(123)),
        None => false,
    }
}

// What calls has no contract and is given the event, so that a check doesn't compute the policy's
// verdict on it.
fn is_link_1_made<R: Wait>(rt: &R, node: &Node, reader: &mut Pass, event: Event) -> bool {
    match reader.call(node, rt, event) {
        Ok(reply) => is_link_1(reply),
        Err(_) => false,
    }
}

fn is_link_1(reply: &Reply) -> bool {
    match reply {
        Reply::Link(link) => *link == 1,
        _ => false,
    }
}

/// The kind of an event of link 1.
fn kind(event: &Event) -> u8 {
    match event {
        Event::Frame(1, _) => b'F',
        Event::Lost(1) => b'L',
        _ => b'?',
    }
}

/// Whether these calls are of these kinds.
fn are_of(calls: &[Call], kinds: &[u8]) -> bool {
    for (call, wanted) in calls.iter().zip(kinds) {
        if kind(&call.event) != *wanted {
            return false;
        }
    }
    calls.len() == kinds.len()
}

/// Whether a pass has called just these behind its first entry.
fn has_called(pass: &Pass, kinds: &[u8]) -> bool {
    match pass.calls().split_first() {
        Some((_, calls)) => are_of(calls, kinds),
        None => false,
    }
}

/// How many entries an audit may have, why a reader stops then, and what its pass has called.
struct Stopped {
    entries: u32,
    end: ReadEnd,
    kinds: &'static [u8],
}

static CLOSED: Stopped = Stopped {
    entries: 100,
    end: ReadEnd::Closed,
    kinds: b"FFL",
};

static FULL: [Stopped; 3] = [
    Stopped {
        entries: 1,
        end: ReadEnd::EntriesFull,
        kinds: b"",
    },
    Stopped {
        entries: 2,
        end: ReadEnd::EntriesFull,
        kinds: b"F",
    },
    Stopped {
        entries: 3,
        end: ReadEnd::EntriesFull,
        kinds: b"FF",
    },
];

/// Whether a reader of what was sent, at most so many bytes a read, stops so, and the node closes.
fn stops<R: Wait>(rt: &R, alloc: Global, row: &Stopped, step: usize, interrupts: bool) -> bool {
    let Some((node, mut passes)) = with_link(rt, alloc, row.entries) else {
        return false;
    };
    let mut sent = Sent::by(step, interrupts);
    let is_read = reads(rt, alloc, &node, passes.as_mut_slice(), &mut sent, row);
    closed(node, passes).is_some() && is_read
}

/// Reads by the first pass.
fn reads<R: Wait>(
    rt: &R,
    alloc: Global,
    node: &Node,
    passes: &mut [Pass],
    sent: &mut Sent,
    row: &Stopped,
) -> bool {
    match passes.first_mut() {
        Some(reader) => {
            let end = read_link(rt, alloc, node, reader, 1, sent, &OpenGate);
            end == row.end && has_called(reader, row.kinds)
        }
        None => false,
    }
}

#[test]
fn reads_however_the_bytes_come(rt: HostRuntime) {
    for step in &[4096, 20, 7, 1] {
        assert!(rt; stops(&rt, rt.alloc(), &CLOSED, *step, false), "{step}");
        assert!(rt; stops(&rt, rt.alloc(), &CLOSED, *step, true), "{step}");
    }
}

#[test]
fn a_full_audit_ends_a_reader(rt: HostRuntime) {
    for row in &FULL {
        assert!(rt; stops(&rt, rt.alloc(), row, 4096, false), "{}", row.entries);
    }
}

/// Serves the link with both workers, over these ends: why both stop, where the node closes.
fn serve<R: Threads + Wait + Sync>(
    rt: &R,
    alloc: Global,
    sent: Sent,
    wire: Wire<'_>,
) -> Option<(ReadEnd, WriteEnd)> {
    let (node, mut passes) = with_link(rt, alloc, 100)?;
    let writer = passes.pop()?;
    match passes.pop() {
        Some(reader) => {
            let served = serve_with(rt, alloc, &node, Pair { reader, writer }, sent, wire);
            ended(node, served, passes)
        }
        None => None,
    }
}

fn serve_with<R: Threads + Wait + Sync>(
    rt: &R,
    alloc: Global,
    node: &Node,
    pair: Pair,
    sent: Sent,
    wire: Wire<'_>,
) -> ServedLink {
    let gate = Holding {
        reads: AtomicU64::new(0),
        told: wire.told,
    };
    let connection = Connection {
        link: 1,
        input: sent,
        output: wire,
    };
    serve_link(rt, alloc, node, pair, connection, &gate)
}

/// Closes the node with the passes of both workers.
fn ended(node: Node, served: ServedLink, mut passes: Vec<Pass>) -> Option<(ReadEnd, WriteEnd)> {
    let ServedLink {
        pair,
        read,
        written,
    } = served;
    put_back(&mut passes, pair)?;
    match closed(node, passes) {
        Some(_) => Some((read, written)),
        None => None,
    }
}

/// Whether both workers stop so, with a writer that takes so many bytes a write, and ever, and a
/// reader that gives so many.
fn is_served<R: Threads + Wait + Sync>(
    rt: &R,
    alloc: Global,
    step: usize,
    most: usize,
    given: usize,
    ends: (ReadEnd, WriteEnd),
) -> bool {
    let told = Told::new();
    let wire = Wire {
        taken: Vec::new(alloc),
        step,
        most,
        told: &told,
    };
    serve(rt, alloc, Sent::by(given, false), wire) == Some(ends)
        && told.has_all() == (most == OWED.len())
        && told.is_hung_up()
}

#[test]
fn both_workers_serve_a_link(rt: HostRuntime) {
    let ends = (ReadEnd::Closed, WriteEnd::Gone);
    for step in &[4096, 7, 1] {
        let is_served = is_served(&rt, rt.alloc(), *step, OWED.len(), 4096, ends);
        assert!(rt; is_served, "{step}");
    }
}

/// The writer fails while the reader waits for the reply: it gives the link up and hangs up, and
/// the reply meets no link.
#[test]
fn a_failed_write_ends_both_workers(rt: HostRuntime) {
    let ends = (ReadEnd::Gone, WriteEnd::WriteFault);
    for most in &[0, 1, 5, 28] {
        let is_served = is_served(&rt, rt.alloc(), 4096, *most, 20, ends);
        assert!(rt; is_served, "{most}");
    }
}
