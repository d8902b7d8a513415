//! Two callers on threads of their own read back what both have done. What can't be played for want
//! of memory is None.
use super::{Ask, Member, Told, Way, ask_for, closed, member_of, new_node};
use node_threads::*;
use std::alloc::Global;
use std::sync::Wait;
use std::sync::atomic::{AtomicU64, Ordering};
use std::thread;
use std::thread::Threads;

/// What two callers were told in the end: how many are members, and how many found the audit full.
#[derive(Drop)]
struct Tally {
    members: AtomicU64,
    full: AtomicU64,
}

impl Tally {
    fn new() -> Tally {
        Tally {
            members: AtomicU64::new(0),
            full: AtomicU64::new(0),
        }
    }

    fn count(&self, told: Told) {
        match told {
            Told::Member => _ = self.members.fetch_add(1, Ordering::SeqCst),
            Told::Full => _ = self.full.fetch_add(1, Ordering::SeqCst),
            _ => {}
        }
    }
}

/// Joins by a call, and asks for the members.
fn join_and_ask<R: Wait>(rt: &R, node: &Node, pass: &mut Pass, member: &Member, way: Way) -> Told {
    let told = ask_for(rt, node, pass, member, Way::Call, Ask::Join);
    if told != Told::Done {
        return told;
    }
    ask_for(rt, node, pass, member, way, Ask::Members)
}

/// The caller of that seat, whose process is the seat's number and one.
fn caller<R: Wait>(
    rt: &R,
    alloc: Global,
    node: &Node,
    seat: usize,
    pass: &mut Pass,
    way: Way,
    tally: &Tally,
) {
    if let Some(member) = member_of(alloc, (seat as u64).saturating_add(1)) {
        tally.count(join_and_ask(rt, node, pass, &member, way));
    }
}

/// Starts the scope, and two processes.
fn begin<R: Wait>(rt: &R, node: &Node, pass: &mut Pass, member: &Member) -> bool {
    for what in &[Ask::Start, Ask::Spawn, Ask::Spawn] {
        if ask_for(rt, node, pass, member, Way::Call, *what) != Told::Done {
            return false;
        }
    }
    true
}

fn begins<R: Wait>(rt: &R, alloc: Global, node: &Node, passes: &mut [Pass]) -> bool {
    let Some(first) = passes.first_mut() else {
        return false;
    };
    match member_of(alloc, 1) {
        Some(member) => begin(rt, node, first, &member),
        None => false,
    }
}

/// How many callers are members in the end, how many found the audit full, and how many entries the
/// node has.
fn read_back<R: Threads + Wait + Sync>(
    rt: &R,
    alloc: Global,
    entries: u32,
    way: Way,
) -> Option<(u64, u64, usize)> {
    let (node, mut passes) = new_node(alloc, entries, 2)?;
    let tally = Tally::new();
    both(rt, alloc, &node, passes.as_mut_slice(), way, &tally);
    let entries = closed(node, passes)?;
    Some((
        tally.members.load(Ordering::SeqCst),
        tally.full.load(Ordering::SeqCst),
        entries,
    ))
}

/// Each caller on a thread of its own.
fn both<R: Threads + Wait + Sync>(
    rt: &R,
    alloc: Global,
    node: &Node,
    passes: &mut [Pass],
    way: Way,
    tally: &Tally,
) {
    if begins(rt, alloc, node, passes) {
        thread::for_each_mut(
            rt,
            passes,
            2,
            &|seat, pass| { caller(rt, alloc, node, seat, pass, way, tally) },
        );
    }
}

fn reads_back<R: Threads + Wait + Sync>(rt: &R, alloc: Global, way: Way) -> bool {
    read_back(rt, alloc, 100, way) == Some((2, 0, 7))
        && read_back(rt, alloc, 6, way) == Some((1, 1, 6))
}

#[test]
fn two_threads_read_back(rt: HostRuntime) {
    assert!(rt; reads_back(&rt, rt.alloc(), Way::Call));
    assert!(rt; reads_back(&rt, rt.alloc(), Way::Lock));
}
