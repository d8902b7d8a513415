//! Sixteen seats on four threads. What can't be played for want of memory is None.
use super::{Ask, Member, Told, Way, ask_for, closed, is_done, member_of, new_node};
use crate::made::scope_of;
use node_threads::*;
use policy_audit::{Event, Reply};
use std::alloc::Global;
use std::sync::Wait;
use std::sync::atomic::{AtomicU64, Ordering};
use std::thread;
use std::thread::Threads;

/// A step of a round, and what it is answered.
struct Step(Ask, Told);

static STEPS: [Step; 4] = [
    Step(Ask::Join, Told::Done),
    Step(Ask::Members, Told::Member),
    Step(Ask::Leave, Told::Done),
    Step(Ask::Members, Told::NoMember),
];

/// Joins, asks for the members, leaves and asks again: how many answers were wrong.
fn wrong_in_a_round<R: Wait>(rt: &R, node: &Node, pass: &mut Pass, member: &Member) -> u64 {
    let mut wrong = 0u64;
    for step in &STEPS {
        if ask_for(rt, node, pass, member, Way::Call, step.0) != step.1 {
            wrong = wrong.saturating_add(1);
        }
    }
    wrong
}

/// A new process of the seat.
fn spawned<R: Wait>(rt: &R, alloc: Global, node: &Node, pass: &mut Pass) -> Option<Member> {
    match new_number(rt, node, pass, Event::Spawn) {
        Some(number) => member_of(alloc, number),
        None => None,
    }
}

/// The number of the process that the event makes.
fn new_number<R: Wait>(rt: &R, node: &Node, pass: &mut Pass, event: Event) -> Option<u64> {
    match pass.call(node, rt, event) {
        Ok(reply) => number_of(reply),
        Err(_) => None,
    }
}

fn number_of(reply: &Reply) -> Option<u64> {
    match reply {
        Reply::Pid(pid) => Some(pid.number),
        _ => None,
    }
}

/// Plays that many rounds with a process of the seat: how many answers were wrong.
fn work<R: Wait>(rt: &R, alloc: Global, node: &Node, pass: &mut Pass, rounds: u32) -> u64 {
    let Some(member) = spawned(rt, alloc, node, pass) else {
        return 1;
    };
    let mut wrong = 0u64;
    for _ in 0..rounds {
        wrong = wrong.saturating_add(wrong_in_a_round(rt, node, pass, &member));
    }
    wrong
}

/// All seats on four threads: how many answers were wrong.
fn work_all<R: Threads + Wait + Sync>(
    rt: &R,
    alloc: Global,
    node: &Node,
    passes: &mut [Pass],
    rounds: u32,
) -> u64 {
    let wrong = AtomicU64::new(0);
    thread::for_each_mut(
        rt,
        passes,
        4,
        &|_, pass| {
            wrong.fetch_add(work(rt, alloc, node, pass, rounds), Ordering::SeqCst);
        },
    );
    wrong.load(Ordering::SeqCst)
}

/// How many answers were wrong, and how many entries the node has.
fn crowd<R: Threads + Wait + Sync>(rt: &R, alloc: Global, rounds: u32) -> Option<(u64, usize)> {
    let (node, mut passes) = new_node(alloc, 1_000_000, 16)?;
    let wrong = start_and_work(rt, alloc, &node, passes.as_mut_slice(), rounds);
    match closed(node, passes) {
        Some(entries) => Some((wrong, entries)),
        None => None,
    }
}

fn start_and_work<R: Threads + Wait + Sync>(
    rt: &R,
    alloc: Global,
    node: &Node,
    passes: &mut [Pass],
    rounds: u32,
) -> u64 {
    let has_started = match passes.first_mut() {
        Some(first) => starts(rt, alloc, node, first),
        None => false,
    };
    if has_started {
        work_all(rt, alloc, node, passes, rounds)
    } else {
        1
    }
}

/// Whether the scope `pg` is started.
fn starts<R: Wait>(rt: &R, alloc: Global, node: &Node, pass: &mut Pass) -> bool {
    match scope_of(alloc, b"pg") {
        Some(scope) => is_done(rt, node, pass, Event::StartScope(scope)),
        None => false,
    }
}

#[test]
fn sixteen_seats_on_four_threads(rt: HostRuntime) {
    // Each round is four calls of each seat.
    let entries = 1 + 16 + 16 * 10_000;
    assert!(rt; crowd(&rt, rt.alloc(), 2_500) == Some((0, entries)));
}
