//! Passes that let their calls go, of nodes that hand out their entries.
use super::{closed, fault_of, is_done, new_node};
use crate::made::alone;
use node_core::CoreFault;
use node_threads::*;
use policy_audit::{Event, Rule};
use std::alloc::Global;
use std::sync::Wait;

/// Calls so many Takes of a link that isn't there: each is refused, and an entry.
fn takes<R: Wait>(rt: &R, node: &Node, pass: &mut Pass, count: u32) -> Option<()> {
    for _ in 0..count {
        let fault = fault_of(rt, node, pass, Event::Take(1));
        if fault != Some(CallFault::Core(CoreFault::Refused(Rule::NoSuchLink))) {
            return None;
        }
    }
    Some(())
}

/// How many pages the node hands out.
fn pages<R: Wait>(rt: &R, node: &Node) -> u32 {
    let mut shared = node.shared.lock(rt);
    for count in 0..100 {
        if shared.forget().is_none() {
            return count;
        }
    }
    100
}

/// What the calls of a pass are that it keeps, and all.
fn counts(pass: &Pass) -> (usize, u32) {
    (pass.calls().len(), pass.count())
}

/// Whether the passes keep as many calls as they should, and the node hands out 2 pages.
fn forgets<R: Wait>(rt: &R, node: &Node, first: &mut Pass, second: &mut Pass) -> Option<bool> {
    takes(rt, node, first, 300)?;
    first.let_go();
    takes(rt, node, second, 300)?;
    takes(rt, node, first, 20)?;
    let pages = pages(rt, node);
    takes(rt, node, second, 5)?;
    Some(pages == 2 && counts(first) == (20, 320) && counts(second) == (305, 305))
}

fn both_forget<R: Wait>(rt: &R, node: &Node, passes: &mut [Pass]) -> Option<bool> {
    let (first, others) = passes.split_first_mut()?;
    forgets(rt, node, first, others.first_mut()?)
}

/// Whether that comes of a new node, and how many entries it has, which both passes close.
fn forgets_and_closes<R: Wait>(rt: &R, alloc: Global) -> Option<(bool, usize)> {
    let (node, mut passes) = new_node(alloc, 10_000, 2)?;
    let forgets = both_forget(rt, &node, passes.as_mut_slice());
    let entries = closed(node, passes)?;
    Some((forgets?, entries))
}

#[test]
fn passes_that_let_go_close(rt: HostRuntime) {
    assert!(rt; forgets_and_closes(&rt, rt.alloc()) == Some((true, 625)));
}

/// A node of one seat, and its pass, which has made so many calls.
fn with_takes<R: Wait>(rt: &R, alloc: Global, calls: u32) -> Option<(Node, Pass)> {
    let (node, mut passes) = new_node(alloc, 10_000, 1)?;
    let mut pass = passes.pop()?;
    match takes(rt, &node, &mut pass, calls) {
        Some(()) => Some((node, pass)),
        None => None,
    }
}

/// A pass that made so many calls and let them go, and then made its last one, and what becomes of
/// a close of another node with it: that one's own pass made 301 calls.
struct Strange {
    what: &'static str,
    calls: u32,
    spawns: bool,
    end: Result<usize, CloseRule>,
}

static STRANGE: [Strange; 3] = [
    Strange {
        what: "the last call is another one",
        calls: 300,
        spawns: true,
        end: Err(CloseRule::Mismatch),
    },
    Strange {
        what: "there are fewer calls",
        calls: 299,
        spawns: false,
        end: Err(CloseRule::Mismatch),
    },
    Strange {
        what: "whose calls were let go isn't told",
        calls: 300,
        spawns: false,
        end: Ok(301),
    },
];

fn last_call(spawns: bool) -> Event {
    if spawns { Event::Spawn } else { Event::Take(1) }
}

fn strange_pass<R: Wait>(rt: &R, alloc: Global, row: &Strange) -> Option<Pass> {
    let (node, mut pass) = with_takes(rt, alloc, row.calls)?;
    pass.let_go();
    is_done(rt, &node, &mut pass, last_call(row.spawns));
    Some(pass)
}

fn end_of(end: &Result<Closed, CloseFault>) -> Result<usize, CloseRule> {
    match end {
        Ok(closed) => Ok(closed.core.audit().len()),
        Err(fault) => Err(fault.rule),
    }
}

/// What becomes of the close.
fn ends_with<R: Wait>(rt: &R, alloc: Global, row: &Strange) -> Option<Result<usize, CloseRule>> {
    let passes = alone(alloc, strange_pass(rt, alloc, row))?;
    match with_takes(rt, alloc, 301) {
        Some((node, _own)) => Some(end_of(&node.close(passes))),
        None => None,
    }
}

#[test]
fn compares_what_is_kept(rt: HostRuntime) {
    for row in &STRANGE {
        assert!(rt;
            ends_with(&rt, rt.alloc(), row) == Some(row.end),
            "{}",
            row.what
        );
    }
}
