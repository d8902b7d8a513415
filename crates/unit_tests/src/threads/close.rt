//! Nodes that aren't closed.
use super::{closed, fault_of, is_done, new_node};
use node_threads::*;
use policy_audit::Event;
use std::alloc::Global;
use std::sync::Wait;

/// Why a node wasn't closed; with one pass more it is.
fn closed_with(fault: CloseFault, pass: Pass) -> Option<CloseRule> {
    let CloseFault {
        rule,
        node,
        mut passes,
    } = fault;
    passes.push(pass).ok()?;
    match closed(node, passes) {
        Some(_) => Some(rule),
        None => None,
    }
}

/// The fault of a close with one pass more.
fn unclosed(node: Node, mut passes: Vec<Pass>, pass: Pass) -> Option<CloseFault> {
    passes.push(pass).ok()?;
    node.close(passes).err()
}

/// Two seats: the pass of seat 0 alone, and then both.
fn lacks_a_pass(alloc: Global) -> Option<CloseRule> {
    let (node, mut passes) = new_node(alloc, 100, 2)?;
    let second = passes.pop()?;
    match node.close(passes) {
        Ok(_) => None,
        Err(fault) => closed_with(fault, second),
    }
}

/// A pass that has spawned a process on a node of its own.
fn stranger<R: Wait>(rt: &R, alloc: Global) -> Option<Pass> {
    let (node, mut passes) = new_node(alloc, 100, 1)?;
    let has_spawned = match passes.first_mut() {
        Some(pass) => is_done(rt, &node, pass, Event::Spawn),
        None => false,
    };
    if has_spawned { passes.pop() } else { None }
}

/// What a strange pass is told by a new node, and why the node isn't closed with both passes, nor
/// with the strange one.
type Meeting = (Option<CallFault>, CloseRule, CloseRule);

fn meets_a_stranger<R: Wait>(rt: &R, alloc: Global) -> Option<Meeting> {
    let mut strange = stranger(rt, alloc)?;
    let (node, passes) = new_node(alloc, 100, 1)?;
    let told = fault_of(rt, &node, &mut strange, Event::Spawn);
    match unclosed(node, passes, strange) {
        Some(fault) => Some((told, fault.rule, strange_alone(fault)?)),
        None => None,
    }
}

/// Why the node isn't closed with the strange pass, its last; with its own pass it is.
fn strange_alone(fault: CloseFault) -> Option<CloseRule> {
    let CloseFault {
        rule: _,
        node,
        mut passes,
    } = fault;
    let own = take_own(&mut passes)?;
    match node.close(passes) {
        Ok(_) => None,
        Err(fault) => alone(fault, own),
    }
}

/// Takes away the first of two passes.
fn take_own(passes: &mut Vec<Pass>) -> Option<Pass> {
    if passes.len() == 2 {
        Some(passes.swap_remove(0))
    } else {
        None
    }
}

/// Why a node wasn't closed; with this pass alone it is.
fn alone(mut fault: CloseFault, pass: Pass) -> Option<CloseRule> {
    fault.passes.clear();
    closed_with(fault, pass)
}

#[test]
fn close_refusals(rt: HostRuntime) {
    assert!(rt; lacks_a_pass(rt.alloc()) == Some(CloseRule::MissingPass));
    let wanted = (
        Some(CallFault::StrangePass),
        CloseRule::DoublePass,
        CloseRule::Mismatch,
    );
    assert!(rt; meets_a_stranger(&rt, rt.alloc()) == Some(wanted));
}
