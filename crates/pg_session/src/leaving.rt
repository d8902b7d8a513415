//! The end of what a connection had.
ghost use Rattle.std.specs.Prelude.{◌≡◌, ◌⊎◌, true};
ghost use Rattle.pg_session.specs.Asked.{ends, is_end};
ghost use Rattle.pg_session.specs.Processes.{spawned};
ghost use Rattle.pg_session.specs.Calls.{GoesOnBy, IsCalled, may_call};
ghost use Rattle.policy_audit.specs.declared.event.Event.TheVariants as events;

use crate::caller::Caller;
use dist_types::{Pid, TryClone};
use node_threads::Node;
use policy_audit::Event;
use std::alloc::Global;
use std::sync::Wait;

/// How often a call is tried that ends what a connection had.
const TRIES: u32 = 64;

/// Makes a process exit, unless memory is wanting for long.
pub fn end_process<R: Wait>(caller: &mut Caller, rt: &R, alloc: Global, node: &Node, pid: &Pid)
    requires { may_call (spawned caller.old.calls) (events.Exit pid.now) ≡ true }
    ensures { GoesOnBy is_end caller.old caller.new }
{
    for _ in 0..TRIES {
        if try_exit(caller, rt, alloc, node, pid) {
            return;
        }
    }
}

/// Makes a process exit: whether the call was made. Where memory is wanting, it wasn't.
fn try_exit<R: Wait>(caller: &mut Caller, rt: &R, alloc: Global, node: &Node, pid: &Pid) -> bool
    requires { may_call (spawned caller.old.calls) (events.Exit pid.now) ≡ true }
    ensures { IsCalled caller.old (events.Exit pid.now) caller.new ⊎ (caller.new ≡ caller.old) }
{
    match pid.try_clone(alloc) {
        Ok(copy) => caller.end(rt, node, Event::Exit(copy)),
        Err(_) => false,
    }
}

/// Ends a monitor, unless memory is wanting for long.
pub fn end_watch<R: Wait>(caller: &mut Caller, rt: &R, node: &Node, number: u32)
    ensures { GoesOnBy (ends number) caller.old caller.new }
{
    for _ in 0..TRIES {
        if caller.end(rt, node, Event::Demonitor(number)) {
            return;
        }
    }
}
