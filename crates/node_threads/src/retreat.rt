//! What follows on the answer to a `Lost`.
ghost use Rattle.std.specs.Prelude.{◌≡◌, ◌+◌, ◌<◌, List, Err};
ghost use Rattle.node_core.specs.declared.fault.CoreFault.TheVariants as core_faults;
ghost use Rattle.node_threads.specs.declared.fault.CallFault.TheVariants as faults;
ghost use Rattle.node_threads.specs.declared.retreat.RetreatStep.TheVariants as steps;
ghost use Rattle.node_threads.specs.Applied.{answer_now};
ghost use Rattle.node_threads.specs.declared.pass.Call.{Call};
ghost use Rattle.node_threads.specs.Retreat.{tries_after, step_after, GivesUp, Leaves};

use crate::ends::Gate;
use crate::fault::CallFault;
use crate::pass::Pass;
use crate::work::LinkWork;
use node_core::CoreFault;
use policy_audit::{Event, Reply, Rule};
use std::marker::Model;
use std::sync::Wait;

/// How often a `Lost` is called while memory is wanting.
const TRIES: u32 = 64;

/// What follows on an answer to a `Lost`.
#[derive(Clone, Copy, Debug, PartialEq, Eq)]
pub enum RetreatStep {
    /// Memory is wanting: the `Lost` is called again.
    Again,
    /// Memory was wanting 64 times.
    Stuck,
    /// The audit is full.
    Full,
    Settled,
}

/// Counts the wants of memory while a link is given up. Contracts see it as their number.
#[derive(Debug, Drop)]
pub struct Retreat {
    tries: u32,
}

impl Model for Retreat {
    ghost use Rattle.std.specs.Prelude.{ℕ, ◌≤◌};

    ghost Value = { ℕ };

    ghost view = { λ retreat. retreat.tries };

    ghost invariant = { λ retreat. retreat.tries ≤ 64 };
}

impl Retreat {
    /// No want of memory so far.
    pub fn new() -> Retreat
        ensures { result ≡ 0 }
    {
        Retreat { tries: 0 }
    }

    /// `Again` for the first 63 wants of memory and `Stuck` from the 64th on, `Full` for a full
    /// audit, and `Settled` for every other answer.
    pub fn next(&mut self, answer: &Result<&Reply, CallFault>) -> RetreatStep
        ensures tries { self.new ≡ tries_after self.old (answer_now answer.now) }
        ensures step { result ≡ step_after self.old (answer_now answer.now) }
        ensures again { result ≡ steps.Again
            → (answer_now answer.now ≡ Err (faults.Core core_faults.OutOfMemory))
            × (self.new ≡ self.old + 1) × (self.new < 64) }
    {
        match answer {
            Err(CallFault::Core(CoreFault::OutOfMemory)) => {
                self.tries = TRIES.min(self.tries + 1);
                if self.tries < TRIES {
                    RetreatStep::Again
                } else {
                    RetreatStep::Stuck
                }
            }
            Err(CallFault::Core(CoreFault::Refused(rule))) if *rule == Rule::EntriesFull => {
                RetreatStep::Full
            }
            _ => RetreatStep::Settled,
        }
    }
}

/// Calls `Lost` until it is settled, and tells the gate of each call. Where memory is wanting to
/// the end, all writers of the node are told.
fn lose<R: Wait, G: Gate>(work: &LinkWork<'_, R>, pass: &mut Pass, gate: &G) -> RetreatStep
    ensures { (lost : List Call) × GivesUp work.now.link pass.old lost result pass.new }
{
    let mut retreat = Retreat::new();
    loop {
        let step = retreat.next(&pass.call(work.node, work.rt, Event::Lost(work.link)));
        gate.answered(work.link);
        match step {
            RetreatStep::Again => {}
            RetreatStep::Stuck => {
                work.node.mark_stuck(work.rt);
                return RetreatStep::Stuck;
            }
            step => return step,
        }
    }
}

/// Gives the link up, where its worker is to.
pub(crate) fn leave<R: Wait, G: Gate>(
    work: &LinkWork<'_, R>,
    pass: &mut Pass,
    gate: &G,
    gives_up: bool,
) -> RetreatStep
    ensures { (lost : List Call) × Leaves work.now.link gives_up pass.old lost result pass.new }
{
    if gives_up {
        lose(work, pass, gate)
    } else {
        RetreatStep::Settled
    }
}
