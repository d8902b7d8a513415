//! The right of a connection to call the node.
ghost use Rattle.std.specs.Prelude.{◌≡◌, ◌⊎◌, ◌↔◌, ◌++◌, true, length, map, IsTrue, IfErr, IfOk, OnOk, Result, Ok, Err};
ghost use Rattle.std.specs.List.{flat_map};
ghost use Rattle.policy_audit.specs.declared.event.Event.TheVariants.{Updates};
ghost use Rattle.policy_audit.specs.declared.reply.Reply.{Reply};
ghost use Rattle.node_core.specs.declared.fault.CoreFault.TheVariants.{Refused};
ghost use Rattle.node_threads.specs.declared.fault.CallFault.{CallFault};
ghost use Rattle.node_threads.specs.declared.fault.CallFault.TheVariants.{Core};
ghost use Rattle.node_threads.specs.Applied.{Called, Fits, answer_now};
ghost use Rattle.pg_session.specs.Processes.{spawned};
ghost use Rattle.pg_session.specs.Calls.{IsCalled, AreConnections, call_line, stranger_line, may_call};
ghost use Rattle.pg_session.specs.Outcomes.{IsOutcome, CameFrom, fetched_by, lack_by, lack_of};
ghost use Rattle.pg_session.specs.Notices.{change, notice_line, fetched, Known, Tells};

use dist_types::{OutOfMemory, Pid, TryClone};
use node_core::CoreFault;
use node_threads::{CallFault, Node, Pass, Shared};
use pg_text::{put_accepted, put_told, put_unanswered, put_word};
use policy_audit::{Event, Reply, Rule, Update};
use std::alloc::Global;
use std::marker::Model;
use std::sync::Wait;

/// So many calls a pass keeps at least, before it lets them go.
const KEPT: usize = 256;

/// A pass that makes the calls of one connection: none that speaks for a link or ends a life of the
/// node, and none that makes processes exit, join or leave but those that it has spawned.
pub struct Caller {
    pass: Pass,
}

impl Drop for Caller {
    fn drop(self) {
        let Caller { pass: _ } = self;
    }
}

/// What was wanting for a call that made no entry.
#[derive(Clone, Copy, Debug, PartialEq, Eq)]
pub enum Lack {
    /// The audit has no room.
    Room,
    Memory,
}

/// What a call has come to.
#[derive(Drop)]
pub enum Outcome {
    /// It was not accepted, for want of that, if of any.
    Refused(Option<Lack>),
    Done,
    Process(Pid),
    /// A monitor, by the number of its entry.
    Monitor(u32),
}

impl Outcome {
    /// What was wanting for the call.
    pub fn lack(&self) -> Option<Lack>
        ensures { result ≡ lack_of self.now }
    {
        match self {
            Outcome::Refused(lack) => *lack,
            _ => None,
        }
    }
}

/// What has become of a monitor whose updates were asked for.
#[derive(Clone, Copy, Debug, PartialEq, Eq)]
pub enum Fetched {
    Told,
    /// It has ended.
    Over,
    /// The node has no room for an answer now.
    NotNow,
}

impl Model for Caller {
    ghost use Rattle.node_threads.specs.Calls.{Record};
    ghost use Rattle.pg_session.specs.Calls.{AreConnections};

    ghost Value = { Record };

    ghost view = { λ caller. caller.pass };

    ghost invariant = { λ caller. AreConnections caller.pass.calls };
}

impl Caller {
    /// A pass that has made calls before comes back.
    pub fn new(pass: Pass) -> Result<Caller, Pass>
        ensures ok { IfOk result (λ caller. caller ≡ pass) }
        ensures refused { IfErr result (λ back. back ≡ pass) }
    {
        if pass.count() == 0 {
            Ok(Caller { pass })
        } else {
            Err(pass)
        }
    }

    /// How many of its calls are entries.
    pub fn calls(&self) -> usize
        ensures { result ≡ length self.now.calls }
    {
        self.pass.count() as usize
    }

    /// Whether it keeps many of its calls.
    pub fn keeps_many(&self) -> bool {
        self.pass.calls().len() >= KEPT
    }

    /// Lets the calls go that its pass keeps, where the node doesn't keep all entries either.
    pub fn let_go(&mut self)
        ensures { self.new ≡ record self.old { gone = length self.old.calls } }
    {
        self.pass.let_go();
    }

    /// The pass, whose calls a connection may make, all of them.
    pub fn into_pass(self) -> Pass
        ensures same { result ≡ self }
        ensures connections { AreConnections result.calls }
    {
        let Caller { pass } = self;
        pass
    }

    /// Whether the node would take a call.
    pub fn is_known_to(&self, shared: &Shared) -> bool
        ensures { IsTrue result ↔ Fits shared.now self.now }
    {
        shared.knows(&self.pass)
    }

    /// Makes a call, and adds the line of its answer. The outcome is told also where there is no
    /// memory for the line.
    pub fn call<R: Wait>(
        &mut self,
        rt: &R,
        node: &Node,
        event: Event,
        outcome: &mut Outcome,
        out: &mut Vec<u8>,
    ) -> Result<(), OutOfMemory>
        requires { may_call (spawned self.old.calls) event ≡ true }
        ensures called { IsCalled self.old event self.new }
        ensures ok { OnOk result ((answer : Result Reply CallFault)
            × Called self.old event answer self.new
            × IsOutcome answer outcome.new × (out.new.items ≡ out.old.items ++ call_line answer)) }
        ensures own { CameFrom (spawned self.old.calls) outcome.old
            → CameFrom (spawned self.new.calls) outcome.new }
    {
        let answer = self.pass.call(node, rt, event);
        put_answer(*out.allocator(), answer, outcome, out)
    }

    /// Asks what a monitor has not told yet, and adds a line for each update.
    pub fn fetch<R: Wait>(
        &mut self,
        rt: &R,
        node: &Node,
        number: u32,
        out: &mut Vec<u8>,
    ) -> Result<Fetched, OutOfMemory>
        ensures called { IsCalled self.old (Updates number) self.new }
        ensures told { OnOk result ((known : Known)
            → Tells self.old known out.old.items self.new known out.new.items) }
        ensures fetched { IfOk result (λ fetched. (answer : Result Reply CallFault)
            × Called self.old (Updates number) answer self.new × (fetched ≡ fetched_by answer)) }
    {
        let answer = self.pass.call(node, rt, Event::Updates(number));
        put_fetched(*out.allocator(), number, answer, out)
    }

    /// A call that ends something: whether it was made. Where memory is wanting, it wasn't.
    pub fn end<R: Wait>(&mut self, rt: &R, node: &Node, event: Event) -> bool
        requires { may_call (spawned self.old.calls) event ≡ true }
        ensures { IsCalled self.old event self.new }
    {
        was_made(self.pass.call(node, rt, event))
    }
}

/// Whether a call that was answered so was made.
fn was_made(answer: Result<&Reply, CallFault>) -> bool {
    match answer {
        Err(CallFault::Core(CoreFault::OutOfMemory)) => false,
        _ => true,
    }
}

/// Tells what a call has come to, and adds the line of its answer.
fn put_answer(
    alloc: Global,
    answer: Result<&Reply, CallFault>,
    outcome: &mut Outcome,
    out: &mut Vec<u8>,
) -> Result<(), OutOfMemory>
    ensures ok { OnOk result (IsOutcome (answer_now answer.entry) outcome.new
        × (out.new.items ≡ out.old.items ++ call_line (answer_now answer.entry))) }
    ensures came { IsOutcome (answer_now answer.entry) outcome.new ⊎ (outcome.new ≡ outcome.old) }
{
    match answer {
        Ok(reply) => {
            *outcome = outcome_of(alloc, reply)?;
            put_accepted(alloc, reply, out)
        }
        Err(fault) => {
            *outcome = Outcome::Refused(lack_by(fault));
            put_call_fault(fault, out)
        }
    }
}

fn outcome_of(alloc: Global, reply: &Reply) -> Result<Outcome, OutOfMemory>
    ensures { IfOk result (λ outcome. IsOutcome (Ok reply.now) outcome) }
{
    Ok(match reply {
        Reply::Pid(pid) => Outcome::Process(pid.try_clone(alloc)?),
        Reply::Ref { number, .. } | Reply::ScopeRef { number, .. } => Outcome::Monitor(*number),
        _ => Outcome::Done,
    })
}

/// What was wanting for a call that was answered by this fault.
fn lack_by(fault: CallFault) -> Option<Lack>
    ensures { result ≡ lack_by fault }
{
    match fault {
        CallFault::StrangePass => None,
        CallFault::Core(CoreFault::OutOfMemory) => Some(Lack::Memory),
        CallFault::Core(CoreFault::Refused(rule)) => {
            if rule == Rule::EntriesFull {
                Some(Lack::Room)
            } else {
                None
            }
        }
    }
}

/// Adds the line for a call that was not accepted.
fn put_call_fault(fault: CallFault, out: &mut Vec<u8>) -> Result<(), OutOfMemory>
    ensures { OnOk result (out.new.items ≡ out.old.items ++ call_line (Err fault)) }
{
    match fault {
        CallFault::Core(fault) => put_unanswered(fault, out),
        CallFault::StrangePass => put_stranger(out),
    }
}

/// Adds the line for a pass that the node doesn't know.
pub fn put_stranger(out: &mut Vec<u8>) -> Result<(), OutOfMemory>
    ensures { OnOk result (out.new.items ≡ out.old.items ++ stranger_line) }
{
    put_word("fault the pass isn't of this node\n", out)
}

/// Adds a line for each update that a monitor was told, if it was.
fn put_fetched(
    alloc: Global,
    number: u32,
    answer: Result<&Reply, CallFault>,
    out: &mut Vec<u8>,
) -> Result<Fetched, OutOfMemory>
    ensures lines { OnOk result (out.new.items ≡ out.old.items
        ++ flat_map notice_line (fetched number (answer_now answer.entry))) }
    ensures fetched { IfOk result (λ fetched. fetched ≡ fetched_by (answer_now answer.entry)) }
{
    match answer {
        Ok(Reply::Updates(updates)) => {
            put_updates(alloc, number, updates.as_slice(), out)?;
            Ok(Fetched::Told)
        }
        Err(CallFault::Core(CoreFault::Refused(rule))) => Ok(fetched_behind(rule)),
        _ => Ok(Fetched::NotNow),
    }
}

/// What has become of a monitor whose updates were asked for, where this rule was broken.
fn fetched_behind(rule: Rule) -> Fetched
    ensures { result ≡ fetched_by (Err (Core (Refused rule))) }
{
    if rule == Rule::NoMonitor {
        Fetched::Over
    } else {
        Fetched::NotNow
    }
}

/// Adds a line for each update of a monitor.
fn put_updates(
    alloc: Global,
    number: u32,
    updates: &[Update],
    out: &mut Vec<u8>,
) -> Result<(), OutOfMemory>
    ensures { OnOk result (out.new.items ≡ out.old.items
        ++ flat_map notice_line (map (change number) updates.now)) }
{
    for update in updates {
        put_word("! ", out)?;
        put_told(alloc, number, update, out)?;
        put_word("\n", out)?;
    }
    Ok(())
}
