//! What lies behind the lock.
ghost use Rattle.std.specs.Prelude.{◌≡◌, ◌+◌, ◌<◌, ◌≤◌, ◌↔◌, ◌^◌, ◌++◌, ◌∷◌, [], false, replicate, length, vec_len, vec_capacity, Some, IsTrue, IsSome, IfOk, IfErr, IfSome, IfNone, OnOk, OnErr, OnSome};
ghost use Rattle.node_core.specs.declared.fault.CoreFault.TheVariants as core_faults;
ghost use Rattle.node_threads.specs.declared.fault.CallFault.TheVariants as faults;
ghost use Rattle.policy_audit.specs.History.{audited};
ghost use Rattle.policy_audit.specs.Pages.{page_size, IsPageBehind};
ghost use Rattle.policy_audit.specs.Policy.{verdict, after, is_full, next_number};
ghost use Rattle.node_core.specs.Recorded.{IsSpare};
ghost use Rattle.node_threads.specs.Calls.{entries_of, last_reply};
ghost use Rattle.node_threads.specs.Room.{IsSound, recorded, room_of};
ghost use Rattle.node_threads.specs.Applied.{Fits, Applied, IsKept, room_after};

use crate::fault::CallFault;
use crate::pass::{Call, Pass};
use crate::resting::Resting;
use dist_types::{OutOfMemory, TryClone};
use node_core::{CoreFault, NodeCore};
use policy_audit::{Entry, Event, Page, Reply, Rule, Verdict};
use std::alloc::Global;
use std::marker::Model;

/// So often in a row memory is wanting for events until it is taken to be so for good.
const LASTING: u32 = 2;

/// A node, and how many entries each seat has.
pub struct Shared {
    alloc: Global,
    core: NodeCore,
    counts: Vec<u32>,
    /// The writers of all links are to hang up. No contract rests on it.
    stuck: bool,
    /// How often in a row memory was wanting for an event, those of monitors aside. No contract
    /// rests on it.
    wants: u32,
    /// The number of the last entry that is news, or 0. No contract rests on it.
    last_news: u32,
    /// Whether the last entry owes no link a frame, and ends none. No contract rests on it.
    quiet: bool,
    /// Which writers rest. No contract rests on it.
    resting: Resting,
}

impl Drop for Shared {
    fn drop(self) {
        let Shared {
            alloc: _,
            core: _,
            counts: _,
            stuck: _,
            wants: _,
            last_news: _,
            quiet: _,
            resting: _,
        } = self;
    }
}

impl Model for Shared {
    ghost use Rattle.node_threads.specs.Room.{Room, IsSound, room_of};

    ghost Value = { Room };

    ghost view = { λ shared. room_of shared.core shared.counts.items };

    ghost invariant = { λ shared. IsSound (room_of shared.core shared.counts.items) };
}

impl Shared {
    /// A node that has seen nothing, for that many seats.
    pub(crate) fn new(alloc: Global, core: NodeCore, seats: u32) -> Result<Shared, OutOfMemory>
        requires unused { core.history.entries ≡ [] }
        requires some { 0 < seats }
        requires few { seats ≤ 256 }
        ensures { IfOk result (λ shared. shared ≡ room_of core (replicate seats 0)) }
    {
        let counts = vec![in alloc; 0u32; seats as usize]?;
        Ok(Shared {
            alloc,
            core,
            counts,
            stuck: false,
            wants: 0,
            last_news: 0,
            quiet: true,
            resting: Resting::NOBODY,
        })
    }

    /// The node, to be read while the lock is held.
    pub fn core(&self) -> &NodeCore
        ensures history { result.now.history ≡ self.now.history }
        ensures forgotten { result.now.forgotten ≡ self.now.forgotten }
        ensures sound { IsSound self.now }
    {
        &self.core
    }

    /// Hands out the oldest page of the audit, under a lock that the caller has taken: the 256
    /// entries behind those that were handed out before. Nothing else changes. `None` for the last
    /// page, and while a monitor has still to be told of one of the entries.
    pub fn forget(&mut self) -> Option<Page>
        ensures same { (self.new.history ≡ self.old.history) × (self.new.counts ≡ self.old.counts) }
        ensures page { IfSome result (λ page.
            IsPageBehind self.old.forgotten (audited self.old.history.entries) page
            × (self.new.forgotten ≡ self.old.forgotten + page_size)) }
        ensures spare { OnSome result (IsSpare (recorded self.old)) }
        ensures none { IfNone result ((self.new ≡ self.old) × (IsSpare (recorded self.old) → ⊥)) }
    {
        self.core.forget()
    }

    /// Whether memory was wanting for an event, and again for the next one, after the node had let
    /// go what it can. Who only watches can do without an answer: events of monitors don't count.
    pub fn wants_memory(&self) -> bool {
        self.wants >= LASTING
    }

    /// Lets go what the node can do without.
    pub fn let_go(&mut self)
        ensures { self.new ≡ self.old }
    {
        self.core.let_go();
    }

    /// Notes that memory was wanting for an event, which may count, and lets go what the node can
    /// do without.
    fn note_want(&mut self, counts: bool) -> CallFault
        ensures fault { result ≡ faults.Core core_faults.OutOfMemory }
        ensures same { self.new ≡ self.old }
    {
        self.let_go();
        if counts {
            self.wants = LASTING.min(self.wants.saturating_add(1));
        }
        CallFault::Core(CoreFault::OutOfMemory)
    }

    pub(crate) fn is_stuck(&self) -> bool {
        self.stuck
    }

    pub(crate) fn set_stuck(&mut self)
        ensures { self.new ≡ self.old }
    {
        self.stuck = true;
    }

    /// Whether the writer of this link has something to do: frames to take, or to end.
    pub(crate) fn calls_writer(&self, link: u32) -> bool {
        self.stuck || self.core.is_full() || self.core.waiting(link) != Some(0)
    }

    /// Whether entries were handed out.
    pub(crate) fn has_forgotten(&self) -> bool {
        self.core.audit().forgotten() > 0
    }

    /// The writer of this link rests from now on, at a place of its own if there is one.
    pub(crate) fn rest(&mut self, link: u32) -> Option<usize>
        ensures { self.new ≡ self.old }
    {
        self.resting.enter(link)
    }

    /// The writer at this place rests no more.
    pub(crate) fn rise(&mut self, place: Option<usize>)
        ensures { self.new ≡ self.old }
    {
        self.resting.leave(place);
    }

    /// Whether a writer that rests has something to do behind the last entry.
    pub(crate) fn calls_writers(&self) -> bool {
        !self.resting.is_empty() && (self.core.is_full() || !self.quiet) && self.calls_resting()
    }

    /// Whether a writer that rests has something to do.
    fn calls_resting(&self) -> bool {
        for resting in self.resting.links() {
            if let Some(link) = resting
                && self.calls_writer(*link)
            {
                return true;
            }
        }
        false
    }

    /// The number of the last entry that is news to who watches the node: rows changed, or a peer
    /// came or went. 0 if there is none.
    pub fn last_news(&self) -> u32 {
        self.last_news
    }

    /// Whether the last entry is news.
    pub(crate) fn is_last_news(&self) -> bool {
        self.last_news as usize == self.core.audit().len()
    }

    /// Notes that there was memory for the last event, and whom its entry may concern.
    fn note_entry(&mut self, number: u32)
        ensures { self.new ≡ self.old }
    {
        if self.wants < LASTING {
            self.wants = 0;
        }
        let Some(entry) = self.core.audit().get(number) else {
            return;
        };
        self.quiet = is_quiet(&entry.event);
        if is_news(&self.core, entry) {
            self.last_news = number;
        }
    }

    /// How many seats there are.
    pub(crate) fn seats(&self) -> u32
        ensures count { result ≡ length self.now.counts }
        ensures sound { IsSound self.now }
    {
        self.counts.len() as u32
    }

    pub(crate) fn into_core(self) -> NodeCore
        ensures { result ≡ recorded self }
    {
        let Shared {
            alloc: _,
            core,
            counts: _,
            stuck: _,
            wants: _,
            last_news: _,
            quiet: _,
            resting: _,
        } = self;
        core
    }

    /// Whether a call with the pass would be taken: its seat is one of the node's, which has as
    /// many entries of it as the pass has calls.
    pub fn knows(&self, pass: &Pass) -> bool
        ensures { IsTrue result ↔ Fits self.now pass.now }
    {
        match self.counts.get(pass.seat as usize) {
            Some(count) => *count == pass.count(),
            None => false,
        }
    }

    /// Applies an event for the seat of the pass, and leaves the answer in the pass. All that grows
    /// has grown before the step.
    pub(crate) fn enter(&mut self, pass: &mut Pass, event: Event) -> Result<(), CallFault>
        ensures ok { OnOk result (IfSome (last_reply pass.new.calls) (λ reply.
            Applied self.old pass.old event (Ok reply) self.new pass.new)) }
        ensures replied { OnOk result (IsSome (last_reply pass.new.calls)) }
        ensures kept { OnOk result (pass.new.gone < length pass.new.calls) }
        ensures refused { IfErr result (λ fault.
            Applied self.old pass.old event (Err fault) self.new pass.new) }
        ensures found { IsSound self.old }
        ensures left { IsSound self.new }
    {
        if !self.knows(pass) {
            drop(event);
            return Err(CallFault::StrangePass);
        }
        if self.core.is_full() {
            drop(event);
            return Err(CallFault::Core(CoreFault::Refused(Rule::EntriesFull)));
        }
        let counts = !is_watching(&event);
        let Ok(copy) = room_and_copy(self.alloc, &mut pass.calls, &event) else {
            drop(event);
            return Err(self.note_want(counts));
        };
        let Ok((number, verdict)) = self.advance(pass.seat, event) else {
            drop(copy);
            return Err(self.note_want(counts));
        };
        let call = Call {
            number,
            event: copy,
            verdict,
        };
        keep(&mut pass.calls, call)
    }

    /// One step for a seat, which is counted: the number of the entry, and its verdict.
    fn advance(&mut self, seat: u32, event: Event) -> Result<(u32, Verdict), OutOfMemory>
        requires seat { seat < length self.old.counts }
        requires free { is_full self.old.history ≡ false }
        ensures number { IfOk result (λ entry. entry.0 ≡ next_number self.old.history) }
        ensures verdict { IfOk result (λ entry. entry.1 ≡ verdict self.old.history seat event) }
        ensures few { OnOk result (entries_of seat (audited self.old.history.entries) + 1
            < 2 ^ 32) }
        ensures room { OnOk result (self.new ≡ room_after self.old seat event) }
        ensures memory { OnErr result (self.new ≡ self.old) }
        ensures left { IsSound self.new }
    {
        let verdict = judge(&mut self.core, seat, event)?;
        let number = self.core.audit().len() as u32;
        self.counts[seat as usize] += 1;
        self.note_entry(number);
        Ok((number, verdict))
    }
}

/// Whether the last entry is news to who watches the node:
/// it changed rows, or a peer may have come or gone with it.
fn is_news(core: &NodeCore, entry: &Entry) -> bool {
    if entry.has_changes() {
        return true;
    }
    let Verdict::Accepted(reply) = &entry.verdict else {
        return false;
    };
    match &entry.event {
        Event::Frame(link, _) => matches!(reply, Reply::Up { .. }) || core.waiting(*link).is_none(),
        Event::Lost(_) | Event::Disconnect(_) | Event::Restart => true,
        // Too many frames may wait for a link then.
        Event::StartScope(_) | Event::StopScope(_) => true,
        _ => false,
    }
}

/// Whether an event owes no link a frame, and ends none.
fn is_quiet(event: &Event) -> bool {
    matches!(
        event,
        Event::Take(_)
            | Event::Spawn
            | Event::Members(..)
            | Event::LocalMembers(..)
            | Event::Groups(_)
            | Event::LocalGroups(_)
            | Event::Monitor(..)
            | Event::MonitorScope(_)
            | Event::Demonitor(_)
            | Event::Updates(_)
    )
}

/// Whether an event is one of monitors.
fn is_watching(event: &Event) -> bool {
    matches!(
        event,
        Event::Monitor(..) | Event::MonitorScope(_) | Event::Demonitor(_) | Event::Updates(_)
    )
}

/// Makes room for a call, and a copy of its event.
fn room_and_copy(alloc: Global, calls: &mut Vec<Call>, event: &Event) -> Result<Event, OutOfMemory>
    ensures copy { IfOk result (λ copy. copy ≡ event.now) }
    ensures room { OnOk result (vec_len calls.new < vec_capacity calls.new) }
    ensures same { calls.new.items ≡ calls.old.items }
{
    calls.reserve(1)?;
    event.try_clone(alloc)
}

/// Keeps a call, in the room that there is, and tells whether it was refused.
fn keep(calls: &mut Vec<Call>, call: Call) -> Result<(), CallFault>
    requires { vec_len calls.old < vec_capacity calls.old }
    ensures calls { calls.new.items ≡ calls.old.items ++ call ∷ [] }
    ensures answer { IsKept call.verdict result }
{
    let answer = match &call.verdict {
        Verdict::Accepted(_) => Ok(()),
        Verdict::Refused(rule) => Err(CallFault::Core(CoreFault::Refused(*rule))),
    };
    calls.push_reserved(call);
    answer
}

/// The verdict of one step.
#[tactic(auto, unfolding(node_core::specs::Step::IsStepped))]
fn judge(core: &mut NodeCore, seat: u32, event: Event) -> Result<Verdict, OutOfMemory>
    ensures ok { IfOk result (λ v. v ≡ verdict core.old.history seat event) }
    ensures entered { OnOk result (core.new.history ≡ after core.old.history seat event) }
    ensures memory { OnErr result (core.new.history ≡ core.old.history) }
    ensures forgotten { core.new.forgotten ≡ core.old.forgotten }
{
    match core.step(seat, event) {
        Ok(reply) => Ok(Verdict::Accepted(reply)),
        Err(CoreFault::Refused(rule)) => Ok(Verdict::Refused(rule)),
        Err(CoreFault::OutOfMemory) => Err(OutOfMemory),
    }
}
