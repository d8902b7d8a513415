//! The end of a node.
ghost use Rattle.std.specs.Prelude.{◌≡◌, List, ◌<◌, ◌≤◌, ◌^◌, ◌↔◌, length, IsTrue, IsFalse, IfOk, IfErr, OnOk};
ghost use Rattle.std.specs.List.{All, AllByRecursion};
ghost use Rattle.std.specs.Option.{MatchOption};
ghost use Rattle.node_threads.specs.declared.pass.Call.{Call};
ghost use Rattle.node_threads.specs.Applied.{Fits};
ghost use Rattle.node_threads.specs.Calls.{call_of, kept_calls};
ghost use Rattle.node_threads.specs.Room.{IsSound, recorded};
ghost use Rattle.node_threads.specs.Closing.{passes_of, kept_entries, IsSettled, IsCloseFault, IsClosed, IsRefused, LacksOne, HasTwo, HaveEach, HaveOne, AreOwn, at_seat, AreLast, Precede};

use crate::node::Node;
use crate::pass::{Call, Pass};
use crate::shared::Shared;
use node_core::NodeCore;
use policy_audit::{Audit, Entry, equal_values};
use std::sync::Mutex;
use thiserror::Error;

/// Why a node isn't closed.
#[derive(Clone, Copy, Debug, PartialEq, Eq, Error)]
pub enum CloseRule {
    #[error("a seat has no pass here")]
    MissingPass,
    #[error("a seat has two passes here")]
    DoublePass,
    /// The pass isn't of this node.
    #[error("the calls of a pass aren't the entries of its seat")]
    Mismatch,
}

/// What lay behind a lock and isn't closed, with the passes that were handed in.
#[derive(Drop)]
pub struct Unsettled {
    pub rule: CloseRule,
    pub shared: Shared,
    pub passes: Vec<Pass>,
}

/// A node that isn't closed, with the passes that were handed in.
#[derive(Drop)]
pub struct CloseFault {
    pub rule: CloseRule,
    pub node: Node,
    pub passes: Vec<Pass>,
}

/// What is left of a node, with its passes.
#[derive(Drop)]
pub struct Closed {
    pub core: NodeCore,
    pub passes: Vec<Pass>,
}

impl Shared {
    /// Whether these are the passes of all seats, each once, each made as many calls as its seat
    /// has entries, and its calls are these, as far as it keeps them, and the audit keeps those. It
    /// takes no memory.
    pub fn settles(&self, passes: &[Pass]) -> Result<(), CloseRule>
        ensures ok { OnOk result (IsSettled self.now passes.now) }
        ensures refused { IfErr result (λ rule. IsCloseFault rule self.now passes.now) }
        ensures sound { IsSound self.now }
    {
        let seats = self.seats();
        if !have_each(passes, seats) {
            return Err(CloseRule::MissingPass);
        }
        if !have_one(passes, seats) {
            return Err(CloseRule::DoublePass);
        }
        if !self.are_own(passes) {
            return Err(CloseRule::Mismatch);
        }
        Ok(())
    }

    /// Whether each pass is that of its seat. It goes over the audit once.
    fn are_own(&self, passes: &[Pass]) -> bool
        requires each { HaveEach (length self.now.counts) passes.now }
        requires one { HaveOne (length self.now.counts) passes.now }
        ensures { IsTrue result ↔ AreOwn self.now passes.now }
    {
        let seats = self.seats();
        self.all_fit(passes) && are_last(self.core().audit(), seats, calls_by_seat(passes, seats))
    }

    /// Whether each pass is of one of the seats, and made as many calls as that seat has entries.
    fn all_fit(&self, passes: &[Pass]) -> bool
        ensures { IsTrue result ↔ All (Fits self.now) passes.now }
    {
        passes.iter().all(|pass| self.knows(pass))
    }

    /// Hands out the node, where these are the passes of all seats, each once, and each is that of
    /// its seat, as `settles` says. Else all comes back as it was. It takes no memory.
    pub fn close(self, passes: Vec<Pass>) -> Result<Closed, Unsettled>
        ensures ok { IfOk result (λ closed. (closed.core ≡ recorded self)
            × IsSettled self passes.items) }
        ensures refused { IfErr result (λ fault. IsCloseFault fault.rule self passes.items) }
        ensures passes { IfOk result (λ closed. closed.passes ≡ passes) }
        ensures back { IfErr result (λ fault. (fault.shared ≡ self) × (fault.passes ≡ passes)) }
        ensures sound { IsSound self }
    {
        if let Err(rule) = self.settles(passes.as_slice()) {
            return Err(Unsettled {
                rule,
                shared: self,
                passes,
            });
        }
        Ok(Closed {
            core: self.into_core(),
            passes,
        })
    }
}

impl Node {
    /// `Shared::close` of what lies behind the lock. Where passes don't settle it, node and passes
    /// come back.
    pub fn close(self, passes: Vec<Pass>) -> Result<Closed, CloseFault>
        ensures ok { IfOk result (λ closed. IsClosed closed.core closed.passes.items
            × (closed.passes ≡ passes)) }
        ensures refused { IfErr result (λ fault. IsRefused fault.rule fault.passes.items
            × (fault.passes ≡ passes)) }
    {
        let Node {
            shared,
            moved,
            news,
            writers,
        } = self;
        match shared.into_inner().close(passes) {
            Ok(closed) => Ok(closed),
            Err(
                Unsettled {
                    rule,
                    shared,
                    passes,
                },
            ) => Err(CloseFault {
                rule,
                node: Node {
                    shared: Mutex::new(shared),
                    moved,
                    news,
                    writers,
                },
                passes,
            }),
        }
    }
}

/// How many of the passes are of this seat.
fn count_passes(passes: &[Pass], seat: u32) -> usize
    ensures { result ≡ passes_of seat passes.now }
{
    passes.iter().filter(|pass| pass.seat() == seat).count()
}

/// Whether each of the seats has a pass.
fn have_each(passes: &[Pass], seats: u32) -> bool
    ensures yes { IsTrue result → HaveEach seats passes.now }
    ensures no { IsFalse result → LacksOne seats passes.now }
{
    for seat in 0..seats {
        if count_passes(passes, seat) == 0 {
            return false;
        }
    }
    true
}

/// Whether none of the seats has two passes.
fn have_one(passes: &[Pass], seats: u32) -> bool
    ensures yes { IsTrue result → HaveOne seats passes.now }
    ensures no { IsFalse result → HasTwo seats passes.now }
{
    for seat in 0..seats {
        if count_passes(passes, seat) > 1 {
            return false;
        }
    }
    true
}

/// The calls that each seat's pass keeps.
fn calls_by_seat(passes: &[Pass], seats: u32) -> [&[Call]; 256]
    requires seated { All (λ p. p.seat < seats) passes.now }
    requires one { HaveOne seats passes.now }
    requires few { seats ≤ 256 }
    ensures { All (λ p. at_seat p.seat result ≡ kept_calls p) passes.now }
{
    let none: &[Call] = &[];
    let mut calls = [none; 256];
    for pass in passes {
        calls[pass.seat() as usize] = pass.calls();
    }
    calls
}

/// Whether these are, seat by seat, the last calls that made the entries of the audit, as far as
/// both are kept. It goes from the last entry back.
fn are_last(audit: &Audit, seats: u32, mut left: [&[Call]; 256]) -> bool
    requires seated { AllByRecursion (λ e. e.seat < seats) audit.now.entries }
    requires few { seats ≤ 256 }
    requires fits { length audit.now.entries < 2 ^ 32 }
    ensures { IsTrue result ↔ AreLast seats left.entry
        (kept_entries audit.now.forgotten audit.now.entries) }
{
    let mut number = audit.len() as u32;
    while let Some(entry) = audit.get(number) {
        match earlier_calls(left[entry.seat as usize], entry) {
            Some(earlier) => left[entry.seat as usize] = earlier,
            None => return false,
        }
        number -= 1;
    }
    true
}

/// The calls before the one that made the entry, where it is the last of these, or there are none.
fn earlier_calls<'a>(calls: &'a [Call], entry: &Entry) -> Option<&'a [Call]>
    ensures { MatchOption result ((earlier : List Call) → Precede calls.now entry.now earlier
        → ⊥) (λ earlier. Precede calls.now entry.now earlier.now) }
{
    match calls.split_last() {
        None => Some(calls),
        Some((call, earlier)) if is_call_of(call, entry) => Some(earlier),
        Some(_) => None,
    }
}

/// Whether this is the call that made the entry.
fn is_call_of(call: &Call, entry: &Entry) -> bool
    ensures { IsTrue result ↔ (call.now ≡ call_of entry.now) }
{
    equal_values();
    call.number == entry.number && call.event == entry.event && call.verdict == entry.verdict
}
