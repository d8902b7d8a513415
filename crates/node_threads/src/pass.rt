//! Passes.
ghost use Rattle.std.specs.Prelude.{◌≡◌, ◌<◌, [], length, Some, IsSome};
ghost use Rattle.node_threads.specs.Calls.{kept_calls, last_reply};

use crate::let_go::LetGo;
use policy_audit::{Event, Reply, Verdict};
use std::alloc::Global;
use std::fmt;
use std::marker::Model;

/// Room for so many calls stays with a pass that lets its calls go.
const ROOM: usize = 16;

/// A call that made an entry.
#[derive(Debug)]
pub struct Call {
    /// That of the entry.
    pub number: u32,
    pub event: Event,
    pub verdict: Verdict,
}

impl Drop for Call {
    fn drop(self) {
        let Call {
            number: _,
            event: _,
            verdict: _,
        } = self;
    }
}

/// The right to call a node for one seat, with the calls for that seat that made an entry: all of
/// them, or those since the pass was last told to let its calls go. Contracts go on seeing all. A
/// node makes one for each seat, and there are no copies.
pub struct Pass {
    pub(crate) seat: u32,
    /// How many calls it has let go.
    pub(crate) gone: u32,
    /// Those behind them.
    pub(crate) calls: Vec<Call>,
    /// Those that it has let go. It has no bytes.
    pub(crate) past: LetGo,
}

impl Drop for Pass {
    fn drop(self) {
        let Pass {
            seat: _,
            gone: _,
            calls: _,
            past: _,
        } = self;
    }
}

/// Shows the seat, the calls that are kept, and how many aren't.
impl fmt::Debug for Pass {
    fn fmt<W: fmt::Write>(&self, f: &mut fmt::Formatter<W>) -> fmt::Result {
        f.debug_struct("Pass")
            .field("seat", &self.seat)
            .field("gone", &self.gone)
            .field("calls", &self.calls)
            .finish_non_exhaustive()
    }
}

impl Model for Pass {
    ghost use Rattle.std.specs.Prelude.{◌++◌};
    ghost use Rattle.node_threads.specs.Calls.{Record, AreParted};

    ghost Value = { Record };

    ghost view = { λ pass. record {
      seat = pass.seat;
      calls = pass.past.calls ++ pass.calls.items;
      gone = pass.gone;
    } };

    ghost invariant = { λ pass. AreParted pass.gone pass.past.calls pass.calls.items };
}

impl Pass {
    pub(crate) fn new(alloc: Global, seat: u32) -> Pass
        ensures { result ≡ record { seat = seat; calls = []; gone = 0 } }
    {
        Pass {
            seat,
            gone: 0,
            calls: Vec::new(alloc),
            past: LetGo::new(),
        }
    }

    /// The number of its caller.
    pub fn seat(&self) -> u32
        ensures { result ≡ self.now.seat }
    {
        self.seat
    }

    /// The calls that made an entry, in their order, as far as they are kept.
    pub fn calls(&self) -> &[Call]
        ensures { result.now ≡ kept_calls self.now }
    {
        self.calls.as_slice()
    }

    /// How many calls made an entry, with those that it let go.
    pub fn count(&self) -> u32
        ensures { result ≡ length self.now.calls }
    {
        self.gone + self.calls.len() as u32
    }

    /// Lets the calls go that it keeps, and their memory but for a little.
    pub fn let_go(&mut self)
        ensures { self.new ≡ record {
          seat = self.old.seat;
          calls = self.old.calls;
          gone = length self.old.calls;
        } }
    {
        self.gone = self.count();
        self.past = self.past.then(&self.calls);
        self.calls.clear();
        self.calls.shrink_to(ROOM);
    }

    /// What the last call was answered.
    pub(crate) fn last_reply(&self) -> &Reply
        requires some { IsSome (last_reply self.now.calls) }
        requires kept { self.now.gone < length self.now.calls }
        ensures { Some result.now ≡ last_reply self.now.calls }
    {
        match self.calls.last() {
            Some(call) => match &call.verdict {
                Verdict::Accepted(reply) => reply,
                Verdict::Refused(_) => unreachable!(),
            },
            None => unreachable!(),
        }
    }
}
