//! How a state stops.
ghost use Rattle.std.specs.Prelude.{◌≡◌, List, []};
ghost use Rattle.link_states.specs.declared.stopped.Stopped.TheVariants as stopped;
ghost use Rattle.link_states.specs.Checks.{Check};
ghost use Rattle.link_states.specs.Stopped.{IsBroken, IsStopped};

use crate::frames::{Bodies, refusal_frames};
use crate::refusal::Refusal;
use crate::state_rule::StateRule;
use std::alloc::Global;
use thiserror::Error;

/// Why there is no next state.
#[derive(Debug, Drop, Error)]
pub enum Stopped<S> {
    /// The frame broke the rule, and the challenge is spent. The frames are still to be sent.
    #[error("the handshake ended by the rule {rule:?}")]
    Ended { rule: StateRule, frames: Bodies },
    /// The state is as it was, and may take the frame again.
    #[error("out of memory")]
    OutOfMemory(S),
}

impl<S> Stopped<S> {
    /// The end of a state whose challenge was judged. It owes no frame.
    pub(crate) fn bad_digest(alloc: Global) -> Stopped<S>
        ensures { result ≡ stopped.Ended StateRule.BadDigest [] }
    {
        Stopped::Ended {
            rule: StateRule::BadDigest,
            frames: Bodies::of(Vec::new(alloc)),
        }
    }
}

/// Ends a state whose frame was refused, or gives it back. The state's challenge is discarded where
/// it ends.
pub fn stop<S: Drop>(alloc: Global, refusal: Refusal, state: S) -> Stopped<S>
    ensures { (checks : List Check) → IsBroken refusal checks → IsStopped result state checks }
{
    let Refusal::Broken(rule) = refusal else {
        return Stopped::OutOfMemory(state);
    };
    match refusal_frames(alloc, rule) {
        Ok(frames) => Stopped::Ended { rule, frames },
        Err(_) => Stopped::OutOfMemory(state),
    }
}
