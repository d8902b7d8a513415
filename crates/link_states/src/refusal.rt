//! Why a frame is refused.
ghost use Rattle.std.specs.Prelude.{◌≡◌, true, false, OnOk, IfErr};
ghost use Rattle.link_states.specs.declared.refusal.Refusal.TheVariants as refusals;
ghost use Rattle.link_states.specs.declared.state_rule.StateRule.TheVariants as rules;
ghost use Rattle.link_states.specs.Stopped.{refusal_of};

use crate::state_rule::StateRule;
use dist_types::{OutOfMemory, TextFault};
use handshake_frames::BadFrame;

/// The first rule that the frame breaks, or want of memory.
#[derive(Clone, Copy, Debug)]
pub enum Refusal {
    Broken(StateRule),
    OutOfMemory,
}

/// Breaks the rule, unless the test holds.
pub fn unless(holds: bool, rule: StateRule) -> Result<(), Refusal>
    ensures ok { OnOk result (holds ≡ true) }
    ensures refused { IfErr result (λ refusal. (holds ≡ false) × (refusal ≡ Refusal.Broken rule)) }
{
    if holds {
        Ok(())
    } else {
        Err(Refusal::Broken(rule))
    }
}

impl From<BadFrame> for Refusal {
    ghost from_gives = { λ _ refusal. refusal ≡ refusals.Broken rules.BadFrame };

    fn from(_error: BadFrame) -> Refusal {
        Refusal::Broken(StateRule::BadFrame)
    }
}

/// Why a name that the peer gave is refused.
impl From<TextFault> for Refusal {
    ghost from_gives = { λ fault refusal. refusal ≡ refusal_of fault };

    fn from(fault: TextFault) -> Refusal {
        match fault {
            TextFault::OutOfMemory => Refusal::OutOfMemory,
            _ => Refusal::Broken(StateRule::BadName),
        }
    }
}

impl From<OutOfMemory> for Refusal {
    ghost from_gives = { λ _ refusal. refusal ≡ refusals.OutOfMemory };

    fn from(_error: OutOfMemory) -> Refusal {
        Refusal::OutOfMemory
    }
}
