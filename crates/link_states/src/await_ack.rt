//! The dialler's last state.
ghost use Rattle.std.specs.Prelude.{◌≡◌, [], IfOk, IfErr};
ghost use Rattle.handshake_frames.specs.Reading.{ack_frame};
ghost use Rattle.link_states.specs.Checks.{PassesAll, ack_checks};
ghost use Rattle.link_states.specs.States.{linked};
ghost use Rattle.link_states.specs.Stopped.{IsStopped};

use crate::frames::Bodies;
use crate::peer::Peer;
use crate::pending::OtherLinks;
use crate::refusal::Refusal;
use crate::state_rule::StateRule;
use crate::stopped::{Stopped, stop};
use crate::up::Up;
use admission_rules::Admission;
use cookie_digest::Challenge;
use dist_types::NodeName;
use handshake_frames::decode_ack;
use std::alloc::Global;
use std::marker::Model;

/// The dialler has sent its reply, and awaits the acknowledgement.
#[must_use]
#[derive(Debug)]
pub struct AwaitAck {
    peer: Peer,
    challenge: Challenge,
}

impl Model for AwaitAck {
    ghost use Rattle.link_states.specs.States.{Introduced};

    ghost Value = { Introduced };

    ghost view = { λ state. record {
      peer = state.peer.name;
      creation = state.peer.creation;
      visible = state.peer.visible;
      version = state.peer.version;
      challenge = state.challenge;
    } };
}

impl AwaitAck {
    pub(crate) fn new(peer: Peer, challenge: Challenge) -> AwaitAck
        ensures { result ≡ record {
          peer = peer.name;
          creation = peer.creation;
          visible = peer.visible;
          version = peer.version;
          challenge = challenge;
        } }
    {
        AwaitAck { peer, challenge }
    }

    /// The name that was dialled.
    pub fn peer(&self) -> &NodeName
        ensures { result.now ≡ self.now.peer }
    {
        &self.peer.name
    }

    /// Takes the acknowledgement, which owes no frame. The cookie is the peer's at this call.
    pub fn take<L: OtherLinks>(
        self,
        alloc: Global,
        body: &[u8],
        admission: &Admission,
        _links: &L,
    ) -> Result<(Up, Bodies), Stopped<AwaitAck>>
        ensures ok { IfOk result (λ (up, frames).
            PassesAll (ack_checks admission.now self.peer self.challenge (ack_frame body.now))
            × (up ≡ linked self) × (frames ≡ [])) }
        ensures refused { IfErr result (λ stopped.
            IsStopped stopped self (ack_checks admission.now self.peer self.challenge
            (ack_frame body.now))) }
    {
        let Ok(ack) = decode_ack(body) else {
            return Err(stop(alloc, Refusal::Broken(StateRule::BadFrame), self));
        };
        let AwaitAck { peer, challenge } = self;
        match challenge.check(admission.cookie_for(&peer.name), ack.digest) {
            Ok(proof) => Ok((Up::new(peer, proof), Bodies::of(Vec::new(alloc)))),
            Err(_spent) => Err(Stopped::bad_digest(alloc)),
        }
    }
}

impl Drop for AwaitAck {
    fn drop(self) {
        let AwaitAck { peer: _, challenge } = self;
        challenge.discard();
    }
}
