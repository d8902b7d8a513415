//! The acceptor's state after the status `alive`.
ghost use Rattle.std.specs.Prelude.{◌≡◌, ◌∷◌, [], IfOk, IfErr};
ghost use Rattle.handshake_frames.specs.Reading.{status_of};
ghost use Rattle.link_states.specs.Checks.{PassesAll, answer_checks};
ghost use Rattle.link_states.specs.Frames.{own_challenge};
ghost use Rattle.link_states.specs.Stopped.{IsBroken, IsStopped};

use crate::await_reply::AwaitReply;
use crate::frames::{Bodies, challenge_alone};
use crate::peer::Peer;
use crate::pending::OtherLinks;
use crate::refusal::{Refusal, unless};
use crate::state_rule::StateRule;
use crate::stopped::{Stopped, stop};
use admission_rules::Admission;
use cookie_digest::Challenge;
use dist_types::NodeName;
use handshake_frames::{StatusWord, decode_status};
use std::alloc::Global;
use std::marker::Model;

/// The acceptor awaits whether the dialler wants the new link in place of the one that is up.
#[must_use]
#[derive(Debug)]
pub struct AwaitAnswer {
    peer: Peer,
    challenge: Challenge,
}

impl Model for AwaitAnswer {
    ghost use Rattle.link_states.specs.States.{Introduced};

    ghost Value = { Introduced };

    ghost view = { λ state. record {
      peer = state.peer.name;
      creation = state.peer.creation;
      visible = state.peer.visible;
      version = state.peer.version;
      challenge = state.challenge;
    } };
}

impl AwaitAnswer {
    pub(crate) fn new(peer: Peer, challenge: Challenge) -> AwaitAnswer
        ensures { result ≡ record {
          peer = peer.name;
          creation = peer.creation;
          visible = peer.visible;
          version = peer.version;
          challenge = challenge;
        } }
    {
        AwaitAnswer { peer, challenge }
    }

    /// The name that the dialler gave.
    pub fn peer(&self) -> &NodeName
        ensures { result.now ≡ self.now.peer }
    {
        &self.peer.name
    }

    /// Takes the dialler's status.
    pub fn take<L: OtherLinks>(
        self,
        alloc: Global,
        body: &[u8],
        admission: &Admission,
        _links: &L,
    ) -> Result<(AwaitReply, Bodies), Stopped<AwaitAnswer>>
        ensures ok { IfOk result (λ (next, frames). PassesAll (answer_checks (status_of body.now))
            × (next ≡ self) × (frames ≡ own_challenge admission.now self.challenge ∷ [])) }
        ensures refused { IfErr result (λ stopped.
            IsStopped stopped self (answer_checks (status_of body.now))) }
    {
        let frames = match self.owed(alloc, body, admission) {
            Ok(frames) => frames,
            Err(refusal) => return Err(stop(alloc, refusal, self)),
        };
        let AwaitAnswer { peer, challenge } = self;
        Ok((AwaitReply::new(peer, challenge), frames))
    }

    /// The challenge, where the dialler wants the new link.
    fn owed(&self, alloc: Global, body: &[u8], admission: &Admission) -> Result<Bodies, Refusal>
        ensures ok { IfOk result (λ frames. PassesAll (answer_checks (status_of body.now))
            × (frames ≡ own_challenge admission.now self.now.challenge ∷ [])) }
        ensures refused { IfErr result (λ refusal.
            IsBroken refusal (answer_checks (status_of body.now))) }
    {
        let word = decode_status(body)?;
        unless(word == StatusWord::True, StateRule::PeerSaid)?;
        Ok(challenge_alone(alloc, admission, self.challenge.number())?)
    }
}

impl Drop for AwaitAnswer {
    fn drop(self) {
        let AwaitAnswer { peer: _, challenge } = self;
        challenge.discard();
    }
}
