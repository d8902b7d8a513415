//! The dialler's second state.
ghost use Rattle.std.specs.Prelude.{◌≡◌, Some, IfOk, IfErr, IsSomeAnd};
ghost use Rattle.handshake_frames.specs.Frame.{challenge_said};
ghost use Rattle.handshake_frames.specs.Reading.{challenge_frame};
ghost use Rattle.link_states.specs.Checks.{PassesAll, challenge_checks};
ghost use Rattle.link_states.specs.Frames.{reply_owed};
ghost use Rattle.link_states.specs.Peer.{found};
ghost use Rattle.link_states.specs.Stopped.{IsBroken, IsStopped};

use crate::await_ack::AwaitAck;
use crate::frames::{Bodies, reply};
use crate::peer::Peer;
use crate::pending::OtherLinks;
use crate::refusal::{Refusal, unless};
use crate::state_rule::StateRule;
use crate::stopped::{Stopped, stop};
use admission_rules::Admission;
use cookie_digest::Challenge;
use dist_types::NodeName;
use handshake_frames::{ChallengeFrame, decode_challenge};
use std::alloc::Global;
use std::marker::Model;

/// The dialler awaits the acceptor's challenge.
#[must_use]
#[derive(Debug)]
pub struct AwaitChallenge {
    peer: NodeName,
    challenge: Challenge,
}

impl Model for AwaitChallenge {
    ghost use Rattle.link_states.specs.States.{Dialled};

    ghost Value = { Dialled };

    ghost view = { λ state. record {
      peer = state.peer;
      challenge = state.challenge;
    } };
}

impl AwaitChallenge {
    pub(crate) fn new(peer: NodeName, challenge: Challenge) -> AwaitChallenge
        ensures { result ≡ record { peer = peer; challenge = challenge } }
    {
        AwaitChallenge { peer, challenge }
    }

    /// The name that was dialled.
    pub fn peer(&self) -> &NodeName
        ensures { result.now ≡ self.now.peer }
    {
        &self.peer
    }

    /// Takes the challenge frame. The cookie is the peer's at this call.
    pub fn take<L: OtherLinks>(
        self,
        alloc: Global,
        body: &[u8],
        admission: &Admission,
        _links: &L,
    ) -> Result<(AwaitAck, Bodies), Stopped<AwaitChallenge>>
        ensures ok { IfOk result (λ (next, frames).
            PassesAll (challenge_checks self.peer (challenge_frame body.now))
            × IsSomeAnd (challenge_frame body.now) (λ peer. (next ≡ found admission.now self peer)
            × (frames ≡ reply_owed admission.now self.peer self.challenge peer.challenge))) }
        ensures refused { IfErr result (λ stopped.
            IsStopped stopped self (challenge_checks self.peer (challenge_frame body.now))) }
    {
        let (given, frames) = match self.owed(alloc, body, admission) {
            Ok(owed) => owed,
            Err(refusal) => return Err(stop(alloc, refusal, self)),
        };
        let AwaitChallenge { peer, challenge } = self;
        let peer = Peer::new(admission, peer, given.flags, given.creation, given.version);
        Ok((AwaitAck::new(peer, challenge), frames))
    }

    /// The challenge of the node that was dialled, and the reply that it owes.
    fn owed<'a>(
        &self,
        alloc: Global,
        body: &'a [u8],
        admission: &Admission,
    ) -> Result<(ChallengeFrame<'a>, Bodies), Refusal>
        ensures ok { IfOk result (λ (given, frames).
            PassesAll (challenge_checks self.now.peer (challenge_frame body.now))
            × (challenge_frame body.now ≡ Some (challenge_said given))
            × (frames ≡ reply_owed admission.now self.now.peer self.now.challenge
            given.challenge)) }
        ensures refused { IfErr result (λ refusal.
            IsBroken refusal (challenge_checks self.now.peer (challenge_frame body.now))) }
    {
        let given = decode_challenge(body)?;
        unless(given.flags.handshake23(), StateRule::NoHandshake23)?;
        unless(given.name == self.peer.as_bytes(), StateRule::WrongName)?;
        let own = self.challenge.number();
        let frames = reply(alloc, admission, &self.peer, own, given.challenge)?;
        Ok((given, frames))
    }
}

impl Drop for AwaitChallenge {
    fn drop(self) {
        let AwaitChallenge { peer: _, challenge } = self;
        challenge.discard();
    }
}
