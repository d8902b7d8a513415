//! The dialler's first state.
ghost use Rattle.std.specs.Prelude.{◌≡◌, IfOk, IfErr, IsSomeAnd};
ghost use Rattle.handshake_frames.specs.Reading.{status_of};
ghost use Rattle.link_states.specs.Checks.{PassesAll, status_checks, goes_on};
ghost use Rattle.link_states.specs.Frames.{own_name, status_owed};
ghost use Rattle.link_states.specs.Stopped.{IsBroken, IsStopped};

use crate::await_challenge::AwaitChallenge;
use crate::frames::{Bodies, name_frame, status_answer};
use crate::handshake_body::HandshakeBody;
use crate::pending::OtherLinks;
use crate::refusal::{Refusal, unless};
use crate::state_rule::StateRule;
use crate::stopped::{Stopped, stop};
use admission_rules::Admission;
use cookie_digest::Challenge;
use dist_types::NodeName;
use handshake_frames::{StatusWord, decode_status};
use std::alloc::Global;
use std::marker::Model;

/// The dialler has sent its name, and awaits the status.
#[must_use]
#[derive(Debug)]
pub struct AwaitStatus {
    peer: NodeName,
    challenge: Challenge,
}

impl Model for AwaitStatus {
    ghost use Rattle.link_states.specs.States.{Dialled};

    ghost Value = { Dialled };

    ghost view = { λ state. record {
      peer = state.peer;
      challenge = state.challenge;
    } };
}

impl AwaitStatus {
    /// Dials the peer: the state, and the name frame to send.
    pub fn dial(
        alloc: Global,
        peer: NodeName,
        challenge: Challenge,
        admission: &Admission,
    ) -> Result<(AwaitStatus, HandshakeBody), (NodeName, Challenge)>
        ensures ok { IfOk result (λ (state, frame).
            (state ≡ record { peer = peer; challenge = challenge })
            × (frame ≡ own_name admission.now)) }
        ensures memory { IfErr result (λ back. back ≡ (peer, challenge)) }
    {
        match name_frame(alloc, admission) {
            Ok(frame) => Ok((AwaitStatus { peer, challenge }, frame)),
            Err(_) => Err((peer, challenge)),
        }
    }

    /// The name that was dialled.
    pub fn peer(&self) -> &NodeName
        ensures { result.now ≡ self.now.peer }
    {
        &self.peer
    }

    /// Takes the acceptor's status.
    pub fn take<L: OtherLinks>(
        self,
        alloc: Global,
        body: &[u8],
        _admission: &Admission,
        links: &L,
    ) -> Result<(AwaitChallenge, Bodies), Stopped<AwaitStatus>>
        ensures ok { IfOk result (λ (next, frames).
            PassesAll (status_checks (L.pending links.now) self.peer (status_of body.now))
            × (next ≡ self)
            × IsSomeAnd (status_of body.now) (λ word. frames ≡ status_owed word)) }
        ensures refused { IfErr result (λ stopped.
            IsStopped stopped self (status_checks (L.pending links.now) self.peer
            (status_of body.now))) }
    {
        let frames = match self.owed(alloc, body, links) {
            Ok(frames) => frames,
            Err(refusal) => return Err(stop(alloc, refusal, self)),
        };
        let AwaitStatus { peer, challenge } = self;
        Ok((AwaitChallenge::new(peer, challenge), frames))
    }

    /// The answer to a status with which the handshake goes on.
    fn owed<L: OtherLinks>(&self, alloc: Global, body: &[u8], links: &L) -> Result<Bodies, Refusal>
        ensures ok { IfOk result (λ frames.
            PassesAll (status_checks (L.pending links.now) self.now.peer (status_of body.now))
            × IsSomeAnd (status_of body.now) (λ word. frames ≡ status_owed word)) }
        ensures refused { IfErr result (λ refusal.
            IsBroken refusal (status_checks (L.pending links.now) self.now.peer
            (status_of body.now))) }
    {
        let word = decode_status(body)?;
        unless(goes_on(word), StateRule::PeerSaid)?;
        let is_up = word == StatusWord::Alive && links.is_up(&self.peer);
        unless(!is_up, StateRule::LinkUp)?;
        Ok(status_answer(alloc, word)?)
    }
}

fn goes_on(word: StatusWord) -> bool
    ensures { result ≡ goes_on word }
{
    matches!(
        word,
        StatusWord::Ok | StatusWord::OkSimultaneous | StatusWord::Alive
    )
}

impl Drop for AwaitStatus {
    fn drop(self) {
        let AwaitStatus { peer: _, challenge } = self;
        challenge.discard();
    }
}
