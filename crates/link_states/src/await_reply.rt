//! The acceptor's last state.
ghost use Rattle.std.specs.Prelude.{◌≡◌, IfOk, IfErr, IsSomeAnd};
ghost use Rattle.handshake_frames.specs.Reading.{reply_frame};
ghost use Rattle.link_states.specs.Checks.{PassesAll, reply_checks};
ghost use Rattle.link_states.specs.Frames.{ack_owed};
ghost use Rattle.link_states.specs.States.{linked};
ghost use Rattle.link_states.specs.Stopped.{IsBroken, IsStopped};

use crate::frames::{Bodies, ack};
use crate::peer::Peer;
use crate::pending::OtherLinks;
use crate::refusal::Refusal;
use crate::stopped::{Stopped, stop};
use crate::up::Up;
use admission_rules::Admission;
use cookie_digest::Challenge;
use dist_types::NodeName;
use handshake_frames::decode_reply;
use std::alloc::Global;
use std::marker::Model;

/// The acceptor has sent its challenge, and awaits the reply.
#[must_use]
#[derive(Debug)]
pub struct AwaitReply {
    peer: Peer,
    challenge: Challenge,
}

impl Model for AwaitReply {
    ghost use Rattle.link_states.specs.States.{Introduced};

    ghost Value = { Introduced };

    ghost view = { λ state. record {
      peer = state.peer.name;
      creation = state.peer.creation;
      visible = state.peer.visible;
      version = state.peer.version;
      challenge = state.challenge;
    } };
}

impl AwaitReply {
    pub(crate) fn new(peer: Peer, challenge: Challenge) -> AwaitReply
        ensures { result ≡ record {
          peer = peer.name;
          creation = peer.creation;
          visible = peer.visible;
          version = peer.version;
          challenge = challenge;
        } }
    {
        AwaitReply { peer, challenge }
    }

    /// The name that the dialler gave.
    pub fn peer(&self) -> &NodeName
        ensures { result.now ≡ self.now.peer }
    {
        &self.peer.name
    }

    /// Takes the reply. The cookie is the peer's at this call.
    pub fn take<L: OtherLinks>(
        self,
        alloc: Global,
        body: &[u8],
        admission: &Admission,
        _links: &L,
    ) -> Result<(Up, Bodies), Stopped<AwaitReply>>
        ensures ok { IfOk result (λ (up, frames).
            PassesAll (reply_checks admission.now self.peer self.challenge (reply_frame body.now))
            × (up ≡ linked self)
            × IsSomeAnd (reply_frame body.now) (λ reply. frames
            ≡ ack_owed admission.now self.peer reply.challenge)) }
        ensures refused { IfErr result (λ stopped.
            IsStopped stopped self (reply_checks admission.now self.peer self.challenge
            (reply_frame body.now))) }
    {
        let (digest, frames) = match self.owed(alloc, body, admission) {
            Ok(owed) => owed,
            Err(refusal) => return Err(stop(alloc, refusal, self)),
        };
        let AwaitReply { peer, challenge } = self;
        match challenge.check(admission.cookie_for(&peer.name), digest) {
            Ok(proof) => Ok((Up::new(peer, proof), frames)),
            Err(_spent) => Err(Stopped::bad_digest(alloc)),
        }
    }

    /// The reply's digest, and the acknowledgement that a right one owes.
    fn owed(
        &self,
        alloc: Global,
        body: &[u8],
        admission: &Admission,
    ) -> Result<([u8; 16], Bodies), Refusal>
        ensures ok { IfOk result (λ (digest, frames). IsSomeAnd (reply_frame body.now) (λ reply.
            (digest ≡ reply.digest)
            × (frames ≡ ack_owed admission.now self.now.peer reply.challenge))) }
        ensures refused { IfErr result (λ refusal.
            IsBroken refusal (reply_checks admission.now self.now.peer self.now.challenge
            (reply_frame body.now))) }
    {
        let reply = decode_reply(body)?;
        let digest = reply.digest;
        let frames = ack(alloc, admission, &self.peer.name, reply.challenge)?;
        Ok((digest, frames))
    }
}

impl Drop for AwaitReply {
    fn drop(self) {
        let AwaitReply { peer: _, challenge } = self;
        challenge.discard();
    }
}
