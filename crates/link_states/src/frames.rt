//! The bodies that a state sends.
ghost use Rattle.std.specs.Prelude.{◌≡◌, ◌<◌, ◌^◌, ◌∷◌, [], length, IfOk};
ghost use Rattle.handshake_frames.specs.Spelling.{HasSpelling, spelling, status_bytes};
ghost use Rattle.link_states.specs.Frames.{own_name, own_challenge, greeting_owed, reply_owed, ack_owed, status_owed, refusal_frames};

use crate::handshake_body::HandshakeBody;
use crate::state_rule::StateRule;
use admission_rules::Admission;
use cookie_digest::digest;
use dist_types::{Flags, Items, NodeName, OutOfMemory};
use handshake_frames::{
    AckFrame, ChallengeFrame, HsFrame, NameFrame, ReplyFrame, StatusWord, encode,
};
use std::alloc::Global;

/// Frames to send, in this order.
pub type Bodies = Items<HandshakeBody>;

/// The name frame of the node itself.
pub fn name_frame(alloc: Global, admission: &Admission) -> Result<HandshakeBody, OutOfMemory>
    ensures { IfOk result (λ body. body ≡ own_name admission.now) }
{
    let name = NameFrame {
        flags: Flags::own(admission.hidden()),
        creation: admission.creation(),
        name: admission.own().as_bytes(),
        version: admission.links(),
    };
    body_of(alloc, &HsFrame::Name(name))
}

/// The challenge frame of the node itself.
fn challenge_frame(
    alloc: Global,
    admission: &Admission,
    challenge: u32,
) -> Result<HandshakeBody, OutOfMemory>
    ensures { IfOk result (λ body. body ≡ own_challenge admission.now challenge) }
{
    let challenge = ChallengeFrame {
        flags: Flags::own(admission.hidden()),
        challenge,
        creation: admission.creation(),
        name: admission.own().as_bytes(),
        version: admission.links(),
    };
    body_of(alloc, &HsFrame::Challenge(challenge))
}

/// The status that answers a name frame. The own challenge goes behind it, unless it is `Alive`.
pub fn greeting(
    alloc: Global,
    admission: &Admission,
    challenge: u32,
    word: StatusWord,
) -> Result<Bodies, OutOfMemory>
    ensures { IfOk result (λ frames. frames ≡ greeting_owed admission.now challenge word) }
{
    let mut frames = Vec::new(alloc);
    frames.push(body_of(alloc, &HsFrame::Status(word))?)?;
    if word != StatusWord::Alive {
        frames.push(challenge_frame(alloc, admission, challenge)?)?;
    }
    Ok(Bodies::of(frames))
}

/// The own challenge, which was withheld until the peer answered `Alive`.
pub fn challenge_alone(
    alloc: Global,
    admission: &Admission,
    challenge: u32,
) -> Result<Bodies, OutOfMemory>
    ensures { IfOk result (λ frames. frames ≡ own_challenge admission.now challenge ∷ []) }
{
    let body = challenge_frame(alloc, admission, challenge)?;
    alone(alloc, body)
}

/// The answer to the status that the dialler got.
pub fn status_answer(alloc: Global, word: StatusWord) -> Result<Bodies, OutOfMemory>
    ensures { IfOk result (λ frames. frames ≡ status_owed word) }
{
    match word {
        StatusWord::Alive => status_alone(alloc, StatusWord::True),
        _ => Ok(Bodies::of(Vec::new(alloc))),
    }
}

/// The own challenge, and the digest for the peer's.
pub fn reply(
    alloc: Global,
    admission: &Admission,
    peer: &NodeName,
    challenge: u32,
    peers: u32,
) -> Result<Bodies, OutOfMemory>
    ensures { IfOk result (λ frames. frames ≡ reply_owed admission.now peer.now challenge peers) }
{
    let reply = ReplyFrame {
        challenge,
        digest: digest(admission.cookie_for(peer), peers),
    };
    let body = body_of(alloc, &HsFrame::Reply(reply))?;
    alone(alloc, body)
}

/// The digest for the peer's challenge.
pub fn ack(
    alloc: Global,
    admission: &Admission,
    peer: &NodeName,
    peers: u32,
) -> Result<Bodies, OutOfMemory>
    ensures { IfOk result (λ frames. frames ≡ ack_owed admission.now peer.now peers) }
{
    let ack = AckFrame {
        digest: digest(admission.cookie_for(peer), peers),
    };
    let body = body_of(alloc, &HsFrame::Ack(ack))?;
    alone(alloc, body)
}

/// The frames that a refusal by this rule owes.
pub fn refusal_frames(alloc: Global, rule: StateRule) -> Result<Bodies, OutOfMemory>
    ensures { IfOk result (λ frames. frames ≡ refusal_frames rule) }
{
    match rule {
        StateRule::NotAllowed => status_alone(alloc, StatusWord::NotAllowed),
        StateRule::Simultaneous => status_alone(alloc, StatusWord::Nok),
        StateRule::LinkUp => status_alone(alloc, StatusWord::False),
        _ => Ok(Bodies::of(Vec::new(alloc))),
    }
}

fn status_alone(alloc: Global, word: StatusWord) -> Result<Bodies, OutOfMemory>
    ensures { IfOk result (λ frames. frames ≡ status_bytes word ∷ []) }
{
    let body = body_of(alloc, &HsFrame::Status(word))?;
    alone(alloc, body)
}

fn alone(alloc: Global, body: HandshakeBody) -> Result<Bodies, OutOfMemory>
    ensures { IfOk result (λ frames. frames ≡ body ∷ []) }
{
    let mut frames = Vec::new(alloc);
    frames.push(body)?;
    Ok(Bodies::of(frames))
}

fn body_of(alloc: Global, frame: &HsFrame<'_>) -> Result<HandshakeBody, OutOfMemory>
    requires spelt { HasSpelling frame.now }
    requires limits { length (spelling frame.now) < 2 ^ 16 }
    ensures { IfOk result (λ body. body ≡ spelling frame.now) }
{
    let mut body = Vec::new(alloc);
    encode(frame, &mut body)?;
    HandshakeBody::of(body)
}
