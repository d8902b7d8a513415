//! Bodies to frames.
ghost use Rattle.std.specs.Prelude.{◌≡◌, Ok, Some, None, IfOk, IfSome, IsOkAnd, IsSomeAnd, MatchResult};
ghost use Rattle.handshake_frames.specs.declared.frame.StatusWord.{StatusWord};
ghost use Rattle.handshake_frames.specs.declared.frame.ReplyFrame.{ReplyFrame};
ghost use Rattle.handshake_frames.specs.declared.frame.AckFrame.{AckFrame};
ghost use Rattle.handshake_frames.specs.Frame.{Name, Challenge, name_said, challenge_said};
ghost use Rattle.handshake_frames.specs.Spelling.{SpellsName, SpellsStatus, SpellsChallenge, SpellsReply, SpellsAck};
ghost use Rattle.handshake_frames.specs.Reading.{name_frame, status_of, challenge_frame, reply_frame, ack_frame};

use crate::counted::counted_at;
use crate::fault::BadFrame;
use crate::frame::{AckFrame, ChallengeFrame, NameFrame, ReplyFrame, StatusWord};
use crate::status::{WORDS, status_body};
use crate::version::version_of;
use dist_types::{Flags, after_kind, u32_at, u64_at};

/// Reads a name frame: `N`, flags 8, creation 4, the name's length 2, the name, and then any bytes.
/// The version is 2 where these are exactly 02, else 1.
pub fn decode_name(body: &[u8]) -> Result<NameFrame<'_>, BadFrame>
    // What is read is spelled so.
    ensures found { IfOk result (λ frame. SpellsName body.now (name_said frame)) }
    // What is spelled so is read.
    ensures only { (name : Name) → SpellsName body.now name
        → IsOkAnd result (λ frame. name_said frame ≡ name) }
    // The same by the reader that computes.
    ensures value { MatchResult result (λ frame. name_frame body.now ≡ Some (name_said frame)) (λ _.
        name_frame body.now ≡ None) }
{
    name_at(body).ok_or(BadFrame)
}

/// Reads a status frame: `s` and one of the seven words, with nothing after it.
pub fn decode_status(body: &[u8]) -> Result<StatusWord, BadFrame>
    ensures found { IfOk result (SpellsStatus body.now) }
    ensures only { (word : StatusWord) → SpellsStatus body.now word → result ≡ Ok word }
    ensures value { MatchResult result (λ word. status_of body.now ≡ Some word) (λ _.
        status_of body.now ≡ None) }
{
    let word = WORDS.iter().find(|word| status_body(**word) == body);
    word.copied().ok_or(BadFrame)
}

/// Reads a challenge frame: `N`, flags 8, challenge 4, creation 4, the name's length 2, the name,
/// and then any bytes. The version is 2 where these are exactly 02, else 1.
pub fn decode_challenge(body: &[u8]) -> Result<ChallengeFrame<'_>, BadFrame>
    ensures found { IfOk result (λ frame. SpellsChallenge body.now (challenge_said frame)) }
    ensures only { (challenge : Challenge) → SpellsChallenge body.now challenge →
        IsOkAnd result (λ frame. challenge_said frame ≡ challenge) }
    ensures value { MatchResult result (λ frame. challenge_frame body.now
        ≡ Some (challenge_said frame)) (λ _. challenge_frame body.now ≡ None) }
{
    challenge_at(body).ok_or(BadFrame)
}

/// Reads a reply: `r`, the challenge 4 and the digest 16, with nothing after it.
pub fn decode_reply(body: &[u8]) -> Result<ReplyFrame, BadFrame>
    ensures found { IfOk result (SpellsReply body.now) }
    ensures only { (reply : ReplyFrame) → SpellsReply body.now reply → result ≡ Ok reply }
    ensures value { MatchResult result (λ reply. reply_frame body.now ≡ Some reply) (λ _.
        reply_frame body.now ≡ None) }
{
    reply_at(body).ok_or(BadFrame)
}

/// Reads an acknowledgement: `a` and the digest 16, with nothing after it.
pub fn decode_ack(body: &[u8]) -> Result<AckFrame, BadFrame>
    ensures found { IfOk result (SpellsAck body.now) }
    ensures only { (ack : AckFrame) → SpellsAck body.now ack → result ≡ Ok ack }
    ensures value { MatchResult result (λ ack. ack_frame body.now ≡ Some ack) (λ _.
        ack_frame body.now ≡ None) }
{
    ack_at(body).ok_or(BadFrame)
}

fn name_at(body: &[u8]) -> Option<NameFrame<'_>>
    ensures found { IfSome result (λ frame. SpellsName body.now (name_said frame)) }
    ensures only { (name : Name) → SpellsName body.now name
        → IsSomeAnd result (λ frame. name_said frame ≡ name) }
{
    let rest = after_kind(b'N', body)?;
    let (flags, rest) = u64_at(rest)?;
    let (creation, rest) = u32_at(rest)?;
    let (name, extra) = counted_at(rest)?;
    Some(NameFrame {
        flags: Flags(flags),
        creation,
        name,
        version: version_of(extra),
    })
}

fn challenge_at(body: &[u8]) -> Option<ChallengeFrame<'_>>
    ensures found { IfSome result (λ frame. SpellsChallenge body.now (challenge_said frame)) }
    ensures only { (challenge : Challenge) → SpellsChallenge body.now challenge →
        IsSomeAnd result (λ frame. challenge_said frame ≡ challenge) }
{
    let rest = after_kind(b'N', body)?;
    let (flags, rest) = u64_at(rest)?;
    let (challenge, rest) = u32_at(rest)?;
    let (creation, rest) = u32_at(rest)?;
    let (name, extra) = counted_at(rest)?;
    Some(ChallengeFrame {
        flags: Flags(flags),
        challenge,
        creation,
        name,
        version: version_of(extra),
    })
}

fn reply_at(body: &[u8]) -> Option<ReplyFrame>
    ensures found { IfSome result (SpellsReply body.now) }
    ensures only { (reply : ReplyFrame) → SpellsReply body.now reply → result ≡ Some reply }
{
    let rest = after_kind(b'r', body)?;
    let (challenge, rest) = u32_at(rest)?;
    let digest = rest.try_into().ok()?;
    Some(ReplyFrame { challenge, digest })
}

fn ack_at(body: &[u8]) -> Option<AckFrame>
    ensures found { IfSome result (SpellsAck body.now) }
    ensures only { (ack : AckFrame) → SpellsAck body.now ack → result ≡ Some ack }
{
    let rest = after_kind(b'a', body)?;
    let digest = rest.try_into().ok()?;
    Some(AckFrame { digest })
}
