//! Frames to bodies.
ghost use Rattle.std.specs.Prelude.{◌≡◌, ◌++◌, ◌<◌, ◌^◌, length, OnOk, OnErr};
ghost use Rattle.handshake_frames.specs.Frame.{name_said, challenge_said};
ghost use Rattle.handshake_frames.specs.Spelling.{name_bytes, status_bytes, challenge_bytes, reply_bytes, ack_bytes, spelling, IsVersion, HasSpelling};

use crate::frame::{AckFrame, ChallengeFrame, HsFrame, NameFrame, ReplyFrame, StatusWord};
use crate::status::status_body;
use crate::version::version_bytes;
use dist_types::OutOfMemory;

/// The bytes of a name frame before its name: kind 1, flags 8, creation 4, length 2.
const NAME_HEAD: usize = 15;
/// The bytes of a challenge frame before its name: kind 1, flags 8, challenge 4, creation 4, length
/// 2.
const CHALLENGE_HEAD: usize = 19;
/// The bytes of a reply: kind 1, challenge 4, digest 16.
const REPLY_LEN: usize = 21;
/// The bytes of an acknowledgement: kind 1, digest 16.
const ACK_LEN: usize = 17;

/// Appends the frame's body, with 02 behind a name of version 2 and nothing behind one of version
/// 1. The length of the name must fit 16 bits, and the version must be 1 or 2.
pub fn encode(frame: &HsFrame<'_>, out: &mut Vec<u8>) -> Result<(), OutOfMemory>
    requires { HasSpelling frame.now }
    ensures ok { OnOk result (out.new.items ≡ out.old.items ++ spelling frame.now) }
    ensures same { OnErr result (out.new.items ≡ out.old.items) }
{
    match frame {
        HsFrame::Name(name) => put_name(name, out),
        HsFrame::Status(word) => put_status(*word, out),
        HsFrame::Challenge(challenge) => put_challenge(challenge, out),
        HsFrame::Reply(reply) => put_reply(reply, out),
        HsFrame::Ack(ack) => put_ack(ack, out),
    }
}

fn put_name(frame: &NameFrame<'_>, out: &mut Vec<u8>) -> Result<(), OutOfMemory>
    requires length { length frame.now.name.now < 2 ^ 16 }
    requires version { IsVersion frame.now.version }
    ensures ok { OnOk result (out.new.items ≡ out.old.items ++ name_bytes (name_said frame.now)) }
    ensures same { OnErr result (out.new.items ≡ out.old.items) }
{
    let version = version_bytes(frame.version);
    out.reserve(NAME_HEAD + frame.name.len() + version.len())?;
    out.push(b'N')?;
    out.extend_from_slice(&frame.flags.0.to_be_bytes())?;
    out.extend_from_slice(&frame.creation.to_be_bytes())?;
    out.extend_from_slice(&(frame.name.len() as u16).to_be_bytes())?;
    out.extend_from_slice(frame.name)?;
    out.extend_from_slice(version)?;
    Ok(())
}

fn put_status(word: StatusWord, out: &mut Vec<u8>) -> Result<(), OutOfMemory>
    ensures ok { OnOk result (out.new.items ≡ out.old.items ++ status_bytes word) }
    ensures same { OnErr result (out.new.items ≡ out.old.items) }
{
    out.extend_from_slice(status_body(word))?;
    Ok(())
}

fn put_challenge(frame: &ChallengeFrame<'_>, out: &mut Vec<u8>) -> Result<(), OutOfMemory>
    requires length { length frame.now.name.now < 2 ^ 16 }
    requires version { IsVersion frame.now.version }
    ensures ok { OnOk result (out.new.items ≡ out.old.items
        ++ challenge_bytes (challenge_said frame.now)) }
    ensures same { OnErr result (out.new.items ≡ out.old.items) }
{
    let version = version_bytes(frame.version);
    out.reserve(CHALLENGE_HEAD + frame.name.len() + version.len())?;
    out.push(b'N')?;
    out.extend_from_slice(&frame.flags.0.to_be_bytes())?;
    out.extend_from_slice(&frame.challenge.to_be_bytes())?;
    out.extend_from_slice(&frame.creation.to_be_bytes())?;
    out.extend_from_slice(&(frame.name.len() as u16).to_be_bytes())?;
    out.extend_from_slice(frame.name)?;
    out.extend_from_slice(version)?;
    Ok(())
}

fn put_reply(frame: &ReplyFrame, out: &mut Vec<u8>) -> Result<(), OutOfMemory>
    ensures ok { OnOk result (out.new.items ≡ out.old.items ++ reply_bytes frame.now) }
    ensures same { OnErr result (out.new.items ≡ out.old.items) }
{
    out.reserve(REPLY_LEN)?;
    out.push(b'r')?;
    out.extend_from_slice(&frame.challenge.to_be_bytes())?;
    out.extend_from_slice(&frame.digest)?;
    Ok(())
}

fn put_ack(frame: &AckFrame, out: &mut Vec<u8>) -> Result<(), OutOfMemory>
    ensures ok { OnOk result (out.new.items ≡ out.old.items ++ ack_bytes frame.now) }
    ensures same { OnErr result (out.new.items ≡ out.old.items) }
{
    out.reserve(ACK_LEN)?;
    out.push(b'a')?;
    out.extend_from_slice(&frame.digest)?;
    Ok(())
}
