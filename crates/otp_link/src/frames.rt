//! The frames of a handshake, as they pass between a stock node and the node here.
ghost use Rattle.std.specs.Prelude.{◌≡◌, ◌++◌, ◌<◌, ◌^◌, ℕ, List, IfErr, IfOk, IfSome};
ghost use Rattle.std.specs.Prelude.{IsSomeAnd, OnOk, length};
ghost use Rattle.std.specs.Int.{w16};
ghost use Rattle.handshake_frames.specs.Spelling.{counted};
ghost use Rattle.otp_link.specs.Fault.{IsUnput};
ghost use Rattle.otp_link.specs.Offer.{IsOwnFrame, IsPeerFrame, named};

use crate::fault::LinkFault;
use crate::flags::offered;
use dist_types::{Flags, OutOfMemory, after_kind, u64_at};
use std::alloc::Global;

/// The byte that a Name and a Challenge begin with.
const NAMED: u8 = b'N';

/// Behind a name: its node takes messages in parts.
const IN_PARTS: u8 = 2;

/// The most bytes behind a length of two.
const LONGEST_FRAME: usize = 65_535;

/// A frame of the node here as the stock node gets it: unchanged but for the flags of a Name or a
/// Challenge, in whose place those are sent that are offered. Bit 0 stays clear where the node is
/// hidden.
pub fn own_frame(alloc: Global, body: &[u8], is_visible: bool) -> Result<Vec<u8>, OutOfMemory>
    ensures sent { IfOk result (λ sent. IsOwnFrame is_visible body.now sent.items) }
    ensures long { IfOk result (λ sent. length sent.items ≡ length body.now) }
{
    let mut sent = Vec::with_capacity(alloc, body.len())?;
    match flags_at(body) {
        Some((flags, rest)) => {
            let flags = offered(is_visible && flags.published());
            sent.push(NAMED)?;
            sent.extend_from_slice(&flags.0.to_be_bytes())?;
            sent.extend_from_slice(rest)?;
        }
        None => sent.extend_from_slice(body)?,
    }
    Ok(sent)
}

/// The flags of a Name or a Challenge, and what stands behind them.
pub(crate) fn flags_at(body: &[u8]) -> Option<(Flags, &[u8])>
    ensures found { IfSome result (λ read. body.now ≡ named read.0.0 read.1.now) }
    ensures only { (flags : ℕ) (rest : List ℕ) → flags < 2 ^ 64 → body.now ≡ named flags rest →
        IsSomeAnd result (λ read. (read.0.0 ≡ flags) × (read.1.now ≡ rest)) }
{
    let rest = after_kind(NAMED, body)?;
    let (flags, rest) = u64_at(rest)?;
    Some((Flags(flags), rest))
}

/// A frame of the stock node as the node here gets it: unchanged, but for one byte behind its name
/// where that says that it takes messages in parts, which are made of its own here.
pub fn peer_frame(alloc: Global, body: &[u8], in_parts: bool) -> Result<Vec<u8>, OutOfMemory>
    ensures { IfOk result (λ taken. IsPeerFrame in_parts body.now taken.items) }
{
    let mut taken = body.to_vec(alloc)?;
    if in_parts {
        taken.push(IN_PARTS)?;
    }
    Ok(taken)
}

/// Appends a frame behind its length.
pub(crate) fn put_frame(frame: &[u8], out: &mut Vec<u8>) -> Result<(), LinkFault>
    ensures put { OnOk result (out.new.items ≡ out.old.items ++ counted w16 frame.now) }
    ensures refused { IfErr result (IsUnput frame.now) }
{
    if frame.len() > LONGEST_FRAME {
        return Err(LinkFault::TooLong);
    }
    out.extend_from_slice(&(frame.len() as u16).to_be_bytes())?;
    out.extend_from_slice(frame)?;
    Ok(())
}
