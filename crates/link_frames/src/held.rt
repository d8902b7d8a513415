//! What a reader holds between two pieces.
ghost use Rattle.std.specs.Prelude.{◌≡◌, ◌<◌, ◌++◌, ℕ, length, IfOk, IfErr};
ghost use Rattle.std.specs.Int.{w32, to_be_bytes};
ghost use Rattle.link_frames.specs.Stream.{ticks};
ghost use Rattle.link_frames.specs.Held.{held_bytes, IsHeld, Takes, IsTakeFault, Gives};

use crate::fault::FeedFault;
use crate::front::length_at;
use crate::length_bytes::LengthBytes;
use dist_types::Body;
use handshake_frames::BodySoFar;
use std::alloc::Global;
use std::mem;

/// The most bytes of a body.
const MAX_BODY: u32 = 4_194_304;

/// What was used of a stream since its last body, without ticks at its front.
#[derive(Debug, Drop)]
pub enum Held {
    Length(LengthBytes),
    Body(BodySoFar),
}

impl Held {
    /// Takes bytes of the piece up to the end of one body at most: how many.
    pub fn take(&mut self, alloc: Global, piece: &[u8]) -> Result<usize, FeedFault>
        requires { IsHeld self.old }
        ensures ok { IfOk result (λ used. Takes self.old piece.now used self.new) }
        ensures refused { IfErr result (λ fault. IsTakeFault fault self.old piece.now self.new) }
    {
        match self {
            Held::Body(so_far) => Ok(so_far.take(piece)?),
            Held::Length(bytes) => match length_at(bytes.as_slice(), piece) {
                Ok((len, behind)) => self.begin(alloc, len, piece, behind),
                Err(rest) => {
                    *bytes = rest;
                    Ok(piece.len())
                }
            },
        }
    }

    /// Begins a body of that length with the bytes behind it, the last of the piece. The length is
    /// judged before anything grows.
    fn begin(
        &mut self,
        alloc: Global,
        len: u32,
        piece: &[u8],
        behind: &[u8],
    ) -> Result<usize, FeedFault>
        requires some { 0 < len }
        requires last { length behind.now < length piece.now }
        requires found { (n : ℕ) × (held_bytes self.old ++ piece.now ≡ ticks n
            ++ (to_be_bytes w32 len ++ behind.now)) }
        ensures ok { IfOk result (λ used. Takes self.old piece.now used self.new) }
        ensures refused { IfErr result (λ fault. IsTakeFault fault self.old piece.now self.new) }
    {
        if len > MAX_BODY {
            return Err(FeedFault::TooLong);
        }
        let mut so_far = BodySoFar::new(alloc, len as usize)?;
        let used = so_far.take(behind)?;
        *self = Held::Body(so_far);
        Ok(piece.len() - behind.len() + used)
    }

    /// Hands a body out if it is whole, and holds nothing then.
    pub fn take_whole(&mut self) -> Option<Body>
        ensures { Gives self.old result self.new }
    {
        match mem::replace(self, Held::Length(LengthBytes::new())) {
            Held::Body(so_far) if so_far.is_whole() => Some(so_far.into_body()),
            held => {
                *self = held;
                None
            }
        }
    }
}
