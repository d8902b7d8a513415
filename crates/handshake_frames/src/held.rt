//! What a reader holds between two pieces.
ghost use Rattle.std.specs.Prelude.{◌≡◌, ◌+◌, ◌<◌, ◌++◌, length, option_to_list, IfOk, IfSome, IfNone, OnErr};
ghost use Rattle.std.specs.Int.{w16, to_be_bytes};
ghost use Rattle.handshake_frames.specs.Held.{IsHeld, Takes, Gives};

use crate::body_so_far::BodySoFar;
use dist_types::{Body, OutOfMemory};
use std::alloc::Global;
use std::mem;

/// What was used of a stream since its last body.
#[derive(Debug, Drop)]
pub enum Held {
    /// Nothing, or the first byte of a length.
    Length(Option<u8>),
    Body(BodySoFar),
}

impl Held {
    /// Takes bytes of the piece up to the end of one body at most: how many.
    pub fn take(&mut self, alloc: Global, piece: &[u8]) -> Result<usize, OutOfMemory>
        requires { IsHeld self.old }
        ensures ok { IfOk result (λ used. Takes self.old piece.now used self.new) }
        ensures same { OnErr result (self.new ≡ self.old) }
    {
        match self {
            Held::Body(so_far) => so_far.take(piece),
            Held::Length(first) => {
                let Some((len, behind)) = length_at(*first, piece) else {
                    *first = first.or(piece.first().copied());
                    return Ok(piece.len());
                };
                let mut so_far = BodySoFar::new(alloc, len as usize)?;
                let taken = so_far.take(behind)?;
                *self = Held::Body(so_far);
                Ok(piece.len() - behind.len() + taken)
            }
        }
    }

    /// Hands a body out if it is whole, and holds nothing then.
    pub fn take_whole(&mut self) -> Option<Body>
        ensures { Gives self.old result self.new }
    {
        match mem::replace(self, Held::Length(None)) {
            Held::Body(so_far) if so_far.is_whole() => Some(so_far.into_body()),
            held => {
                *self = held;
                None
            }
        }
    }
}

/// The length that the first byte, if there is one, and the piece begin, and what stands behind it.
fn length_at(first: Option<u8>, piece: &[u8]) -> Option<(u16, &[u8])>
    ensures found { IfSome result (λ read. option_to_list first ++ piece.now
        ≡ to_be_bytes w16 read.0 ++ read.1.now) }
    ensures short { IfNone result (length (option_to_list first) + length piece.now < 2) }
{
    let (high, rest) = match first {
        Some(high) => (high, piece),
        None => {
            let (high, rest) = piece.split_first()?;
            (*high, rest)
        }
    };
    let (low, behind) = rest.split_first()?;
    Some((u16::from_be_bytes([high, *low]), behind))
}
