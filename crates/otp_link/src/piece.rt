//! What stands at the front of the bytes of a stock node.
ghost use Rattle.std.specs.Prelude.{true, false};
ghost use Rattle.otp_link.specs.Pieces.{IsPiece};

use dist_types::{bytes_at, u32_at};
use handshake_frames::counted_at;

/// The most bytes of a body that is kept.
pub const LONGEST: usize = 4_194_304;

/// So many bytes of a longer one tell whom it goes to.
const BEGIN: usize = 4_096;

/// What stands at the front, and what behind it.
#[derive(Clone, Copy, Debug)]
pub enum Piece<'a> {
    /// The body of a frame of the handshake.
    Frame(&'a [u8], &'a [u8]),
    Body(&'a [u8], &'a [u8]),
    /// A body of no bytes.
    Tick(&'a [u8]),
    /// How a body begins that isn't kept, and its length.
    Long(&'a [u8], usize),
    /// More bytes are wanted.
    More,
}

/// Cuts off a frame up to the end of the handshake, and a body behind that.
pub fn cut(bytes: &[u8], is_up: bool) -> Piece<'_>
    ensures { IsPiece is_up bytes.now result }
{
    if is_up {
        cut_body(bytes)
    } else {
        cut_frame(bytes)
    }
}

fn cut_frame(bytes: &[u8]) -> Piece<'_>
    ensures { IsPiece false bytes.now result }
{
    match counted_at(bytes) {
        Some((body, rest)) => Piece::Frame(body, rest),
        None => Piece::More,
    }
}

fn cut_body(bytes: &[u8]) -> Piece<'_>
    ensures { IsPiece true bytes.now result }
{
    let Some((len, rest)) = u32_at(bytes) else {
        return Piece::More;
    };
    let len = len as usize;
    if len == 0 {
        return Piece::Tick(rest);
    }
    if len > LONGEST {
        return match bytes_at(BEGIN, rest) {
            Some((begin, _)) => Piece::Long(begin, len),
            None => Piece::More,
        };
    }
    match bytes_at(len, rest) {
        Some((body, rest)) => Piece::Body(body, rest),
        None => Piece::More,
    }
}
