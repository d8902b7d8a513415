//! The length at the front of a stream, behind ticks.
ghost use Rattle.std.specs.Prelude.{◌≡◌, ◌<◌, ◌+◌, ◌++◌, ℕ, length, IfOk, IfErr, IfSome, IfNone};
ghost use Rattle.std.specs.Int.{w32, to_be_bytes};
ghost use Rattle.link_frames.specs.Stream.{ticks};

use crate::length_bytes::LengthBytes;

/// The bytes of the length before a body.
const LENGTH_LEN: usize = 4;

/// The length behind ticks, and what stands behind it; where it isn't whole, its bytes. Some bytes
/// may be held before the piece.
pub fn length_at<'a>(held: &[u8], piece: &'a [u8]) -> Result<(u32, &'a [u8]), LengthBytes>
    requires { length held.now < 4 }
    ensures found { IfOk result (λ read. (0 < read.0)
        × ((n : ℕ) × (held.now ++ piece.now ≡ ticks n ++ (to_be_bytes w32 read.0 ++ read.1.now)))) }
    ensures onward { IfOk result (λ read. length read.1.now < length piece.now) }
    ensures short { IfErr result (λ rest. (length rest < 4)
        × ((n : ℕ) × (held.now ++ piece.now ≡ ticks n ++ rest))) }
{
    let mut front = held;
    let mut rest = piece;
    while let Some((len, behind)) = length_across(front, rest) {
        if len > 0 {
            return Ok((len, behind));
        }
        front = &[];
        rest = behind;
    }
    Err(LengthBytes::of(front, rest))
}

/// The length at the front of what is held and the piece behind it, where its bytes are there, and
/// what stands behind it.
fn length_across<'a>(held: &[u8], piece: &'a [u8]) -> Option<(u32, &'a [u8])>
    requires { length held.now < 4 }
    ensures found { IfSome result (λ read. held.now ++ piece.now ≡ to_be_bytes w32 read.0
        ++ read.1.now) }
    ensures short { IfNone result (length held.now + length piece.now < 4) }
{
    let mut bytes = held.iter().chain(piece);
    let front = [
        *bytes.next()?,
        *bytes.next()?,
        *bytes.next()?,
        *bytes.next()?,
    ];
    Some((u32::from_be_bytes(front), &piece[LENGTH_LEN - held.len()..]))
}
