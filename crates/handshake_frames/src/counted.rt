//! Bytes behind their length, as a name in a frame.
ghost use Rattle.std.specs.Prelude.{◌≡◌, ◌<◌, ◌^◌, ◌++◌, length, ℕ, List, IfSome, IsSomeAnd};
ghost use Rattle.std.specs.Int.{w16};
ghost use Rattle.handshake_frames.specs.Spelling.{counted};

use dist_types::{bytes_at, u16_at};

/// The bytes behind their length of 2 bytes, and what stands behind them.
pub fn counted_at(bytes: &[u8]) -> Option<(&[u8], &[u8])>
    ensures found { IfSome result (λ read. (length read.0.now < 2 ^ 16)
        × (bytes.now ≡ counted w16 read.0.now ++ read.1.now)) }
    ensures only { (front rest : List ℕ) → length front < 2 ^ 16
        → bytes.now ≡ counted w16 front ++ rest →
        IsSomeAnd result (λ read. (read.0.now ≡ front) × (read.1.now ≡ rest)) }
{
    let (len, rest) = u16_at(bytes)?;
    bytes_at(usize::from(len), rest)
}
