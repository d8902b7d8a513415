//! The bytes of a length that isn't whole.
ghost use Rattle.std.specs.Prelude.{◌≡◌, ◌+◌, ◌<◌, ◌++◌, [], length};

use std::marker::Model;

/// The first bytes of a length of 4 bytes, 3 at most.
#[derive(Debug, Drop)]
pub struct LengthBytes {
    bytes: [u8; 3],
    /// How many there are. Those behind them say nothing.
    count: usize,
}

impl Model for LengthBytes {
    ghost use Rattle.std.specs.Prelude.{List, ℕ, ◌≤◌, take};

    ghost Value = { List ℕ };

    ghost view = { λ held. take held.count held.bytes };

    ghost invariant = { λ held. held.count ≤ 3 };
}

impl LengthBytes {
    pub fn new() -> LengthBytes
        ensures { result ≡ [] }
    {
        LengthBytes {
            bytes: [0; 3],
            count: 0,
        }
    }

    /// What is held, and the piece behind it.
    pub fn of(held: &[u8], piece: &[u8]) -> LengthBytes
        requires { length held.now + length piece.now < 4 }
        ensures { result ≡ held.now ++ piece.now }
    {
        let count = held.len() + piece.len();
        let mut bytes = [0; 3];
        bytes[..held.len()].copy_from_slice(held);
        bytes[held.len()..count].copy_from_slice(piece);
        LengthBytes { bytes, count }
    }

    pub fn as_slice(&self) -> &[u8]
        ensures value { result.now ≡ self.now }
        ensures few { length self.now < 4 }
    {
        &self.bytes[..self.count]
    }
}
