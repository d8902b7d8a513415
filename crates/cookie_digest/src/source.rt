//! Where challenges come from (Distribution Protocol, Distribution Handshake).
ghost use Rattle.std.specs.Prelude.{◌≡◌};
ghost use Rattle.rand_core.specs.Stream.{next_u32};

use rand_core::Rng;
use std::marker::Model;

/// Draws challenges from a generator. Whoever can foresee the generator can foresee the challenges:
/// give it one that is meant for cryptography, with a seed that nobody else knows and that no other
/// source has.
#[derive(Drop)]
pub struct ChallengeSource<R: Rng> {
    words: R,
}

impl<R: Rng> Model for ChallengeSource<R> {
    ghost Value = { R };

    ghost view = { λ source. source.words };
}

impl<R: Rng> ChallengeSource<R> {
    pub fn new(words: R) -> ChallengeSource<R>
        ensures { result ≡ words }
    {
        ChallengeSource { words }
    }

    /// The next challenge, which is the generator's next 32-bit word.
    pub fn draw(&mut self) -> u32
        ensures { (result, R.stream self.new) ≡ next_u32 (R.stream self.old) }
    {
        self.words.next_u32()
    }
}
