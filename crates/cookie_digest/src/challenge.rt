//! A challenge, which judges one digest at most (Distribution Protocol, Distribution Handshake).
ghost use Rattle.std.specs.Prelude.{◌≡◌, ◌≢◌, ◌↔◌, ℕ, IsTrue, IfOk, OnErr};
ghost use Rattle.cookie_digest.specs.Digest.{digest_of};

use crate::answer::digest;
use dist_types::Cookie;
use std::marker::Model;
use thiserror::Error;

/// A challenge for a peer. It has neither `Clone` nor `Drop`: `check` or `discard` spends it.
#[must_use]
#[derive(Debug)]
pub struct Challenge {
    number: u32,
}

impl Model for Challenge {
    ghost Value = { ℕ };

    ghost view = { λ challenge. challenge.number };
}

/// That the peer answered a challenge with its digest. Only `Challenge::check` makes one.
#[derive(Debug, Drop)]
pub struct Proof {
    challenge: u32,
}

impl Model for Proof {
    ghost Value = { ℕ };

    ghost view = { λ proof. proof.challenge };
}

/// The digest was wrong, and the challenge is gone.
#[derive(Clone, Copy, Debug, PartialEq, Eq, Error)]
#[error("the digest is not that of the cookie and the challenge")]
pub struct Spent;

impl Challenge {
    pub fn new(number: u32) -> Challenge
        ensures { result ≡ number }
    {
        Challenge { number }
    }

    pub fn number(&self) -> u32
        ensures { result ≡ self.now }
    {
        self.number
    }

    /// Judges the digest that the peer sent.
    pub fn check(self, cookie: &Cookie, answer: [u8; 16]) -> Result<Proof, Spent>
        ensures ok { IfOk result (λ proof. (proof ≡ self) × (answer ≡ digest_of cookie.now self)) }
        ensures refused { OnErr result (answer ≢ digest_of cookie.now self) }
    {
        let Challenge { number } = self;
        if is_same_digest(&answer, &digest(cookie, number)) {
            Ok(Proof { challenge: number })
        } else {
            Err(Spent)
        }
    }

    /// Gives the challenge up without an answer.
    pub fn discard(self) {
        let Challenge { number: _ } = self;
    }
}

impl Proof {
    /// The number of the challenge that was answered.
    pub fn number(&self) -> u32
        ensures { result ≡ self.now }
    {
        self.challenge
    }
}

/// Reads all bytes of both, wherever they differ.
fn is_same_digest(a: &[u8; 16], b: &[u8; 16]) -> bool
    ensures { IsTrue result ↔ (a.now ≡ b.now) }
{
    let mut differing = 0;
    for (x, y) in a.iter().zip(b.iter()) {
        differing |= x ^ y;
    }
    differing == 0
}
