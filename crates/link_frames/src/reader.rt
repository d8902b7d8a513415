//! Streams of bodies after the handshake, each behind its length of 4 bytes, with ticks between
//! them (Distribution Protocol, Protocol between Connected Nodes).
ghost use Rattle.std.specs.Prelude.{◌≡◌, [], false, IfOk, IfErr};
ghost use Rattle.link_frames.specs.Stream.{Feeds, IsFeedFault};

use crate::fault::FeedFault;
use crate::held::Held;
use crate::length_bytes::LengthBytes;
use handshake_frames::Fed;
use std::alloc::Global;
use std::marker::Model;

/// Cuts a stream into bodies and skips ticks. Contracts see it as the bytes that it has used since
/// its last body, without ticks at their front, and the mark that it has answered `TooLong`.
#[derive(Debug)]
pub struct LinkReader {
    alloc: Global,
    held: Held,
    too_long: bool,
}

impl Drop for LinkReader {
    fn drop(self) {
        let LinkReader {
            alloc: _,
            held: _,
            too_long: _,
        } = self;
    }
}

impl Model for LinkReader {
    ghost use Rattle.link_frames.specs.Stream.{Progress};
    ghost use Rattle.link_frames.specs.Held.{held_bytes, IsHeld};

    ghost Value = { Progress };

    ghost view = { λ reader. record { rest = held_bytes reader.held; too_long = reader.too_long } };

    ghost invariant = { λ reader. IsHeld reader.held };
}

impl LinkReader {
    pub fn new(alloc: Global) -> LinkReader
        ensures { result ≡ record { rest = []; too_long = false } }
    {
        LinkReader {
            alloc,
            held: Held::Length(LengthBytes::new()),
            too_long: false,
        }
    }

    /// Uses the piece up to the end of one body at most. The caller feeds what is left of it again.
    /// After `TooLong` each further call answers `TooLong`.
    pub fn feed(&mut self, piece: &[u8]) -> Result<Fed, FeedFault>
        ensures ok { IfOk result (λ fed. Feeds self.old piece.now fed.used fed.body self.new) }
        ensures refused { IfErr result (λ fault. IsFeedFault fault self.old piece.now self.new) }
    {
        if self.too_long {
            return Err(FeedFault::TooLong);
        }
        match self.held.take(self.alloc, piece) {
            Ok(used) => Ok(Fed {
                used,
                body: self.held.take_whole(),
            }),
            Err(fault) => {
                self.too_long = matches!(fault, FeedFault::TooLong);
                Err(fault)
            }
        }
    }
}
