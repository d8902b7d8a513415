//! Streams of bodies before the handshake is done, each body behind its length of 2 bytes
//! (Distribution Protocol, Distribution Handshake).
ghost use Rattle.std.specs.Prelude.{◌≡◌, [], IfOk, OnErr};
ghost use Rattle.std.specs.Int.{w16};
ghost use Rattle.handshake_frames.specs.Stream.{IsFed};

use crate::held::Held;
use dist_types::{Body, OutOfMemory};
use std::alloc::Global;
use std::marker::Model;

/// What a piece brought: how many of its bytes were used, and the body that ended there, if one
/// did.
#[derive(Debug, Drop)]
pub struct Fed {
    pub used: usize,
    pub body: Option<Body>,
}

/// Cuts a stream into bodies. Contracts see it as the bytes that it has used since its last body.
#[derive(Debug)]
pub struct HsReader {
    alloc: Global,
    held: Held,
}

impl Drop for HsReader {
    fn drop(self) {
        let HsReader { alloc: _, held: _ } = self;
    }
}

impl Model for HsReader {
    ghost use Rattle.std.specs.Prelude.{List, ℕ};
    ghost use Rattle.handshake_frames.specs.Held.{held_bytes, IsHeld};

    ghost Value = { List ℕ };

    ghost view = { λ reader. held_bytes reader.held };

    ghost invariant = { λ reader. IsHeld reader.held };
}

impl HsReader {
    pub fn new(alloc: Global) -> HsReader
        ensures { result ≡ [] }
    {
        HsReader {
            alloc,
            held: Held::Length(None),
        }
    }

    /// Uses the piece up to the end of one body at most. The caller feeds what is left of it again.
    pub fn feed(&mut self, piece: &[u8]) -> Result<Fed, OutOfMemory>
        ensures ok { IfOk result (λ fed. IsFed w16 self.old piece.now fed.used fed.body self.new) }
        ensures same { OnErr result (self.new ≡ self.old) }
    {
        let used = self.held.take(self.alloc, piece)?;
        Ok(Fed {
            used,
            body: self.held.take_whole(),
        })
    }
}
