//! A body as its bytes come.
ghost use Rattle.std.specs.Prelude.{◌≡◌, [], IfOk, OnErr, IsTrue, ◌↔◌};
ghost use Rattle.handshake_frames.specs.BodySoFar.{Adds};

use dist_types::{Body, OutOfMemory};
use std::alloc::Global;
use std::marker::Model;

/// A body of which bytes may be missing. Room is asked for as bytes come, and never by the length,
/// which a stranger names.
#[derive(Debug, Drop)]
pub struct BodySoFar {
    body: Body,
    /// How many bytes are missing.
    missing: usize,
}

impl Model for BodySoFar {
    ghost use Rattle.handshake_frames.specs.BodySoFar.{BodySoFar};

    ghost Value = { BodySoFar };

    ghost view = { λ so_far. record { bytes = so_far.body; missing = so_far.missing } };
}

impl BodySoFar {
    /// A body of that length, of which no byte has come. What the body needs beside its bytes is
    /// made here, so handing it out takes no memory.
    pub fn new(alloc: Global, len: usize) -> Result<BodySoFar, OutOfMemory>
        ensures { IfOk result (λ so_far. so_far ≡ record { bytes = []; missing = len }) }
    {
        Ok(BodySoFar {
            body: Body::new(alloc)?,
            missing: len,
        })
    }

    /// Takes bytes of the piece up to the body's end: how many.
    pub fn take(&mut self, piece: &[u8]) -> Result<usize, OutOfMemory>
        ensures ok { IfOk result (λ used. Adds self.old piece.now used self.new) }
        ensures same { OnErr result (self.new ≡ self.old) }
    {
        let used = piece.len().min(self.missing);
        self.body.extend_from_slice(&piece[..used])?;
        self.missing -= used;
        Ok(used)
    }

    /// Whether no byte is missing.
    pub fn is_whole(&self) -> bool
        ensures { IsTrue result ↔ (self.now.missing ≡ 0) }
    {
        self.missing == 0
    }

    /// The bytes that have come.
    pub fn into_body(self) -> Body
        ensures { result ≡ self.bytes }
    {
        let BodySoFar { body, missing: _ } = self;
        body
    }
}
