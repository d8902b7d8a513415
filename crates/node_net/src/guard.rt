//! A guard against peers that hand a challenge of this node's own back to it (Distribution
//! Protocol, Distribution Handshake). The digest has no direction: who dials this node, and is
//! dialled by it, could else have it answer its own challenge.
use crate::lanes::Lanes;
use dist_types::OutOfMemory;
use handshake_frames::{Fed, HsReader, decode_challenge};
use std::alloc::Global;
use std::io::{self, ErrorKind};
use std::sync::Wait;

/// Looks through what comes of a link that this node has dialled, until it is up.
#[derive(Drop)]
pub(crate) struct ReflectionGuard {
    reader: HsReader,
}

impl ReflectionGuard {
    pub(crate) fn new(alloc: Global) -> ReflectionGuard {
        ReflectionGuard {
            reader: HsReader::new(alloc),
        }
    }

    /// Looks at what has come. An error where a challenge of this node's own has come back, which
    /// is counted.
    pub(crate) fn look<R: Wait>(
        &mut self,
        rt: &R,
        lanes: &Lanes<'_>,
        piece: &[u8],
    ) -> io::Result<()> {
        match self.finds(rt, lanes, piece) {
            Ok(false) => Ok(()),
            Ok(true) => {
                lanes.counts().reflection();
                Err(io::Error::from(ErrorKind::PermissionDenied))
            }
            Err(_) => Err(io::Error::from(ErrorKind::OutOfMemory)),
        }
    }

    /// Whether a challenge that ends in the piece is that of a link of this node.
    fn finds<R: Wait>(
        &mut self,
        rt: &R,
        lanes: &Lanes<'_>,
        piece: &[u8],
    ) -> Result<bool, OutOfMemory> {
        let mut left = piece;
        while !left.is_empty() {
            let Fed { used, body } = self.reader.feed(left)?;
            if let Some(body) = body
                && let Ok(frame) = decode_challenge(body.as_slice())
                && lanes.is_own_challenge(rt, frame.challenge)
            {
                return Ok(true);
            }
            (_, left) = left.split_at(used);
        }
        Ok(false)
    }
}
