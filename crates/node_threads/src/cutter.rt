//! Cuts the bytes of a link into bodies: those of the handshake, then those of link messages.
ghost use Rattle.std.specs.Prelude.{◌≡◌, [], false, IfOk};
ghost use Rattle.node_threads.specs.declared.cutter.Cutter.TheVariants as cutters;
ghost use Rattle.node_threads.specs.Cutting.{is_done, CutsOff};

use handshake_frames::{Fed, HsReader};
use link_frames::{FeedFault, LinkReader};
use std::alloc::Global;

/// The reader of a link's bytes, which changes at the frame that is answered `Up`.
#[derive(Drop)]
pub(crate) enum Cutter {
    Handshake(HsReader),
    Messages(LinkReader),
}

impl Cutter {
    /// Of a link that has just opened.
    pub(crate) fn new(alloc: Global) -> Cutter
        ensures { result ≡ cutters.Handshake [] }
    {
        Cutter::Handshake(HsReader::new(alloc))
    }

    /// Of a link that has just come up.
    pub(crate) fn of_messages(alloc: Global) -> Cutter
        ensures { result ≡ cutters.Messages (record { rest = []; too_long = false }) }
    {
        Cutter::Messages(LinkReader::new(alloc))
    }

    /// Whether the handshake is done.
    pub(crate) fn is_done(&self) -> bool
        ensures { result ≡ is_done self.now }
    {
        matches!(self, Cutter::Messages(_))
    }

    /// Uses the piece up to the end of one body at most. The caller feeds what is left of it again.
    pub(crate) fn feed(&mut self, piece: &[u8]) -> Result<Fed, FeedFault>
        ensures { IfOk result (λ fed. CutsOff self.old piece.now fed.used fed.body self.new) }
    {
        match self {
            Cutter::Handshake(reader) => match reader.feed(piece) {
                Ok(fed) => Ok(fed),
                Err(_) => Err(FeedFault::OutOfMemory),
            },
            Cutter::Messages(reader) => reader.feed(piece),
        }
    }
}
