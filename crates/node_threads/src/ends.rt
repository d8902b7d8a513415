//! Why the workers of a link stop, and who is told of their work.
ghost use Rattle.std.specs.Prelude.{◌≡◌, ⊤};
ghost use Rattle.std.specs.Io.KnownBytes.{Keeps};
ghost use Rattle.node_threads.specs.Ends.{read_end_of_feed, reader_gives_up, writer_gives_up, read_end_after, write_end_after};

use crate::retreat::RetreatStep;
use link_frames::FeedFault;
use policy_audit::Rule;
use std::io::Write;
use std::net::{Shutdown, TcpStream};

/// Why the reader of a link stopped.
#[derive(Clone, Copy, Debug, PartialEq, Eq)]
pub enum ReadEnd {
    /// The bytes have ended.
    Closed,
    /// A frame of the handshake was refused.
    Refused(Rule),
    /// The node has the link no more.
    Gone,
    /// The audit is full.
    EntriesFull,
    /// Another node made the pass.
    StrangePass,
    /// A body is longer than a reader takes.
    TooLong,
    /// A read failed.
    ReadFault,
    /// Memory was wanting, and the link was given up.
    Memory,
    /// Memory was wanting even for that.
    StuckLink,
}

/// Why the writer of a link stopped.
#[derive(Clone, Copy, Debug, PartialEq, Eq)]
pub enum WriteEnd {
    /// The node has the link no more.
    Gone,
    /// The audit is full.
    EntriesFull,
    /// Another node made the pass.
    StrangePass,
    /// A write failed.
    WriteFault,
    /// Memory was wanting, and the link was given up.
    Memory,
    /// Memory was wanting even for that, at this link or at another.
    StuckLink,
}

impl ReadEnd {
    /// Whether a reader that stops so gives its link up: it stops for a reason of its own.
    pub(crate) fn gives_up(self) -> bool
        ensures { result ≡ reader_gives_up self }
    {
        matches!(
            self,
            ReadEnd::Closed | ReadEnd::TooLong | ReadEnd::ReadFault | ReadEnd::Memory
        )
    }

    /// What a reader that stops so tells, where giving its link up came to this.
    pub(crate) fn after(self, step: RetreatStep) -> ReadEnd
        ensures { result ≡ read_end_after step self }
    {
        match step {
            RetreatStep::Stuck => ReadEnd::StuckLink,
            RetreatStep::Full => ReadEnd::EntriesFull,
            RetreatStep::Again | RetreatStep::Settled => self,
        }
    }
}

impl WriteEnd {
    /// Whether a writer that stops so gives its link up.
    pub(crate) fn gives_up(self) -> bool
        ensures { result ≡ writer_gives_up self }
    {
        matches!(self, WriteEnd::WriteFault | WriteEnd::Memory)
    }

    /// What a writer that stops so tells, where giving its link up came to this.
    pub(crate) fn after(self, step: RetreatStep) -> WriteEnd
        ensures { result ≡ write_end_after step self }
    {
        match step {
            RetreatStep::Stuck => WriteEnd::StuckLink,
            RetreatStep::Full => WriteEnd::EntriesFull,
            RetreatStep::Again | RetreatStep::Settled => self,
        }
    }
}

/// Is told of each read and of each call of a reader. No lock is held then.
pub trait Gate {
    /// The reader of that link is about to read.
    fn reading(&self, _link: u32) {}

    /// A call of that link's reader was answered.
    fn answered(&self, _link: u32) {}

    /// The link has come up with the frame that was answered last.
    fn came_up(&self, _link: u32) {}
}

/// A gate that holds nobody.
pub struct OpenGate;

impl Gate for OpenGate {}

/// What a writer writes to, and hangs up at its end.
pub trait LinkOut: Write {
    // What hanging up makes true of the output.
    ghost is_hung_up: { Self → Type 0 } = { λ _. ⊤ };

    /// Ends the link in both directions, so that its reader comes to an end, too.
    fn hang_up(&mut self)
        ensures bytes { Keeps (Self.contents self.old) (Self.contents self.new) }
        ensures hung_up { is_hung_up self.new };
}

impl LinkOut for TcpStream {
    fn hang_up(&mut self) {
        // A socket that can't be shut down has ended already.
        self.shutdown(Shutdown::Both).ok();
    }
}

impl From<FeedFault> for ReadEnd {
    ghost from_gives = { λ fault end. end ≡ read_end_of_feed fault };

    fn from(fault: FeedFault) -> ReadEnd {
        match fault {
            FeedFault::TooLong => ReadEnd::TooLong,
            FeedFault::OutOfMemory => ReadEnd::Memory,
        }
    }
}
