//! Why bytes are refused, and want of memory.
ghost use Rattle.std.specs.Prelude.{◌≡◌};
ghost use Rattle.link_frames.specs.declared.fault.MessageFault.TheVariants as faults;
ghost use Rattle.link_frames.specs.declared.fault.FeedFault.TheVariants as feed_faults;
ghost use Rattle.link_frames.specs.Fault.{fault_of};

use dist_types::{OutOfMemory, TextFault};
use std::alloc::{AllocError, AllocFailed};
use thiserror::Error;

/// Why a body is no message.
#[derive(Clone, Copy, Debug, PartialEq, Eq, Error)]
pub enum MessageFault {
    #[error("the bytes are no message")]
    BadFrame,
    #[error("out of memory")]
    OutOfMemory,
}

/// Why a piece of a stream isn't used.
#[derive(Clone, Copy, Debug, PartialEq, Eq, Error)]
pub enum FeedFault {
    #[error("a body is longer than 4194304 bytes")]
    TooLong,
    #[error("out of memory")]
    OutOfMemory,
}

impl From<TextFault> for MessageFault {
    ghost from_gives = { λ text fault. fault ≡ fault_of text };

    fn from(fault: TextFault) -> MessageFault {
        match fault {
            TextFault::OutOfMemory => MessageFault::OutOfMemory,
            _ => MessageFault::BadFrame,
        }
    }
}

impl From<OutOfMemory> for MessageFault {
    ghost from_gives = { λ _ fault. fault ≡ faults.OutOfMemory };

    fn from(_error: OutOfMemory) -> MessageFault {
        MessageFault::OutOfMemory
    }
}

impl From<AllocError> for MessageFault {
    ghost from_gives = { λ _ fault. fault ≡ faults.OutOfMemory };

    fn from(_error: AllocError) -> MessageFault {
        MessageFault::OutOfMemory
    }
}

impl<T: Drop> From<AllocFailed<T>> for MessageFault {
    ghost from_gives = { λ _ fault. fault ≡ faults.OutOfMemory };

    fn from(_error: AllocFailed<T>) -> MessageFault {
        MessageFault::OutOfMemory
    }
}

impl From<OutOfMemory> for FeedFault {
    ghost from_gives = { λ _ fault. fault ≡ feed_faults.OutOfMemory };

    fn from(_error: OutOfMemory) -> FeedFault {
        FeedFault::OutOfMemory
    }
}

impl From<AllocError> for FeedFault {
    ghost from_gives = { λ _ fault. fault ≡ feed_faults.OutOfMemory };

    fn from(_error: AllocError) -> FeedFault {
        FeedFault::OutOfMemory
    }
}
