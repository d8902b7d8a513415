//! Why EPMD can't be asked, or has no answer that helps.
ghost use Rattle.std.specs.Prelude.{◌≡◌};
ghost use Rattle.epmd.specs.declared.fault.EpmdFault.TheVariants as faults;

use dist_types::OutOfMemory;
use std::alloc::{AllocError, AllocFailed};
use thiserror::Error;

/// Why bytes are no answer that helps, or why nothing can be asked.
#[derive(Clone, Copy, Debug, PartialEq, Eq, Error)]
pub enum EpmdFault {
    /// What is asked for has a longer name than any node.
    #[error("a name of more than 255 bytes")]
    LongName,
    /// The answer begins as another one.
    #[error("no answer of EPMD")]
    NoAnswer,
    /// It ends before it is whole.
    #[error("an answer of EPMD that is cut short")]
    Short,
    /// No node of that name is registered; or, where one asks to be, its name isn't taken.
    #[error("EPMD doesn't have the name")]
    Refused,
    /// It speaks of another node.
    #[error("EPMD speaks of another name")]
    OtherName,
    /// The node speaks something else than the protocol of links over TCP.
    #[error("the node that EPMD has isn't reached by TCP")]
    OtherProtocol,
    /// The node doesn't know version 6 of the handshake.
    #[error("the node that EPMD has doesn't know version 6")]
    OldNode,
    #[error("out of memory")]
    OutOfMemory,
}

impl From<OutOfMemory> for EpmdFault {
    ghost from_gives = { λ _ fault. fault ≡ faults.OutOfMemory };

    fn from(_error: OutOfMemory) -> EpmdFault {
        EpmdFault::OutOfMemory
    }
}

impl From<AllocError> for EpmdFault {
    ghost from_gives = { λ _ fault. fault ≡ faults.OutOfMemory };

    fn from(_error: AllocError) -> EpmdFault {
        EpmdFault::OutOfMemory
    }
}

impl<T: Drop> From<AllocFailed<T>> for EpmdFault {
    ghost from_gives = { λ _ fault. fault ≡ faults.OutOfMemory };

    fn from(_error: AllocFailed<T>) -> EpmdFault {
        EpmdFault::OutOfMemory
    }
}
