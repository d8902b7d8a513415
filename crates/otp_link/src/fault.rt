//! Why a link with a stock node has to end.
ghost use Rattle.std.specs.Prelude.{◌≡◌};
ghost use Rattle.otp_link.specs.Fault.{fault_of};
ghost use Rattle.otp_link.specs.declared.fault.LinkFault.TheVariants as faults;

use dist_types::OutOfMemory;
use otp_edge::HearFault;
use std::alloc::{AllocError, AllocFailed};
use thiserror::Error;

/// Why a link with a stock node has to end.
#[derive(Clone, Copy, Debug, PartialEq, Eq, Error)]
pub enum LinkFault {
    /// The peer's Name or Challenge has no flags of a stock node.
    #[error("no node of Erlang/OTP")]
    NotStock,
    /// A body of the peer is none.
    #[error("no message of a node of Erlang/OTP")]
    NoMessage,
    /// It speaks of more rows than may be taken apart.
    #[error("more than 65536 rows")]
    TooManyRows,
    /// A body of more than 4,194,304 bytes goes to a scope, or to a name that is answered.
    #[error("a body of more than 4194304 bytes")]
    TooLong,
    #[error("out of memory")]
    OutOfMemory,
}

impl From<HearFault> for LinkFault {
    ghost from_gives = { λ heard fault. fault ≡ fault_of heard };

    fn from(fault: HearFault) -> LinkFault {
        match fault {
            HearFault::NoMessage => LinkFault::NoMessage,
            HearFault::TooManyRows => LinkFault::TooManyRows,
            HearFault::OutOfMemory => LinkFault::OutOfMemory,
        }
    }
}

impl From<OutOfMemory> for LinkFault {
    ghost from_gives = { λ _ fault. fault ≡ faults.OutOfMemory };

    fn from(_error: OutOfMemory) -> LinkFault {
        LinkFault::OutOfMemory
    }
}

impl From<AllocError> for LinkFault {
    ghost from_gives = { λ _ fault. fault ≡ faults.OutOfMemory };

    fn from(_error: AllocError) -> LinkFault {
        LinkFault::OutOfMemory
    }
}

impl<T: Drop> From<AllocFailed<T>> for LinkFault {
    ghost from_gives = { λ _ fault. fault ≡ faults.OutOfMemory };

    fn from(_error: AllocFailed<T>) -> LinkFault {
        LinkFault::OutOfMemory
    }
}
