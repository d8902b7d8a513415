//! Why bytes say nothing that is heard, and want of memory.
ghost use Rattle.std.specs.Prelude.{◌≡◌};
ghost use Rattle.otp_edge.specs.declared.fault.HearFault.TheVariants as faults;
ghost use Rattle.otp_edge.specs.Fault.{fault_of};

use dist_types::{OutOfMemory, TextFault};
use std::alloc::{AllocError, AllocFailed};
use thiserror::Error;

/// Why bytes are no list of processes, no groups, or no message of `pg`.
#[derive(Clone, Copy, Debug, PartialEq, Eq, Error)]
pub enum HearFault {
    /// They spell none.
    #[error("no message of pg")]
    NoMessage,
    /// They speak of more than 65,536 rows.
    #[error("more than 65536 rows")]
    TooManyRows,
    #[error("out of memory")]
    OutOfMemory,
}

impl From<OutOfMemory> for HearFault {
    ghost from_gives = { λ _ fault. fault ≡ faults.OutOfMemory };

    fn from(_error: OutOfMemory) -> HearFault {
        HearFault::OutOfMemory
    }
}

impl From<AllocError> for HearFault {
    ghost from_gives = { λ _ fault. fault ≡ faults.OutOfMemory };

    fn from(_error: AllocError) -> HearFault {
        HearFault::OutOfMemory
    }
}

impl<T: Drop> From<AllocFailed<T>> for HearFault {
    ghost from_gives = { λ _ fault. fault ≡ faults.OutOfMemory };

    fn from(_error: AllocFailed<T>) -> HearFault {
        HearFault::OutOfMemory
    }
}

impl From<TextFault> for HearFault {
    ghost from_gives = { λ text fault. fault ≡ fault_of text };

    fn from(fault: TextFault) -> HearFault {
        match fault {
            TextFault::OutOfMemory => HearFault::OutOfMemory,
            _ => HearFault::NoMessage,
        }
    }
}
