//! Why a call changed nothing.
ghost use Rattle.std.specs.Prelude.{◌≡◌};
ghost use Rattle.scope_core.specs.declared.fault.TableFault.TheVariants as faults;

use dist_types::OutOfMemory;
use std::alloc::AllocError;
use thiserror::Error;

/// Why a call changed nothing.
#[derive(Clone, Copy, Debug, PartialEq, Eq, Error)]
pub enum TableFault {
    #[error("the node would have more rows than it may")]
    RowsFull,
    #[error("no process of the list is in the group")]
    NotJoined,
    #[error("a row of the list is not in the table as often")]
    NotListed,
    #[error("out of memory")]
    OutOfMemory,
}

impl From<OutOfMemory> for TableFault {
    ghost from_gives = { λ _ fault. fault ≡ faults.OutOfMemory };

    fn from(_error: OutOfMemory) -> TableFault {
        TableFault::OutOfMemory
    }
}

impl From<AllocError> for TableFault {
    ghost from_gives = { λ _ fault. fault ≡ faults.OutOfMemory };

    fn from(_error: AllocError) -> TableFault {
        TableFault::OutOfMemory
    }
}
