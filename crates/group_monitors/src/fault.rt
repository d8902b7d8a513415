//! Why a call changed nothing.
ghost use Rattle.std.specs.Prelude.{◌≡◌};
ghost use Rattle.group_monitors.specs.declared.fault.UpdatesFault.TheVariants as faults;

use dist_types::OutOfMemory;
use thiserror::Error;

/// The seat has no monitor of that number.
#[derive(Clone, Copy, Debug, PartialEq, Eq, Error)]
#[error("the seat has no monitor of that number")]
pub struct NoMonitor;

/// Why no updates are told.
#[derive(Clone, Copy, Debug, PartialEq, Eq, Error)]
pub enum UpdatesFault {
    #[error("the seat has no monitor of that number")]
    NoMonitor,
    #[error("out of memory")]
    OutOfMemory,
}

impl From<NoMonitor> for UpdatesFault {
    ghost from_gives = { λ _ fault. fault ≡ faults.NoMonitor };

    fn from(_error: NoMonitor) -> UpdatesFault {
        UpdatesFault::NoMonitor
    }
}

impl From<OutOfMemory> for UpdatesFault {
    ghost from_gives = { λ _ fault. fault ≡ faults.OutOfMemory };

    fn from(_error: OutOfMemory) -> UpdatesFault {
        UpdatesFault::OutOfMemory
    }
}
