//! Why a change of the rules is refused.
ghost use Rattle.std.specs.Prelude.{◌≡◌};
ghost use Rattle.admission_rules.specs.declared.fault.CookieFault.TheVariants as cookie_faults;
ghost use Rattle.admission_rules.specs.declared.fault.AllowFault.TheVariants as allow_faults;

use dist_types::OutOfMemory;
use std::alloc::AllocFailed;
use thiserror::Error;

/// Why a cookie for a peer is refused. The cookies are as before.
#[derive(Clone, Copy, Debug, PartialEq, Eq, Error)]
pub enum CookieFault {
    #[error("more than 1024 peers would have a cookie of their own")]
    CookiesFull,
    #[error("out of memory")]
    OutOfMemory,
}

/// Why a list of names is refused. None of it is allowed.
#[derive(Clone, Copy, Debug, PartialEq, Eq, Error)]
pub enum AllowFault {
    #[error("more than 1024 names would be allowed")]
    AllowFull,
    #[error("out of memory")]
    OutOfMemory,
}

impl<T: Drop> From<AllocFailed<T>> for CookieFault {
    ghost from_gives = { λ _ fault. fault ≡ cookie_faults.OutOfMemory };

    fn from(_error: AllocFailed<T>) -> CookieFault {
        CookieFault::OutOfMemory
    }
}

impl From<OutOfMemory> for AllowFault {
    ghost from_gives = { λ _ fault. fault ≡ allow_faults.OutOfMemory };

    fn from(_error: OutOfMemory) -> AllowFault {
        AllowFault::OutOfMemory
    }
}
