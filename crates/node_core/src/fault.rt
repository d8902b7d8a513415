//! Why there is no answer, and no node.
ghost use Rattle.std.specs.Prelude.{◌≡◌};
ghost use Rattle.node_core.specs.declared.fault.CoreFault.TheVariants as faults;
ghost use Rattle.node_core.specs.declared.fault.OpenFault.TheVariants as open_faults;
ghost use Rattle.node_core.specs.Unentered.{unentered};

use dist_types::OutOfMemory;
use policy_audit::{AuditFault, Rule};
use std::alloc::AllocError;
use thiserror::Error;

/// Why a step has no reply.
#[derive(Clone, Copy, Debug, PartialEq, Eq, Error)]
pub enum CoreFault {
    /// The first rule that the event breaks. The refusal is an entry of its own, unless the audit
    /// is full.
    #[error("refused: {0}")]
    Refused(Rule),
    /// Nothing was entered, and nothing has changed.
    #[error("out of memory")]
    OutOfMemory,
}

/// Why there is no node.
#[derive(Clone, Copy, Debug, PartialEq, Eq, Error)]
pub enum OpenFault {
    #[error("an audit needs room for one entry at least")]
    BadLimit,
    #[error("the version of link messages must be 1 or 2")]
    BadLinks,
    #[error("out of memory")]
    OutOfMemory,
}

impl From<OutOfMemory> for CoreFault {
    ghost from_gives = { λ _ fault. fault ≡ faults.OutOfMemory };

    fn from(_error: OutOfMemory) -> CoreFault {
        CoreFault::OutOfMemory
    }
}

impl From<AllocError> for CoreFault {
    ghost from_gives = { λ _ fault. fault ≡ faults.OutOfMemory };

    fn from(_error: AllocError) -> CoreFault {
        CoreFault::OutOfMemory
    }
}

impl From<AuditFault> for CoreFault {
    ghost from_gives = { λ error fault. fault ≡ unentered error };

    fn from(error: AuditFault) -> CoreFault {
        match error {
            AuditFault::EntriesFull => CoreFault::Refused(Rule::EntriesFull),
            AuditFault::OutOfMemory => CoreFault::OutOfMemory,
        }
    }
}

impl From<OutOfMemory> for OpenFault {
    ghost from_gives = { λ _ fault. fault ≡ open_faults.OutOfMemory };

    fn from(_error: OutOfMemory) -> OpenFault {
        OpenFault::OutOfMemory
    }
}
