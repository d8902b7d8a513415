//! What the audit keeps of an event.
ghost use Rattle.std.specs.Prelude.{◌≡◌};
ghost use Rattle.policy_audit.specs.Log.{changes_rows};

use crate::change::Changes;
use crate::event::Event;
use crate::reply::Reply;
use crate::rule::Rule;
use dist_types::{OutOfMemory, TryClone};
use std::alloc::Global;

/// How an event was judged.
#[derive(Debug, Drop, PartialEq, Eq)]
pub enum Verdict {
    Accepted(Reply),
    /// The first rule that the event broke.
    Refused(Rule),
}

impl TryClone for Verdict {
    fn try_clone(&self, alloc: Global) -> Result<Verdict, OutOfMemory> {
        Ok(match self {
            Self::Accepted(reply) => Self::Accepted(reply.try_clone(alloc)?),
            Self::Refused(rule) => Self::Refused(*rule),
        })
    }
}

/// An event with its verdict.
#[derive(Debug, Drop)]
pub struct Entry {
    /// The place in the audit, from 1.
    pub number: u32,
    /// The caller.
    pub seat: u32,
    pub event: Event,
    pub verdict: Verdict,
    /// What the entry changed in all listings.
    pub change: Changes,
}

impl Entry {
    pub fn has_changes(&self) -> bool
        ensures { result ≡ changes_rows self.now }
    {
        !self.change.as_slice().is_empty()
    }
}
