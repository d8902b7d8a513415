//! One monitor.
use dist_types::{Group, Scope};
use policy_audit::Place;

/// What a seat watches, and how far it has been told.
#[derive(Debug, Drop)]
pub struct Monitor {
    pub seat: u32,
    pub scope: Scope,
    /// One group of the scope, or all of them.
    pub group: Option<Group>,
    /// It has seen the entries of the audit before it.
    pub place: Place,
}
