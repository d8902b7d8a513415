//! Rows with their counts.
use dist_types::{Group, Row};

/// A row, and how often its process is in its group.
#[derive(Debug, Drop)]
pub struct Counted {
    pub row: Row,
    pub count: u32,
}

/// A group, and how often a known process is in it.
#[derive(Debug, Drop)]
pub struct Membership {
    pub group: Group,
    pub count: u32,
}

/// A process that was taken out of one of its groups.
#[derive(Debug, Drop)]
pub struct Gone {
    pub from: Membership,
    /// Whether its node has none left in the group.
    pub ends_group: bool,
    /// Whether it has no other group.
    pub ends_process: bool,
}
