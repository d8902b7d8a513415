//! Rows of one group, as a process of a scope is told them.
use dist_types::Row;

/// What is told of one group.
#[derive(Debug, Drop)]
pub struct Told<'a> {
    /// The term of the group.
    pub group: Vec<u8>,
    /// Its rows. Only their processes are told.
    pub rows: &'a [Row],
}
