//! Texts, processes and rows of them. What can't be made for want of memory is None.
use dist_types::{Cookie, Group, NodeName, Pid, Row, Scope};
use std::alloc::Global;

// What reads a text has no contract, so that a check doesn't compute with the text.
pub fn name_of(alloc: Global, text: &[u8]) -> Option<NodeName> {
    NodeName::parse(alloc, text).ok()
}

pub fn scope_of(alloc: Global, text: &[u8]) -> Option<Scope> {
    Scope::parse(alloc, text).ok()
}

pub fn group_of(alloc: Global, text: &[u8]) -> Option<Group> {
    Group::parse(alloc, text).ok()
}

pub fn cookie_of(alloc: Global, text: &[u8]) -> Option<Cookie> {
    Cookie::parse(alloc, text).ok()
}

/// A process by its node.
#[derive(Clone, Copy)]
pub struct Process {
    pub node: &'static [u8],
    pub creation: u32,
    pub number: u64,
}

pub fn pid_of(alloc: Global, process: &Process) -> Option<Pid> {
    match name_of(alloc, process.node) {
        Some(node) => Some(Pid {
            node,
            creation: process.creation,
            number: process.number,
        }),
        None => None,
    }
}

/// The process in this group.
pub fn row_of(alloc: Global, group: &[u8], process: &Process) -> Option<Row> {
    let pid = pid_of(alloc, process)?;
    match group_of(alloc, group) {
        Some(group) => Some(Row { group, pid }),
        None => None,
    }
}

/// A list of what was made alone.
pub fn alone<T: Drop>(alloc: Global, made: Option<T>) -> Option<Vec<T>> {
    let mut list = Vec::new(alloc);
    list.push(made?).ok()?;
    Some(list)
}
