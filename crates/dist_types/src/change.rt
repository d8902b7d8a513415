//! What changed in a group.
use crate::fault::OutOfMemory;
use crate::group::Group;
use crate::items::{Items, TryClone};
use crate::pid::Pid;
use std::alloc::Global;

/// Processes, each as often as it is meant.
pub type Pids = Items<Pid>;

/// The processes that left a group and those that joined it, each list ascending.
#[derive(Debug, PartialEq, Eq)]
pub struct GroupChange {
    pub group: Group,
    pub left: Pids,
    pub joined: Pids,
}

impl Drop for GroupChange {
    fn drop(self) {
        let GroupChange {
            group: _,
            left: _,
            joined: _,
        } = self;
    }
}

impl TryClone for GroupChange {
    fn try_clone(&self, alloc: Global) -> Result<GroupChange, OutOfMemory> {
        Ok(GroupChange {
            group: self.group.try_clone(alloc)?,
            left: self.left.try_clone(alloc)?,
            joined: self.joined.try_clone(alloc)?,
        })
    }
}
