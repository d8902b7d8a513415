//! Memberships.
ghost use Rattle.std.specs.Prelude.{◌≡◌};

use crate::fault::OutOfMemory;
use crate::group::Group;
use crate::items::TryClone;
use crate::pid::Pid;
use std::alloc::Global;

/// The most rows that a message may bring, or a part of one, repeats included. A node has no more
/// in a scope whose rows go over links of version 1.
pub const MAX_ROWS: usize = 4096;

/// One membership of a process in a group.
#[derive(Debug, PartialEq, Eq, PartialOrd, Ord, Hash)]
pub struct Row {
    pub group: Group,
    pub pid: Pid,
}

// What lets a row go is proved once, here.
impl Drop for Row {
    fn drop(self) {
        let Row { group: _, pid: _ } = self;
    }
}

impl Row {
    /// The group of a row whose process isn't needed any more.
    pub fn into_group(self) -> Group
        ensures { result ≡ self.group }
    {
        let Row { group, pid: _ } = self;
        group
    }
}

impl TryClone for Row {
    fn try_clone(&self, alloc: Global) -> Result<Row, OutOfMemory> {
        Ok(Row {
            group: self.group.try_clone(alloc)?,
            pid: self.pid.try_clone(alloc)?,
        })
    }
}
