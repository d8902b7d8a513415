//! The processes of one node, told apart by creation and number.
ghost use Rattle.std.specs.Prelude.{◌≡◌, IfOk};
ghost use Rattle.scope_core.specs.HashedRows.{key_of, pid_of};

use dist_types::{NodeName, OutOfMemory, Pid, TryClone};
use std::alloc::Global;

/// What tells a process from others of its node.
#[derive(Clone, Copy, Debug, PartialEq, Eq, PartialOrd, Ord, Hash)]
pub struct ProcessKey {
    pub creation: u32,
    pub number: u64,
}

impl ProcessKey {
    /// The key of a process.
    pub fn of(pid: &Pid) -> ProcessKey
        ensures { result ≡ key_of pid.now }
    {
        ProcessKey {
            creation: pid.creation,
            number: pid.number,
        }
    }

    /// The process of a node with this key.
    pub fn pid(self, alloc: Global, node: &NodeName) -> Result<Pid, OutOfMemory>
        ensures { IfOk result (λ pid. pid ≡ pid_of node.now self) }
    {
        Ok(Pid {
            node: node.try_clone(alloc)?,
            creation: self.creation,
            number: self.number,
        })
    }
}

impl TryClone for ProcessKey {
    fn try_clone(&self, _alloc: Global) -> Result<ProcessKey, OutOfMemory> {
        Ok(*self)
    }
}
