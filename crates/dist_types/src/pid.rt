//! Processes.
use crate::fault::OutOfMemory;
use crate::items::TryClone;
use crate::node_name::NodeName;
use std::alloc::Global;

/// A process, by the name of its node, the creation of that node and its number there.
#[derive(Debug, PartialEq, Eq, PartialOrd, Ord, Hash)]
pub struct Pid {
    pub node: NodeName,
    pub creation: u32,
    pub number: u64,
}

impl Drop for Pid {
    fn drop(self) {
        let Pid {
            node: _,
            creation: _,
            number: _,
        } = self;
    }
}

impl TryClone for Pid {
    fn try_clone(&self, alloc: Global) -> Result<Pid, OutOfMemory> {
        Ok(Pid {
            node: self.node.try_clone(alloc)?,
            creation: self.creation,
            number: self.number,
        })
    }
}
