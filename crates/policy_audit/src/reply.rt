//! What an accepted event is answered.
use crate::out_frame::OutFrames;
use dist_types::{Group, NodeName, OutOfMemory, Pid, Pids, Shared, TryClone};
use std::alloc::Global;

/// Processes of a group, ascending, each as often as it joined.
pub type Members = Shared<Pid>;

/// Groups, ascending.
pub type Groups = Shared<Group>;

/// Groups with their members, ascending by group.
pub type Contents = Shared<GroupPids>;

/// What a monitor tells, in the order in which it happened.
pub type Updates = Shared<Update>;

/// A group with its members, ascending, each as often as it joined.
#[derive(Debug, PartialEq, Eq)]
pub struct GroupPids {
    pub group: Group,
    pub pids: Pids,
}

impl Drop for GroupPids {
    fn drop(self) {
        let GroupPids { group: _, pids: _ } = self;
    }
}

/// Processes, ascending, that left a group or joined it.
#[derive(Debug, PartialEq, Eq)]
pub struct Update {
    pub group: Group,
    /// Whether they left.
    pub leave: bool,
    pub pids: Pids,
}

impl Drop for Update {
    fn drop(self) {
        let Update {
            group: _,
            leave: _,
            pids: _,
        } = self;
    }
}

/// What an accepted event is answered.
#[derive(Debug, Drop, PartialEq, Eq)]
pub enum Reply {
    Done,
    /// The new process.
    Pid(Pid),
    /// The number of the new link.
    Link(u32),
    /// The link is up.
    Up {
        peer: NodeName,
        creation: u32,
        visible: bool,
    },
    Pids(Members),
    Groups(Groups),
    /// The number of the monitor, and the members of its group.
    Ref {
        number: u32,
        pids: Members,
    },
    /// The number of the monitor, and the groups of its scope.
    ScopeRef {
        number: u32,
        groups: Contents,
    },
    Updates(Updates),
    /// The frames that waited for the link.
    Out(OutFrames),
}

impl TryClone for Reply {
    fn try_clone(&self, alloc: Global) -> Result<Reply, OutOfMemory> {
        Ok(match self {
            Self::Done => Self::Done,
            Self::Pid(pid) => Self::Pid(pid.try_clone(alloc)?),
            Self::Link(number) => Self::Link(*number),
            Self::Up {
                peer,
                creation,
                visible,
            } => Self::Up {
                peer: peer.try_clone(alloc)?,
                creation: *creation,
                visible: *visible,
            },
            Self::Pids(pids) => Self::Pids(pids.try_clone(alloc)?),
            Self::Groups(groups) => Self::Groups(groups.try_clone(alloc)?),
            Self::Ref { number, pids } => Self::Ref {
                number: *number,
                pids: pids.try_clone(alloc)?,
            },
            Self::ScopeRef { number, groups } => Self::ScopeRef {
                number: *number,
                groups: groups.try_clone(alloc)?,
            },
            Self::Updates(updates) => Self::Updates(updates.try_clone(alloc)?),
            Self::Out(frames) => Self::Out(frames.try_clone(alloc)?),
        })
    }
}
