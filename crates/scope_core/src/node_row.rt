//! Rows of a node that is known.
ghost use Rattle.std.specs.Prelude.{◌≡◌};
ghost use Rattle.std.specs.Cmp.Rules.{hashing};
ghost use Rattle.std.proofs.Common.{rules};
ghost use Rattle.scope_core.specs.HashedRows.{key_of, same_node_row};

use crate::process_key::ProcessKey;
use dist_types::{Group, Pid};
use indexmap::Equivalent;

/// A row without the name of its node.
#[derive(Debug, PartialEq, Eq, Hash, Drop)]
pub struct NodeRow {
    pub group: Group,
    pub process: ProcessKey,
}

/// The same, to look it up without building it.
#[derive(Clone, Copy, PartialEq, Eq, Hash)]
pub struct NodeRowKey<'a> {
    pub group: &'a Group,
    pub process: ProcessKey,
}

impl<'a> NodeRowKey<'a> {
    /// That of a process in a group.
    pub fn of(group: &'a Group, pid: &Pid) -> NodeRowKey<'a>
        ensures group { result.group.now ≡ group.now }
        ensures process { result.process ≡ key_of pid.now }
    {
        NodeRowKey {
            group,
            process: ProcessKey::of(pid),
        }
    }
}

impl Equivalent<NodeRow> for NodeRowKey<'_> {
    ghost equivalent = { λ q row.
        same_node_row (record { group = q.group.now; process = q.process }) row };

    ghost respects_hash = { Prim.search (hashing, rules) };

    ghost respects_eq = { Prim.search (hashing, rules) };

    fn equivalent(&self, row: &NodeRow) -> bool {
        *self.group == row.group && self.process == row.process
    }
}
