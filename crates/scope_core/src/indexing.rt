//! What keeps the nodes of each group as the rows have them.
ghost use Rattle.std.specs.Prelude.{◌≡◌, ◌≤◌, ◌&&◌, ℕ, Bool, false, List, not, cond, nat_lt, IfOk, OnOk, OnErr};
ghost use Rattle.dist_types.specs.Listing.{Rises, Ascends, same, how_many, mentions};
ghost use Rattle.dist_types.specs.Order.{text_cmp, pid_cmp};
ghost use Rattle.dist_types.specs.declared.pid.Pid.{Pid};
ghost use Rattle.scope_core.specs.GroupNodes.{times_named};
ghost use Rattle.scope_core.specs.Table.{tally, is_row};
ghost use Rattle.scope_core.specs.Indexed.{has_members, is_named};

use crate::group_nodes::GroupNodes;
use crate::hashed_rows::HashedRows;
use crate::node_lists::NodeLists;
use dist_types::{Group, GroupChange, NodeName, OutOfMemory, Pid};
use std::alloc::Global;

/// The node is one of each changed group's. Where memory is refused, of some of them.
pub fn put_all(
    index: &mut GroupNodes,
    changes: &[GroupChange],
    node: &NodeName,
) -> Result<(), OutOfMemory>
    ensures ok { OnOk result ((g n : List ℕ) → times_named index.new g n
        ≡ cond (same node.now n && is_named g changes.now) 1 (times_named index.old g n)) }
    ensures some { OnErr result ((g n : List ℕ) → (b : Bool)
        × (times_named index.new g n ≡ cond (b && (same node.now n && is_named g changes.now)) 1
        (times_named index.old g n))) }
{
    for change in changes {
        index.put(&change.group, node)?;
    }
    Ok(())
}

/// The node is none of a group's in which it has no process.
pub fn settle(lists: &NodeLists, index: &mut GroupNodes, group: &Group, node: &NodeName)
    ensures { (g n : List ℕ) → times_named index.new g n
        ≡ cond ((same group.now g && same node.now n) && not (has_members g n lists.now)) 0
        (times_named index.old g n) }
{
    if !lists.has_group(node, group) {
        index.take(group, node);
    }
}

/// The node is none of those of the changed groups in which it has no process.
pub fn settle_all(
    lists: &NodeLists,
    index: &mut GroupNodes,
    changes: &[GroupChange],
    node: &NodeName,
)
    ensures { (g n : List ℕ) → times_named index.new g n
        ≡ cond ((is_named g changes.now && same node.now n) && not (has_members g n lists.now)) 0
        (times_named index.old g n) }
{
    for change in changes {
        settle(lists, index, &change.group, node);
    }
}

/// The node, whose rows these are, is no group's any more of which they are.
pub fn unname(index: &mut GroupNodes, rows: &HashedRows, node: &NodeName)
    ensures others { (g n : List ℕ) → same node.now n ≡ false → times_named index.new g n
        ≡ times_named index.old g n }
    ensures own { (g : List ℕ) → times_named index.new g node.now
        ≤ cond (has_members g rows.now.node rows.now.rows) 0 (times_named index.old g node.now) }
{
    for (group, _) in rows.groups().iter() {
        index.take(group, node);
    }
}

/// The processes of a group in order, node by node: names are compared first.
pub fn gathered(
    alloc: Global,
    lists: &NodeLists,
    nodes: &[NodeName],
    group: &Group,
) -> Result<Vec<Pid>, OutOfMemory>
    requires { Rises text_cmp nodes.now }
    ensures counts { IfOk result (λ pids. (p : Pid)
        → mentions p pids.items ≡ cond (nat_lt 0 (how_many (λ m. same m p.node) nodes.now))
        (tally (is_row group.now p) lists.now) 0) }
    ensures ascends { IfOk result (λ pids. Ascends pid_cmp pids.items) }
{
    let mut pids = Vec::with_capacity(alloc, nodes.len())?;
    for node in nodes {
        lists.push_members(&mut pids, node, group)?;
    }
    Ok(pids)
}
