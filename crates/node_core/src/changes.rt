//! What leaves the scopes.
ghost use Rattle.std.specs.Prelude.{◌≡◌, cond, length, IfOk};
ghost use Rattle.dist_types.specs.Listing.{same, mentions, IsRowListing};
ghost use Rattle.policy_audit.specs.Changes.{if_some};
ghost use Rattle.dist_types.specs.Difference.{IsDifference};
ghost use Rattle.scope_core.specs.Table.{count_of};
ghost use Rattle.scope_core.specs.Calls.{Counts};
ghost use Rattle.std.specs.List.{AllZip};
ghost use Rattle.node_core.specs.Parting.{count_but, ArePartings, HasParted, IsCutOff, rows_left};

use crate::fault::CoreFault;
use crate::running::Running;
use dist_types::{
    Group, GroupChange, Items, NodeName, OutOfMemory, Pid, Pids, Row, Scope, TryClone,
};
use policy_audit::Change;
use scope_core::ScopeTable;
use std::alloc::Global;
use std::marker::Model;

/// Whose rows leave, together.
#[derive(Clone, Copy)]
pub enum Leaving<'a> {
    /// A process's.
    Process(&'a Pid),
    /// A node's.
    Node(&'a NodeName),
    /// All.
    All,
}

/// What the leaving of these rows will change.
fn change_of(table: &ScopeTable, leaving: Leaving<'_>) -> Result<Vec<GroupChange>, OutOfMemory>
    ensures { IfOk result (λ groups. IsDifference (count_of table.now)
        (count_but leaving.entry table.now) groups.items) }
{
    match leaving {
        Leaving::Process(pid) => table.exit_change(pid),
        Leaving::Node(node) => table.drop_change(node),
        Leaving::All => table.clear_change(),
    }
}

/// These rows leave.
fn leave(table: &mut ScopeTable, leaving: Leaving<'_>)
    ensures { Counts table.old table.new (count_but leaving.entry table.old) }
{
    match leaving {
        Leaving::Process(pid) => table.exit(pid),
        Leaving::Node(node) => table.drop_peer(node),
        Leaving::All => table.clear(),
    }
}

/// What the leaving of these rows will change in each scope.
pub fn changes_of(
    alloc: Global,
    scopes: &[Running],
    leaving: Leaving<'_>,
) -> Result<Vec<Change>, OutOfMemory>
    ensures { IfOk result (λ changes. ArePartings (count_but leaving.entry) scopes.now
        changes.items) }
{
    let mut changes = Vec::new(alloc);
    for running in scopes {
        let groups = change_of(&running.table, leaving)?;
        if !groups.is_empty() {
            changes.push(Change {
                scope: running.scope.try_clone(alloc)?,
                groups: Items::of(groups),
            })?;
        }
    }
    changes.shrink_to_fit();
    Ok(changes)
}

/// These rows leave all scopes.
pub fn leave_all(scopes: &mut Vec<Running>, leaving: Leaving<'_>)
    ensures { AllZip (HasParted leaving.entry) scopes.old.items scopes.new.items }
{
    for running in scopes.iter_mut() {
        leave(&mut running.table, leaving);
    }
}

/// A link of a peer is gone, for one scope: nobody is heard or told over it, and the rows of the
/// peer leave.
pub fn cut_off(running: &mut Running, number: u32, peer: &NodeName)
    ensures { IsCutOff number peer.now running.old running.new }
{
    running.heard.retain(|link| *link != number);
    running.told.retain(|link| *link != number);
    running.table.drop_peer(peer);
}

/// A link of a peer is gone, for all scopes.
pub fn end_link(scopes: &mut Vec<Running>, number: u32, peer: &NodeName)
    ensures { AllZip (IsCutOff number peer.now) scopes.old.items scopes.new.items }
{
    for running in scopes.iter_mut() {
        cut_off(running, number, peer);
    }
}

/// Room for the change of one scope.
#[derive(Drop)]
pub struct ChangeRoom {
    scope: Scope,
    changes: Vec<Change>,
}

impl Model for ChangeRoom {
    ghost use Rattle.std.specs.Prelude.{◌≡◌, ◌<◌, ℕ, List, [], vec_len, vec_capacity};

    ghost Value = { List ℕ };

    ghost view = { λ room. room.scope };

    ghost invariant = { λ room. (room.changes.items ≡ [])
        × (vec_len room.changes < vec_capacity room.changes) };
}

impl ChangeRoom {
    /// Room for the change of this scope.
    pub fn new(alloc: Global, scope: Scope) -> Result<ChangeRoom, OutOfMemory>
        ensures { IfOk result (λ room. room ≡ scope) }
    {
        let changes = Vec::with_capacity(alloc, 1)?;
        Ok(ChangeRoom { scope, changes })
    }

    /// The change, if groups change.
    pub fn filled(self, groups: Vec<GroupChange>) -> Vec<Change>
        ensures { result.items ≡ if_some self groups.items }
    {
        let ChangeRoom { scope, mut changes } = self;
        if !groups.is_empty() {
            changes.push_reserved(Change {
                scope,
                groups: Items::of(groups),
            });
        }
        changes
    }
}

/// The rows that leave by these changes.
pub fn rows_left(alloc: Global, groups: &[GroupChange]) -> Result<Vec<Row>, OutOfMemory>
    ensures { IfOk result (λ rows. rows.items ≡ rows_left groups.now) }
{
    let mut rows = Vec::new(alloc);
    for change in groups {
        for pid in change.left.as_slice() {
            rows.push(Row {
                group: change.group.try_clone(alloc)?,
                pid: pid.try_clone(alloc)?,
            })?;
        }
    }
    Ok(rows)
}

/// The rows of processes in a group, ascending.
pub fn rows_of(alloc: Global, group: &Group, pids: &[Pid]) -> Result<Vec<Row>, OutOfMemory>
    ensures rows { IfOk result (λ rows.
        IsRowListing (λ g p. cond (same g group.now) (mentions p pids.now) 0) rows.items) }
    ensures length { IfOk result (λ rows. length rows.items ≡ length pids.now) }
{
    let mut rows = Vec::new(alloc);
    for pid in pids {
        rows.push(Row {
            group: group.try_clone(alloc)?,
            pid: pid.try_clone(alloc)?,
        })?;
    }
    rows.sort_unstable();
    Ok(rows)
}
