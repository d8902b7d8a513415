//! Changes of groups put together.
ghost use Rattle.std.specs.Prelude.{◌≡◌, ◌++◌, IfOk, OnOk};
ghost use Rattle.std.specs.List.{AllByRecursion};
ghost use Rattle.dist_types.specs.Difference.{change_unless_empty, IsProper};
ghost use Rattle.dist_types.specs.Listing.{mentions, IsPidListing};
ghost use Rattle.policy_audit.specs.Changes.{groups_in, if_some};
ghost use Rattle.node_core.specs.Ending.{AreGathered};
ghost use Rattle.node_core.specs.Gathering.{together, AreMerged, HasMerged, IsSome};

use dist_types::{Group, GroupChange, Items, OutOfMemory, Pid, Pids, Scope, TryClone};
use policy_audit::Change;
use std::alloc::Global;
use std::mem;

/// The changes of groups in a scope, among these.
pub fn groups_in(
    alloc: Global,
    scope: &Scope,
    changes: &[Change],
) -> Result<Vec<GroupChange>, OutOfMemory>
    ensures { IfOk result (λ groups. groups.items ≡ groups_in scope.now changes.now) }
{
    let mut groups = Vec::new(alloc);
    for change in changes {
        if change.scope == *scope {
            groups.append(&mut change.groups.try_clone(alloc)?.into_vec())?;
        }
    }
    Ok(groups)
}

/// The same changes in the order of their groups, with one for each group.
pub fn gathered(alloc: Global, groups: Vec<GroupChange>) -> Result<Vec<GroupChange>, OutOfMemory>
    requires { AllByRecursion IsProper groups.items }
    ensures { IfOk result (λ gathered. AreGathered groups.items gathered.items) }
{
    let mut gathered = merged(alloc, groups)?;
    for change in gathered.iter_mut() {
        sort_pids(alloc, &mut change.left);
        sort_pids(alloc, &mut change.joined);
    }
    Ok(gathered)
}

/// The same, but the processes of a group stand in any order.
fn merged(alloc: Global, mut groups: Vec<GroupChange>) -> Result<Vec<GroupChange>, OutOfMemory>
    requires { AllByRecursion IsSome groups.items }
    ensures { IfOk result (λ merged. AreMerged groups.items merged.items) }
{
    groups.sort_unstable_by(|one, other| one.group.cmp(&other.group));
    let mut merged = Vec::new(alloc);
    for change in groups {
        merge(alloc, &mut merged, change)?;
    }
    Ok(merged)
}

/// Puts a change into the last of these, if that is of its group, and else behind them.
fn merge(
    alloc: Global,
    merged: &mut Vec<GroupChange>,
    change: GroupChange,
) -> Result<(), OutOfMemory>
    ensures { OnOk result (HasMerged change merged.old.items merged.new.items) }
{
    match merged.pop() {
        Some(last) if last.group == change.group => merged.push(together(alloc, last, change)?)?,
        Some(last) => {
            merged.push(last)?;
            merged.push(change)?;
        }
        None => merged.push(change)?,
    }
    Ok(())
}

/// A change, with the processes of another behind its own.
fn together(
    alloc: Global,
    mut one: GroupChange,
    mut other: GroupChange,
) -> Result<GroupChange, OutOfMemory>
    ensures { IfOk result (λ both. both ≡ together one other) }
{
    append_pids(alloc, &mut one.left, &mut other.left)?;
    append_pids(alloc, &mut one.joined, &mut other.joined)?;
    Ok(one)
}

/// Moves processes behind others.
fn append_pids(alloc: Global, pids: &mut Pids, others: &mut Pids) -> Result<(), OutOfMemory>
    ensures { OnOk result (pids.new ≡ pids.old ++ others.old) }
{
    let mut all = take_pids(alloc, pids);
    all.append(&mut take_pids(alloc, others))?;
    *pids = Items::of(all);
    Ok(())
}

/// Puts processes in their order.
fn sort_pids(alloc: Global, pids: &mut Pids)
    ensures { IsPidListing (λ p. mentions p pids.old) pids.new }
{
    let mut sorted = take_pids(alloc, pids);
    sorted.sort_unstable();
    *pids = Items::of(sorted);
}

/// Takes the processes out.
fn take_pids(alloc: Global, pids: &mut Pids) -> Vec<Pid>
    ensures { result.items ≡ pids.old }
{
    mem::replace(pids, Items::of(Vec::new(alloc))).into_vec()
}

/// Processes, ascending.
pub fn ascending(alloc: Global, pids: &[Pid]) -> Result<Vec<Pid>, OutOfMemory>
    ensures { IfOk result (λ listed. IsPidListing (λ p. mentions p pids.now) listed.items) }
{
    let mut listed = Vec::new(alloc);
    for pid in pids {
        listed.push(pid.try_clone(alloc)?)?;
    }
    listed.sort_unstable();
    Ok(listed)
}

/// The change of one group of a scope; none where nobody left and nobody joined.
pub fn change_in(
    alloc: Global,
    scope: &Scope,
    group: &Group,
    left: Vec<Pid>,
    joined: Vec<Pid>,
) -> Result<Vec<Change>, OutOfMemory>
    ensures { IfOk result
        (λ changes. changes.items
        ≡ if_some scope.now (change_unless_empty group.now left.items joined.items)) }
{
    let mut changes = Vec::new(alloc);
    if !left.is_empty() || !joined.is_empty() {
        let mut groups = Vec::new(alloc);
        groups.push(GroupChange {
            group: group.try_clone(alloc)?,
            left: Items::of(left),
            joined: Items::of(joined),
        })?;
        changes.push(Change {
            scope: scope.try_clone(alloc)?,
            groups: Items::of(groups),
        })?;
    }
    Ok(changes)
}
