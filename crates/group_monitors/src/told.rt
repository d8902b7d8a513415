//! What entries tell a monitor.
ghost use Rattle.std.specs.Prelude.{◌≡◌, ◌++◌, ◌∷◌, [], cond, IfOk, OnOk};
ghost use Rattle.std.specs.List.{flat_map};
ghost use Rattle.dist_types.specs.Difference.{is_empty};
ghost use Rattle.policy_audit.specs.Monitors.{is_watched, group_updates, updates_of};
ghost use Rattle.group_monitors.specs.Monitors.{target};

use crate::monitor::Monitor;
use dist_types::{Group, GroupChange, OutOfMemory, Pids, TryClone};
use policy_audit::{Change, Later, Update};
use std::alloc::Global;

/// What the entries tell the monitor, in their order. Most entries change nothing, so the way from
/// one to the next is what it takes: alone, it has its registers for itself.
#[inline(never)]
pub fn told_by(
    alloc: Global,
    monitor: &Monitor,
    entries: Later<'_>,
) -> Result<Vec<Update>, OutOfMemory>
    ensures { IfOk result (λ updates. updates.items
        ≡ flat_map (λ e. updates_of (target monitor.now) e.change) entries.entry) }
{
    let mut updates = Vec::new(alloc);
    for entry in entries.changing() {
        tell_changes(alloc, &mut updates, monitor, entry.change.as_slice())?;
    }
    updates.shrink_to_fit();
    Ok(updates)
}

/// Tells what one entry changed.
fn tell_changes(
    alloc: Global,
    updates: &mut Vec<Update>,
    monitor: &Monitor,
    changes: &[Change],
) -> Result<(), OutOfMemory>
    ensures { OnOk result (updates.new.items ≡ updates.old.items
        ++ updates_of (target monitor.now) changes.now) }
{
    for change in changes {
        if change.scope == monitor.scope {
            tell_groups(alloc, updates, &monitor.group, change.groups.as_slice())?;
        }
    }
    Ok(())
}

/// Tells what changed in one scope.
fn tell_groups(
    alloc: Global,
    updates: &mut Vec<Update>,
    watched: &Option<Group>,
    changes: &[GroupChange],
) -> Result<(), OutOfMemory>
    ensures { OnOk result (updates.new.items ≡ updates.old.items
        ++ flat_map (λ c. cond (is_watched watched.now c) (group_updates c) []) changes.now) }
{
    for change in changes {
        if is_told(watched, change) {
            tell_group(alloc, updates, change)?;
        }
    }
    Ok(())
}

/// Whether the changed group is watched: each is, or the one.
fn is_told(watched: &Option<Group>, change: &GroupChange) -> bool
    ensures { result ≡ is_watched watched.now change.now }
{
    match watched {
        Some(group) => change.group == *group,
        None => true,
    }
}

/// Tells who left a group, and then who joined it.
fn tell_group(
    alloc: Global,
    updates: &mut Vec<Update>,
    change: &GroupChange,
) -> Result<(), OutOfMemory>
    ensures { OnOk result (updates.new.items ≡ updates.old.items ++ group_updates change.now) }
{
    tell_unless_none(alloc, updates, &change.group, true, &change.left)?;
    tell_unless_none(alloc, updates, &change.group, false, &change.joined)
}

/// Tells of these processes, where there are some.
fn tell_unless_none(
    alloc: Global,
    updates: &mut Vec<Update>,
    group: &Group,
    leave: bool,
    pids: &Pids,
) -> Result<(), OutOfMemory>
    ensures { OnOk result (updates.new.items ≡ updates.old.items
        ++ cond (is_empty pids.now) [] (record { group = group.now; leave = leave; pids = pids.now }
        ∷ [])) }
{
    if !pids.as_slice().is_empty() {
        // Most fetches have one update, whose block is then as large as it stays.
        if updates.is_empty() {
            updates.reserve_exact(1)?;
        }
        updates.push(Update {
            group: group.try_clone(alloc)?,
            leave,
            pids: pids.try_clone(alloc)?,
        })?;
    }
    Ok(())
}
