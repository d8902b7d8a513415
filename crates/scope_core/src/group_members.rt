//! The processes of a group in one node's index, told as rows and as processes.
ghost use Rattle.std.specs.Prelude.{◌≡◌, ◌++◌, List, [], ◌∷◌, replicate, IfSome, OnOk, ℕ};
ghost use Rattle.std.specs.List.{AllByRecursion};
ghost use Rattle.std.specs.List.Sorted.{IsStrictlySortedBy};
ghost use Rattle.std.specs.Map.{keys_of};
ghost use Rattle.dist_types.specs.Listing.{spread};
ghost use Rattle.scope_core.specs.Added.{row_in};
ghost use Rattle.scope_core.specs.SmallMap.{entries_of};
ghost use Rattle.scope_core.specs.HashedRows.{group_rows, pid_of, key_cmp};

use crate::counted::Counted;
use crate::process_key::ProcessKey;
use crate::small_map::SmallMap;
use dist_types::{Group, NodeName, OutOfMemory, Pid, Row, TryClone};
use std::alloc::Global;

/// What follows the rows of a group and these processes, if the list begins with them.
pub fn behind_all<'a>(
    rows: &'a [Row],
    group: &Group,
    members: &SmallMap<ProcessKey, u32>,
) -> Option<&'a [Row]>
    ensures begins { IfSome result (λ rest. (node : List ℕ)
        → AllByRecursion (λ r. r.pid.node ≡ node) rows.now
        → rows.now ≡ spread (λ e. row_in group.now (pid_of node e.0)) (λ e.
        e.1) (entries_of members.now) ++ rest.now) }
    ensures own { IfSome result (λ rest. (node : List ℕ)
        → AllByRecursion (λ r. r.pid.node ≡ node) rows.now
        → AllByRecursion (λ r. r.pid.node ≡ node) rest.now) }
    ensures ordered { IfSome result (λ _.
        IsStrictlySortedBy key_cmp (keys_of (entries_of members.now))) }
{
    match members {
        SmallMap::Empty => Some(rows),
        SmallMap::One(key, count) => behind(rows, group, *key, *count as usize),
        SmallMap::Few(map) => behind_few(rows, group, map.entries()),
        SmallMap::Many(map) => {
            let mut rest = rows;
            for (key, count) in map {
                rest = behind(rest, group, *key, *count as usize)?;
            }
            Some(rest)
        }
    }
}

/// What follows the rows of a group and these processes, if the list begins with them.
fn behind_few<'a>(
    rows: &'a [Row],
    group: &Group,
    members: &[(ProcessKey, u32)],
) -> Option<&'a [Row]>
    ensures begins { IfSome result (λ rest. (node : List ℕ)
        → AllByRecursion (λ r. r.pid.node ≡ node) rows.now
        → rows.now ≡ spread (λ e. row_in group.now (pid_of node e.0)) (λ e.
        e.1) members.now ++ rest.now) }
    ensures own { IfSome result (λ rest. (node : List ℕ)
        → AllByRecursion (λ r. r.pid.node ≡ node) rows.now
        → AllByRecursion (λ r. r.pid.node ≡ node) rest.now) }
{
    let mut rest = rows;
    for member in members {
        let (key, count) = member;
        rest = behind(rest, group, *key, *count as usize)?;
    }
    Some(rest)
}

/// What follows so many rows of a group and a process, if the list begins with them.
fn behind<'a>(rows: &'a [Row], group: &Group, key: ProcessKey, count: usize) -> Option<&'a [Row]>
    ensures begins { IfSome result (λ rest. (node : List ℕ)
        → AllByRecursion (λ r. r.pid.node ≡ node) rows.now
        → rows.now ≡ replicate count (row_in group.now (pid_of node key)) ++ rest.now) }
    ensures own { IfSome result (λ rest. (node : List ℕ)
        → AllByRecursion (λ r. r.pid.node ≡ node) rows.now
        → AllByRecursion (λ r. r.pid.node ≡ node) rest.now) }
{
    let mut rest = rows;
    for _ in 0..count {
        let (row, others) = rest.split_first()?;
        if ProcessKey::of(&row.pid) != key || row.group != *group {
            return None;
        }
        rest = others;
    }
    Some(rest)
}

/// Puts the rows of a group at the end of a list.
pub fn push_counted(
    alloc: Global,
    node: &NodeName,
    group: &Group,
    members: &SmallMap<ProcessKey, u32>,
    rows: &mut Vec<Counted>,
) -> Result<(), OutOfMemory>
    ensures rows { OnOk result (rows.new.items ≡ rows.old.items
        ++ group_rows node.now group.now (entries_of members.now)) }
    ensures ordered { OnOk result (IsStrictlySortedBy key_cmp (keys_of (entries_of members.now))) }
{
    match members {
        SmallMap::Empty => Ok(()),
        SmallMap::One(key, count) => push_row(alloc, node, group, *key, *count, rows),
        SmallMap::Few(map) => push_few_counted(alloc, node, group, map.entries(), rows),
        SmallMap::Many(map) => {
            rows.reserve(map.len())?;
            for (key, count) in map {
                push_row(alloc, node, group, *key, *count, rows)?;
            }
            Ok(())
        }
    }
}

/// Puts the rows of a group with these processes at the end of a list.
fn push_few_counted(
    alloc: Global,
    node: &NodeName,
    group: &Group,
    members: &[(ProcessKey, u32)],
    rows: &mut Vec<Counted>,
) -> Result<(), OutOfMemory>
    ensures { OnOk result (rows.new.items ≡ rows.old.items
        ++ group_rows node.now group.now members.now) }
{
    rows.reserve(members.len())?;
    for (key, count) in members {
        push_row(alloc, node, group, *key, *count, rows)?;
    }
    Ok(())
}

/// Puts a row of the node at the end of a list.
fn push_row(
    alloc: Global,
    node: &NodeName,
    group: &Group,
    key: ProcessKey,
    count: u32,
    rows: &mut Vec<Counted>,
) -> Result<(), OutOfMemory>
    ensures { OnOk result (rows.new.items ≡ rows.old.items
        ++ record { row = row_in group.now (pid_of node.now key); count = count } ∷ []) }
{
    let group = group.try_clone(alloc)?;
    let pid = key.pid(alloc, node)?;
    rows.push(Counted {
        row: Row { group, pid },
        count,
    })?;
    Ok(())
}

/// Puts processes of the node at the end of a list, each as often as it is counted.
pub fn push_pids(
    alloc: Global,
    node: &NodeName,
    members: &SmallMap<ProcessKey, u32>,
    pids: &mut Vec<Pid>,
) -> Result<(), OutOfMemory>
    ensures pids { OnOk result (pids.new.items ≡ pids.old.items
        ++ spread (λ e. pid_of node.now e.0) (λ e. e.1) (entries_of members.now)) }
    ensures ordered { OnOk result (IsStrictlySortedBy key_cmp (keys_of (entries_of members.now))) }
{
    match members {
        SmallMap::Empty => Ok(()),
        SmallMap::One(key, count) => push_times(alloc, node, *key, *count, pids),
        SmallMap::Few(map) => push_few(alloc, node, map.entries(), pids),
        SmallMap::Many(map) => {
            pids.reserve(map.len())?;
            for (key, count) in map {
                push_times(alloc, node, *key, *count, pids)?;
            }
            Ok(())
        }
    }
}

/// Puts these processes of the node at the end of a list, each as often as it is counted.
fn push_few(
    alloc: Global,
    node: &NodeName,
    members: &[(ProcessKey, u32)],
    pids: &mut Vec<Pid>,
) -> Result<(), OutOfMemory>
    ensures { OnOk result (pids.new.items ≡ pids.old.items
        ++ spread (λ e. pid_of node.now e.0) (λ e. e.1) members.now) }
{
    pids.reserve(members.len())?;
    for (key, count) in members {
        push_times(alloc, node, *key, *count, pids)?;
    }
    Ok(())
}

/// Puts a process of the node at the end of a list, so often.
fn push_times(
    alloc: Global,
    node: &NodeName,
    key: ProcessKey,
    times: u32,
    pids: &mut Vec<Pid>,
) -> Result<(), OutOfMemory>
    ensures { OnOk result (pids.new.items ≡ pids.old.items
        ++ replicate times (pid_of node.now key)) }
{
    for _ in 0..times {
        let pid = key.pid(alloc, node)?;
        // As `push_one` has it, whose call costs as much again as the copy.
        if pids.len() == pids.capacity() {
            pids.reserve(1)?;
        }
        pids.push_reserved(pid);
    }
    Ok(())
}
