//! Who leaves a group.
ghost use Rattle.std.specs.Prelude.{◌≡◌, ◌≤◌, ◌∷◌, IfOk, min, length, take, replicate};
ghost use Rattle.dist_types.specs.Order.{pid_cmp};
ghost use Rattle.dist_types.specs.Listing.{Ascends, mentions, IsPidListing};
ghost use Rattle.dist_types.specs.Difference.{IsDifference};
ghost use Rattle.scope_core.specs.Table.{tally, is_row};
ghost use Rattle.scope_core.specs.Listed.{IsEmptied};
ghost use Rattle.scope_core.specs.Calls.{no_count};

use crate::changes::in_order;
use crate::indexed_rows::IndexedRows;
use crate::reads::push_copies;
use dist_types::{Group, GroupChange, Items, OutOfMemory, Pid, TryClone};
use std::alloc::Global;

/// Those of the processes that a leave takes from a group, ascending, each as often as it leaves.
pub fn gone_of(
    alloc: Global,
    rows: &IndexedRows,
    group: &Group,
    pids: &[Pid],
) -> Result<Vec<Pid>, OutOfMemory>
    ensures { IfOk result (λ gone.
        IsPidListing (λ p. min (mentions p pids.now) (tally (is_row group.now p) rows.now))
        gone.items) }
{
    let sorted = in_order(alloc, pids)?;
    let gone = gone_in_order(alloc, rows, group, &sorted)?;
    Ok(gone)
}

/// The same for processes in order. Those that are the same stand in a run, and their row is looked
/// up once.
#[tactic(auto, using(crate::proofs::Mentioned::ascends_behind))]
fn gone_in_order(
    alloc: Global,
    rows: &IndexedRows,
    group: &Group,
    sorted: &[Pid],
) -> Result<Vec<Pid>, OutOfMemory>
    requires { Ascends pid_cmp sorted.now }
    ensures { IfOk result (λ gone.
        IsPidListing (λ p. min (mentions p sorted.now) (tally (is_row group.now p) rows.now))
        gone.items) }
{
    let mut gone = Vec::with_capacity(alloc, sorted.len())?;
    let mut rest = sorted;
    while let Some((pid, others)) = rest.split_first() {
        let again = run_of(others, pid);
        let count = rows.count(group, pid) as usize;
        push_copies(alloc, &mut gone, pid, count.min(again + 1))?;
        (_, rest) = others.split_at(again);
    }
    gone.shrink_to_fit();
    Ok(gone)
}

/// How many of the processes behind this one are the same.
fn run_of(pids: &[Pid], pid: &Pid) -> usize
    requires { Ascends pid_cmp (pid.now ∷ pids.now) }
    ensures bound { result ≤ length pids.now }
    ensures run { take result pids.now ≡ replicate result pid.now }
    ensures all { result ≡ mentions pid.now pids.now }
{
    pids.partition_point(|other| *other == *pid)
}

/// The changes where all processes leave all groups.
pub fn all_gone(alloc: Global, rows: &IndexedRows) -> Result<Vec<GroupChange>, OutOfMemory>
    ensures { IfOk result (λ changes. IsDifference (λ g p. tally (is_row g p) rows.now) no_count
        changes.items) }
{
    let groups = rows.groups(alloc)?;
    let mut changes = Vec::with_capacity(alloc, groups.len())?;
    for group in &groups {
        changes.push(emptied(alloc, rows, group)?)?;
    }
    Ok(changes)
}

/// The change where all processes leave a group.
fn emptied(alloc: Global, rows: &IndexedRows, group: &Group) -> Result<GroupChange, OutOfMemory>
    ensures group { IfOk result (λ change. change.group ≡ group.now) }
    ensures emptied { IfOk result (λ change. IsEmptied rows.now change) }
{
    let left = rows.members(alloc, group)?;
    Ok(GroupChange {
        group: group.try_clone(alloc)?,
        left: Items::of(left),
        joined: Items::of(Vec::new(alloc)),
    })
}
