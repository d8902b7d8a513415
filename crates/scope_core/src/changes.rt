//! The changes that a call answers.
ghost use Rattle.std.specs.Prelude.{◌≡◌, ◌++◌, ◌||◌, [], true, false, map, IfSome, IfOk, OnOk};
ghost use Rattle.std.specs.Option.{IfNone};
ghost use Rattle.std.specs.List.{AllByRecursion, list_any};
ghost use Rattle.std.specs.Ordering.{is_gt};
ghost use Rattle.dist_types.specs.Order.{text_cmp};
ghost use Rattle.dist_types.specs.Listing.{Rises, mentions, IsPidListing};
ghost use Rattle.dist_types.specs.Difference.{change_unless_empty};
ghost use Rattle.scope_core.specs.Added.{row_in};
ghost use Rattle.scope_core.specs.Table.{counted_cmp};
ghost use Rattle.scope_core.specs.Listed.{is_in, Tells};

use crate::counted::Counted;
use crate::reads::{pids_of, run_of};
use dist_types::{Group, GroupChange, Items, OutOfMemory, Pid, Row, TryClone, copies_of};
use std::alloc::Global;

/// The change of one group; none where nobody left and nobody joined.
pub fn one_change(
    alloc: Global,
    group: &Group,
    left: Vec<Pid>,
    joined: Vec<Pid>,
) -> Result<Vec<GroupChange>, OutOfMemory>
    ensures { IfOk result (λ changes. changes.items
        ≡ change_unless_empty group.now left.items joined.items) }
{
    if left.is_empty() && joined.is_empty() {
        return Ok(Vec::new(alloc));
    }
    let mut changes = Vec::with_capacity(alloc, 1)?;
    changes.push(change_of(alloc, group, left, joined)?)?;
    Ok(changes)
}

/// Puts the change of one group behind others, unless nobody left and nobody joined.
pub fn push_change(
    alloc: Global,
    changes: &mut Vec<GroupChange>,
    group: &Group,
    left: Vec<Pid>,
    joined: Vec<Pid>,
) -> Result<(), OutOfMemory>
    ensures { OnOk result (changes.new.items ≡ changes.old.items
        ++ change_unless_empty group.now left.items joined.items) }
{
    if left.is_empty() && joined.is_empty() {
        return Ok(());
    }
    changes.push(change_of(alloc, group, left, joined)?)?;
    Ok(())
}

/// The change in which these leave and join a group.
fn change_of(
    alloc: Global,
    group: &Group,
    left: Vec<Pid>,
    joined: Vec<Pid>,
) -> Result<GroupChange, OutOfMemory>
    ensures { IfOk result (λ change. change ≡ record {
      group = group.now;
      left = left.items;
      joined = joined.items;
    }) }
{
    Ok(GroupChange {
        group: group.try_clone(alloc)?,
        left: Items::of(left),
        joined: Items::of(joined),
    })
}

/// The changes where rows leave.
pub fn changes_left(alloc: Global, gone: &[Counted]) -> Result<Vec<GroupChange>, OutOfMemory>
    requires { Rises counted_cmp gone.now }
    ensures { IfOk result (λ changes. Tells gone.now [] changes.items) }
{
    let changes = changes_of(alloc, gone, &[])?;
    Ok(changes)
}

/// The changes where rows join.
pub fn changes_joined(alloc: Global, joined: &[Counted]) -> Result<Vec<GroupChange>, OutOfMemory>
    requires { Rises counted_cmp joined.now }
    ensures { IfOk result (λ changes. Tells [] joined.now changes.items) }
{
    let changes = changes_of(alloc, &[], joined)?;
    Ok(changes)
}

/// The changes where some rows leave, and others join.
pub fn changes_of(
    alloc: Global,
    gone: &[Counted],
    joined: &[Counted],
) -> Result<Vec<GroupChange>, OutOfMemory>
    requires gone { Rises counted_cmp gone.now }
    requires joined { Rises counted_cmp joined.now }
    ensures { IfOk result (λ changes. Tells gone.now joined.now changes.items) }
{
    let mut changes = Vec::new(alloc);
    let mut left = gone;
    let mut more = joined;
    while let Some(group) = first_group(left, more) {
        let (leaves, others) = left.split_at(run_of(left, group));
        let (joins, rest) = more.split_at(run_of(more, group));
        let goes = pids_of(alloc, leaves)?;
        let comes = pids_of(alloc, joins)?;
        push_change(alloc, &mut changes, group, goes, comes)?;
        left = others;
        more = rest;
    }
    Ok(changes)
}

/// The lower one of the groups of the first rows.
fn first_group<'a>(gone: &'a [Counted], joined: &'a [Counted]) -> Option<&'a Group>
    requires gone { Rises counted_cmp gone.now }
    requires joined { Rises counted_cmp joined.now }
    ensures gone { IfSome result (λ g. AllByRecursion (λ c. is_gt (text_cmp g.now c.row.group)
        ≡ false) gone.now) }
    ensures joined { IfSome result (λ g. AllByRecursion (λ c. is_gt (text_cmp g.now c.row.group)
        ≡ false) joined.now) }
    ensures some { IfSome result (λ g. (list_any (is_in g.now) gone.now
        || list_any (is_in g.now) joined.now) ≡ true) }
    ensures none { IfNone result ((gone.now ≡ []) × (joined.now ≡ [])) }
{
    match (gone.first(), joined.first()) {
        (Some(one), Some(other)) => Some(if other.row.group < one.row.group {
            &other.row.group
        } else {
            &one.row.group
        }),
        (Some(one), None) => Some(&one.row.group),
        (None, Some(other)) => Some(&other.row.group),
        (None, None) => None,
    }
}

/// The rows of a group for these processes.
pub fn rows_in(alloc: Global, group: &Group, pids: &[Pid]) -> Result<Vec<Row>, OutOfMemory>
    ensures { IfOk result (λ rows. rows.items ≡ map (row_in group.now) pids.now) }
{
    let mut rows = Vec::with_capacity(alloc, pids.len())?;
    for pid in pids {
        rows.push(Row {
            group: group.try_clone(alloc)?,
            pid: pid.try_clone(alloc)?,
        })?;
    }
    Ok(rows)
}

/// Copies of the processes, in order.
pub fn in_order(alloc: Global, pids: &[Pid]) -> Result<Vec<Pid>, OutOfMemory>
    ensures { IfOk result (λ sorted. IsPidListing (λ p. mentions p pids.now) sorted.items) }
{
    let mut copies = copies_of(alloc, pids)?;
    // One alone is in order.
    if copies.len() < 2 {
        return Ok(copies);
    }
    copies.sort_unstable();
    Ok(copies)
}
