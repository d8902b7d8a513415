//! What is read off rows in order.
ghost use Rattle.std.specs.Prelude.{◌≡◌, ◌++◌, ◌≤◌, ◌<◌, ◌&&◌, ◌∷◌, [], cond, true, false, length, nat_lt, None, replicate, IfOk, OnOk};
ghost use Rattle.std.specs.List.{AllWithin, HoldsAt};
ghost use Rattle.dist_types.specs.Listing.{total, spread};
ghost use Rattle.scope_core.specs.Table.{max_rows};
ghost use Rattle.scope_core.specs.Listed.{is_in, differs, last_of, heads};

use crate::counted::Counted;
use dist_types::{Group, OutOfMemory, Pid, Row, TryClone};
use std::alloc::Global;

/// How many rows there are, each as often as it is counted.
pub fn total_of(rows: &[Counted]) -> usize
    requires { total (λ c. c.count) rows.now ≤ max_rows }
    ensures { result ≡ total (λ c. c.count) rows.now }
{
    let mut total = 0;
    for counted in rows {
        total += counted.count as usize;
    }
    total
}

/// The processes of the rows, each as often as it is counted.
pub fn pids_of(alloc: Global, rows: &[Counted]) -> Result<Vec<Pid>, OutOfMemory>
    ensures { IfOk result (λ pids. pids.items ≡ spread (λ c. c.row.pid) (λ c. c.count) rows.now) }
{
    let mut pids = Vec::with_capacity(alloc, rows.len())?;
    for counted in rows {
        push_copies(alloc, &mut pids, &counted.row.pid, counted.count as usize)?;
    }
    Ok(pids)
}

/// The rows, each as often as it is counted.
pub fn rows_of(alloc: Global, rows: &[Counted]) -> Result<Vec<Row>, OutOfMemory>
    ensures { IfOk result (λ copies. copies.items ≡ spread (λ c. c.row) (λ c. c.count) rows.now) }
{
    let mut copies = Vec::with_capacity(alloc, rows.len())?;
    for counted in rows {
        push_copies(alloc, &mut copies, &counted.row, counted.count as usize)?;
    }
    Ok(copies)
}

/// The groups of the rows that are counted.
pub fn groups_of(alloc: Global, rows: &[Counted]) -> Result<Vec<Group>, OutOfMemory>
    ensures { IfOk result (λ groups. groups.items ≡ heads None rows.now) }
{
    let mut groups = Vec::new(alloc);
    for counted in rows {
        push_group(alloc, &mut groups, counted)?;
    }
    Ok(groups)
}

/// Puts the group of a row that is counted at the end, unless it is the last.
fn push_group(alloc: Global, groups: &mut Vec<Group>, counted: &Counted) -> Result<(), OutOfMemory>
    ensures { OnOk result (groups.new.items ≡ groups.old.items
        ++ cond (nat_lt 0 counted.now.count
        && differs (last_of groups.old.items) counted.now.row.group) (counted.now.row.group
        ∷ []) []) }
{
    if begins_group(counted, groups) {
        groups.push(counted.row.group.try_clone(alloc)?)?;
    }
    Ok(())
}

/// Whether the row is counted, and its group isn't the last of these.
fn begins_group(counted: &Counted, groups: &[Group]) -> bool
    ensures { result ≡ (nat_lt 0 counted.now.count
        && differs (last_of groups.now) counted.now.row.group) }
{
    counted.count > 0 && groups.last() != Some(&counted.row.group)
}

/// Puts copies of an item at the end.
pub fn push_copies<T: TryClone + Drop>(
    alloc: Global,
    items: &mut Vec<T>,
    item: &T,
    times: usize,
) -> Result<(), OutOfMemory>
    ensures { OnOk result (items.new.items ≡ items.old.items ++ replicate times item.now) }
{
    for _ in 0..times {
        push_one(items, item.try_clone(alloc)?)?;
    }
    Ok(())
}

/// Puts an item at the end, mostly into room that there is.
pub fn push_one<T: Drop>(items: &mut Vec<T>, item: T) -> Result<(), OutOfMemory>
    ensures { OnOk result (items.new.items ≡ items.old.items ++ item ∷ []) }
{
    if items.len() == items.capacity() {
        items.reserve(1)?;
    }
    items.push_reserved(item);
    Ok(())
}

/// How many of the first rows are of the group.
pub fn run_of(rows: &[Counted], group: &Group) -> usize
    ensures bound { result ≤ length rows.now }
    ensures run { AllWithin (λ c. is_in group.now c ≡ true) rows.now 0 result }
    ensures end { result < length rows.now
        → HoldsAt (λ c. is_in group.now c ≡ false) rows.now result }
{
    for (len, counted) in rows.iter().enumerate() {
        if counted.row.group != *group {
            return len;
        }
    }
    rows.len()
}
