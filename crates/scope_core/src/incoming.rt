//! Rows that come, counted, and what they change.
ghost use Rattle.std.specs.Prelude.{◌≡◌, ◌≢◌, ◌-◌, ◌∷◌, [], drop, length, IfSome, IfOk};
ghost use Rattle.std.specs.List.{AllByRecursion, HoldsAt};
ghost use Rattle.std.specs.List.Sorted.{IsPermutation};
ghost use Rattle.std.specs.declared.cmp.Ordering.TheVariants.{Less, Equal};
ghost use Rattle.dist_types.specs.declared.row.Row.{Row};
ghost use Rattle.dist_types.specs.Listing.{Rises};
ghost use Rattle.dist_types.specs.Order.{row_cmp};
ghost use Rattle.scope_core.specs.Table.{tally, is_row, counted_cmp, IsKept};
ghost use Rattle.scope_core.specs.Added.{Adds, HasRoomFor};
ghost use Rattle.scope_core.specs.Beyond.{times_beyond, picked};

use crate::counted::Counted;
use crate::indexed_rows::IndexedRows;
use dist_types::{Group, OutOfMemory, Row, TryClone, copies_of};
use std::alloc::Global;
use std::cmp::Ordering;

/// The rows in order, each with its count. The names of their groups are those of the table, so
/// that all nodes share them, or else the rows' own.
pub fn counted_rows(
    alloc: Global,
    table: Option<&IndexedRows>,
    rows: &[Row],
) -> Result<Vec<Counted>, OutOfMemory>
    requires { HasRoomFor rows.now [] }
    ensures added { IfOk result (λ counted. Adds rows.now [] counted.items) }
    ensures kept { IfOk result (λ counted. IsKept counted.items) }
{
    // A node states its rows in order.
    if let Some(counted) = counted_in_order(alloc, table, rows)? {
        return Ok(counted);
    }
    let sorted = copies_in_order(alloc, rows)?;
    match counted_in_order(alloc, table, &sorted)? {
        Some(counted) => Ok(counted),
        // They are in order now.
        None => Err(OutOfMemory),
    }
}

/// Copies of the rows of a node, in order.
fn copies_in_order(alloc: Global, rows: &[Row]) -> Result<Vec<Row>, OutOfMemory>
    ensures { IfOk result (λ copies. IsPermutation rows.now copies.items) }
{
    let mut copies = copies_of(alloc, rows)?;
    // Numbers are compared in no time, and behind that the rows of a large group need few looks.
    copies.sort_unstable_by_key(|row| row.pid.number);
    copies.sort_by(|one, other| {
        let by_group = one.group.cmp(&other.group);
        by_group.then(one.pid.creation.cmp(&other.pid.creation))
    })?;
    Ok(copies)
}

/// Rows with their counts, unless one stands behind a higher one.
fn counted_in_order(
    alloc: Global,
    table: Option<&IndexedRows>,
    rows: &[Row],
) -> Result<Option<Vec<Counted>>, OutOfMemory>
    requires { HasRoomFor rows.now [] }
    ensures added { IfOk result (λ found.
        IfSome found (λ counted. Adds rows.now [] counted.items)) }
    ensures kept { IfOk result (λ found. IfSome found (λ counted. IsKept counted.items)) }
{
    let mut counted = Vec::with_capacity(alloc, rows.len())?;
    for row in rows {
        match order_behind(&counted, row) {
            Ordering::Less => {
                let group = name_of(alloc, table, &counted, &row.group)?;
                let pid = row.pid.try_clone(alloc)?;
                counted.push(Counted {
                    row: Row { group, pid },
                    count: 1,
                })?;
            }
            Ordering::Equal => count_again(&mut counted),
            Ordering::Greater => return Ok(None),
        }
    }
    Ok(Some(counted))
}

/// The name of a group as the last row has it, or as the table has it, where either is the same.
fn name_of(
    alloc: Global,
    table: Option<&IndexedRows>,
    counted: &[Counted],
    group: &Group,
) -> Result<Group, OutOfMemory>
    ensures { IfOk result (λ name. name ≡ group.now) }
{
    if let Some(last) = counted.last() {
        if last.row.group == *group {
            return last.row.group.try_clone(alloc);
        }
    }
    match table.and_then(|rows| rows.stored(group)) {
        Some(stored) => stored.try_clone(alloc),
        None => group.try_clone(alloc),
    }
}

/// How the last row stands to another: below it, where there is none.
fn order_behind(counted: &[Counted], row: &Row) -> Ordering
    requires { Rises counted_cmp counted.now }
    ensures behind { result ≡ Less → AllByRecursion (λ c. row_cmp c.row row.now
        ≡ Less) counted.now }
    ensures again { result ≡ Equal → HoldsAt (λ c. c.row ≡ row.now) counted.now (length counted.now
        - 1) }
{
    match counted.last() {
        Some(last) => last.row.cmp(row),
        None => Ordering::Less,
    }
}

/// One more of the last row.
fn count_again(counted: &mut Vec<Counted>)
    requires kept { IsKept counted.old.items }
    requires room { (row : Row)
        → HoldsAt (λ c. c.row ≡ row) counted.old.items (length counted.old.items - 1)
        → HasRoomFor (row ∷ []) counted.old.items }
    ensures { (row : Row)
        → HoldsAt (λ c. c.row ≡ row) counted.old.items (length counted.old.items - 1)
        → Adds (row ∷ []) counted.old.items counted.new.items × IsKept counted.new.items }
{
    if let Some(last) = counted.last_mut() {
        last.count += 1;
    }
}

/// The rows that are counted more often than among the others, and how much more often.
pub fn beyond(
    alloc: Global,
    rows: &[Counted],
    others: &[Counted],
) -> Result<Vec<Counted>, OutOfMemory>
    requires rows { Rises counted_cmp rows.now }
    requires others { Rises counted_cmp others.now }
    ensures { IfOk result (λ more. more.items ≡ picked (times_beyond others.now) rows.now) }
{
    let mut more = Vec::new(alloc);
    let mut rest = others;
    for counted in rows {
        rest = from(rest, &counted.row);
        let count = counted
            .count
            .saturating_sub(count_first(rest, &counted.row));
        if count > 0 {
            let row = counted.row.try_clone(alloc)?;
            more.push(Counted { row, count })?;
        }
    }
    Ok(more)
}

/// The rows from the first on that isn't below this one.
fn from<'a>(rows: &'a [Counted], row: &Row) -> &'a [Counted]
    requires { Rises counted_cmp rows.now }
    ensures rises { Rises counted_cmp result.now }
    ensures low { (r : Row) → row_cmp r row.now ≢ Less → tally (is_row r.group r.pid) result.now
        ≡ tally (is_row r.group r.pid) rows.now }
    ensures first { AllByRecursion (λ c. row_cmp row.now c.row ≡ Less) (drop 1 result.now) }
{
    let mut rest = rows;
    while let Some((first, others)) = rest.split_first() {
        if first.row >= *row {
            return rest;
        }
        rest = others;
    }
    rest
}

/// How often the row is counted, if it is the first of these.
fn count_first(rows: &[Counted], row: &Row) -> u32
    requires { AllByRecursion (λ c. row_cmp row.now c.row ≡ Less) (drop 1 rows.now) }
    ensures { result ≡ tally (is_row row.now.group row.now.pid) rows.now }
{
    match rows.first() {
        Some(first) => { if first.row == *row { first.count } else { 0 } }
        None => 0,
    }
}
