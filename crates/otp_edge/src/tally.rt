//! Rows that may be repeated, counted.
ghost use Rattle.std.specs.Prelude.{◌≡◌, ◌+◌, ◌<◌, ◌≤◌, ℕ, length, get_or};
ghost use Rattle.std.specs.Prelude.{IfOk, slice_index};
ghost use Rattle.dist_types.specs.declared.row.Row.{Row};
ghost use Rattle.otp_edge.specs.Tallies.{times, counted, IsCutTo};

use crate::row_tally::RowTally;
use dist_types::{OutOfMemory, Row, TryClone};
use std::alloc::Global;

/// Of these rows each as often as it stands there, and among the others.
pub fn common(alloc: Global, rows: &[Row], others: &[Row]) -> Result<Vec<Row>, OutOfMemory>
    ensures few { IfOk result (λ kept. length kept.items ≤ length rows.now) }
    ensures cut { IfOk result (λ kept. IsCutTo rows.now kept.items (λ r. times r others.now)) }
{
    let mut asked = RowTally::of(alloc, rows)?;
    let mut kept = Vec::new(alloc);
    for row in others {
        if asked.is_empty() {
            return Ok(kept);
        }
        if asked.take(row) {
            kept.push(row.try_clone(alloc)?)?;
        }
    }
    Ok(kept)
}

/// Takes the rows of a tally out of these.
pub fn take_out(rows: &mut Vec<Row>, gone: &mut RowTally)
    ensures { (r : Row) → counted r gone.old ≤ times r rows.old.items
        → times r rows.new.items + counted r gone.old ≡ times r rows.old.items }
{
    let mut place = 0;
    while place < rows.len() && !gone.is_empty() {
        if gone.take(&rows[place]) {
            rows.swap_remove(place);
        } else {
            place += 1;
        }
    }
}

/// Of these rows each as often as it stands there, and as its count allows.
pub fn cut_to(alloc: Global, rows: &[Row], counts: &[usize]) -> Result<Vec<Row>, OutOfMemory>
    requires { length counts.now ≡ length rows.now }
    ensures few { IfOk result (λ kept. length kept.items ≤ length rows.now) }
    ensures cut { IfOk result (λ kept. (listed : Row → ℕ) → ((place : ℕ) (d : Row) →
        place < length rows.now → slice_index counts.now place ≡ listed (get_or rows.now place d))
        → IsCutTo rows.now kept.items listed) }
{
    let mut tally = RowTally::new(alloc);
    let mut kept = Vec::new(alloc);
    for (place, row) in rows.iter().enumerate() {
        if tally.get(row) < counts[place] {
            tally.put(alloc, row)?;
            kept.push(row.try_clone(alloc)?)?;
        }
    }
    Ok(kept)
}
