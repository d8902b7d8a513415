//! Counts of rows that are lowered, and raised again.
ghost use Rattle.std.specs.Prelude.{◌≡◌, ◌≤◌, ◌<◌, take, length, All};
ghost use Rattle.std.specs.Option.{unwrap_or};
ghost use Rattle.std.specs.List.{HoldsAt, IsDistinct};
ghost use Rattle.std.specs.Map.{lookup, keys_of};
ghost use Rattle.dist_types.specs.declared.row.Row.{Row};
ghost use Rattle.dist_types.specs.Listing.{same_row};
ghost use Rattle.scope_core.specs.Table.{tally, is_row, max_rows};
ghost use Rattle.scope_core.specs.Added.{are_all_in};
ghost use Rattle.scope_core.specs.HashedRows.{counted_in};
ghost use Rattle.scope_core.specs.LoweredRows.{IsLowered};

use crate::row_counts::RowCounts;
use dist_types::Row;

/// Whether each row stands in the list at most as often as it is counted. Counts are lowered as far
/// as this goes, and raised again, so that it takes no memory.
pub fn can_lower(counts: &mut RowCounts, gone: &[Row]) -> bool
    requires own { All (λ r. r.pid.node ≡ counts.old.node) gone.now }
    requires once { IsDistinct same_row (keys_of counts.old.entries) }
    requires few { (r : Row) → tally (is_row r.group r.pid) (counted_in counts.old.entries)
        ≤ max_rows }
    ensures value { result ≡ are_all_in (counted_in counts.old.entries) gone.now }
    ensures same { counts.new ≡ counts.old }
{
    let mut lowered = lower_all(counts, gone);
    let all = lowered == gone.len();
    while lowered > 0 {
        lowered -= 1;
        counts.raise(&gone[lowered]);
    }
    all
}

/// One less of each row up to the first of which there is none left. Answers how many these are.
fn lower_all(counts: &mut RowCounts, gone: &[Row]) -> usize
    requires { All (λ r. r.pid.node ≡ counts.old.node) gone.now }
    ensures node { counts.new.node ≡ counts.old.node }
    ensures lowered { IsLowered (take result gone.now) counts.new.entries counts.old.entries }
    ensures within { result ≤ length gone.now }
    ensures ended { result < length gone.now
        → HoldsAt (λ r. unwrap_or (lookup (same_row r) counts.new.entries) 0 ≡ 0) gone.now result }
{
    let mut lowered = 0;
    for row in gone {
        if !counts.lower(row) {
            return lowered;
        }
        lowered += 1;
    }
    lowered
}
