//! Laws of the rows of a node and of changes. Each function does nothing; its contract is the law.
ghost use Rattle.std.specs.Prelude.{◌≡◌, ◌≤◌, ◌-◌, List, ℕ, length};
ghost use Rattle.std.specs.List.{filter, flat_map};
ghost use Rattle.dist_types.specs.declared.pid.Pid.{Pid};
ghost use Rattle.dist_types.specs.declared.row.Row.{Row};
ghost use Rattle.dist_types.specs.declared.change.GroupChange.{GroupChange};
ghost use Rattle.dist_types.specs.Listing.{same, same_row, occurrences, mentions, IsPidListing, IsRowListing, IsGroupListing};
ghost use Rattle.dist_types.specs.Difference.{IsDifference};
ghost use Rattle.scope_core.specs.Table.{Table, count_of, node_total, local_count, local_total};
ghost use Rattle.scope_core.specs.Added.{row_in, rows_left, rows_joined};

/// How many rows the own processes have follows from the counts.
#[tactic(auto, using(crate::proofs::Shares::length_local_rows))]
pub fn total_of_counts()
    ensures { (table : Table) (rows : List Row) → IsRowListing (local_count table) rows
        → length rows ≡ local_total table }
{}

/// Own processes of one group, listed no more often than they are counted, are no more than all own
/// rows.
pub fn part_of_own_rows()
    ensures { (table : Table) (group : List ℕ) (ps : List Pid)
        → ((p : Pid) → mentions p ps ≤ local_count table group p) → length ps ≤ local_total table }
{}

/// Own rows, listed no more often than they are counted, are no more than all own rows.
#[tactic(auto, using(crate::proofs::Members::length_part_of_all))]
pub fn part_of_all_own_rows()
    ensures { (table : Table) (rows : List Row)
        → ((group : List ℕ) (p : Pid) → occurrences same_row (row_in group p) rows
        ≤ local_count table group p) → length rows ≤ local_total table }
{}

/// How many rows a node has follows from the members of all groups.
pub fn total_of_members()
    ensures { (table : Table) (node : List ℕ) (groups : List (List ℕ)) (members : List ℕ → List Pid)
        → IsGroupListing (count_of table) groups
        → ((group : List ℕ) → IsPidListing (count_of table group) (members group))
        → length (filter (λ p. same p.node node) (flat_map members groups))
        ≡ node_total table node }
{}

/// The rows of what left, and of what joined, are the difference.
pub fn rows_of_difference()
    ensures left { (before after : List ℕ → Pid → ℕ) (changes : List GroupChange)
        → IsDifference before after changes
        → IsRowListing (λ g p. before g p - after g p) (rows_left changes) }
    ensures joined { (before after : List ℕ → Pid → ℕ) (changes : List GroupChange)
        → IsDifference before after changes
        → IsRowListing (λ g p. after g p - before g p) (rows_joined changes) }
{}
