//! What the node here lists of the peer of a link.
ghost use Rattle.std.specs.Prelude.{ℕ, List, IfOk};
ghost use Rattle.dist_types.specs.declared.row.Row.{Row};
ghost use Rattle.otp_link.specs.Counted.{AreCounts};

use dist_types::{NodeName, OutOfMemory, Row, Scope};
use std::alloc::Global;

/// What the node here lists of the peer of a link. Only the reader of a link changes that.
pub trait Table {
    /// What it may list in a scope: how often each row.
    ghost lists: { Self → List ℕ → (Row → ℕ) → Type 0 };

    /// How often each of these rows is listed in the scope.
    fn counts(&self, alloc: Global, scope: &Scope, rows: &[Row]) -> Result<Vec<usize>, OutOfMemory>
        ensures { IfOk result (λ counts. AreCounts (lists self.now scope.now) rows.now
            counts.items) };

    /// How many rows of the peer are listed in the scope.
    fn total(&self, scope: &Scope, peer: &NodeName) -> usize;
}
