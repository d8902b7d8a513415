//! What the process of the peer's scope was told.
ghost use Rattle.std.specs.Prelude.{◌≡◌, ◌≤◌, ◌+◌, ◌++◌, OnErr, OnOk, IfOk, length};
ghost use Rattle.dist_types.specs.declared.row.Row.{Row};
ghost use Rattle.otp_edge.specs.ScopeEdges.{seen_of, with_told, now_told};
ghost use Rattle.otp_edge.specs.Tallies.{times, counted, IsCutTo};

use crate::row_tally::RowTally;
use crate::scope_edge::ScopeEdge;
use crate::tally::{common, take_out};
use dist_types::{OutOfMemory, Row};
use std::alloc::Global;

impl ScopeEdge {
    /// All rows here were told.
    pub fn tell_sync(&mut self, rows: Vec<Row>)
        ensures { seen_of self.new ≡ with_told rows.items (seen_of self.old) }
    {
        self.is_told = true;
        self.told = rows;
    }

    /// Further rows were told.
    pub fn tell_join(&mut self, mut rows: Vec<Row>) -> Result<(), OutOfMemory>
        ensures seen { OnOk result (seen_of self.new ≡ now_told
            (self.old.told.items ++ rows.items) (seen_of self.old)) }
        ensures same { OnErr result (seen_of self.new ≡ seen_of self.old) }
    {
        self.told.append(&mut rows)?;
        Ok(())
    }

    /// Which of these rows the process can be told to have left: each as often as it was told, and
    /// didn't leave since.
    pub fn leaving(&self, alloc: Global, rows: &[Row]) -> Result<Vec<Row>, OutOfMemory>
        ensures few { IfOk result (λ kept. length kept.items ≤ length rows.now) }
        ensures cut { IfOk result (λ kept. IsCutTo rows.now kept.items
            (λ r. times r self.now.told.items)) }
    {
        common(alloc, rows, &self.told)
    }

    /// These rows were told to have left.
    pub fn tell_leave(&mut self, mut gone: RowTally)
        ensures seen { seen_of self.new ≡ now_told self.new.told.items (seen_of self.old) }
        ensures left { (r : Row) → counted r gone ≤ times r self.old.told.items →
            times r self.new.told.items + counted r gone ≡ times r self.old.told.items }
    {
        take_out(&mut self.told, &mut gone);
    }
}
