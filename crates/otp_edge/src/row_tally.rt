//! How often rows stand somewhere.
ghost use Rattle.std.specs.Prelude.{◌≡◌, ◌+◌, ◌<◌, ◌^◌, cond, false, IsTrue, IfOk, OnOk, OnErr};
ghost use Rattle.dist_types.specs.declared.row.Row.{Row};
ghost use Rattle.otp_edge.specs.Tallies.{times, once, counted};

use dist_types::{OutOfMemory, Row, TryClone};
use std::alloc::Global;
use std::collections::BTreeMap;
use std::marker::Model;

/// Rows, each with how often it stands somewhere, once at least.
#[derive(Debug)]
pub struct RowTally {
    counts: BTreeMap<Row, usize>,
}

impl Drop for RowTally {
    fn drop(self) {
        let RowTally { counts: _ } = self;
    }
}

impl Model for RowTally {
    ghost use Rattle.std.specs.Prelude.{List, ℕ};
    ghost use Rattle.dist_types.specs.declared.row.Row.{Row};
    ghost use Rattle.otp_edge.specs.Tallies.{HasSome};

    ghost Value = { List (Row × ℕ) };

    ghost view = { λ tally. tally.counts.entries };

    ghost invariant = { λ tally. HasSome tally.counts.entries };
}

impl RowTally {
    /// No row.
    pub fn new(alloc: Global) -> RowTally
        ensures { (r : Row) → counted r result ≡ 0 }
    {
        RowTally {
            counts: BTreeMap::new(alloc),
        }
    }

    /// These rows, which may be repeated.
    pub fn of(alloc: Global, rows: &[Row]) -> Result<RowTally, OutOfMemory>
        ensures { IfOk result (λ tally. (r : Row) → counted r tally ≡ times r rows.now) }
    {
        let mut tally = RowTally::new(alloc);
        for row in rows {
            tally.put(alloc, row)?;
        }
        Ok(tally)
    }

    /// Whether there is no row.
    pub fn is_empty(&self) -> bool
        ensures none { IsTrue result → (r : Row) → counted r self.now ≡ 0 }
        ensures some { result ≡ false → (r : Row) × (0 < counted r self.now) }
    {
        self.counts.is_empty()
    }

    /// How often the row stands there.
    pub fn get(&self, row: &Row) -> usize
        ensures { result ≡ counted row.now self.now }
    {
        self.counts.get(row).copied().unwrap_or(0)
    }

    /// Puts the row in once more.
    pub fn put(&mut self, alloc: Global, row: &Row) -> Result<(), OutOfMemory>
        requires { counted row.now self.old + 1 < 2 ^ 64 }
        ensures ok { OnOk result ((r : Row) → counted r self.new
            ≡ counted r self.old + once r row.now) }
        ensures same { OnErr result (self.new ≡ self.old) }
    {
        let count = self.get(row) + 1;
        self.counts.insert(row.try_clone(alloc)?, count)?;
        Ok(())
    }

    /// Takes the row out once, where it stands there.
    pub fn take(&mut self, row: &Row) -> bool
        ensures taken { (r : Row) → counted r self.new + cond result (once r row.now) 0
            ≡ counted r self.old }
        ensures none { result ≡ false → counted row.now self.new ≡ 0 }
    {
        let Some(count) = self.counts.get_mut(row) else {
            return false;
        };
        if *count > 1 {
            *count -= 1;
        } else {
            self.counts.remove(row);
        }
        true
    }
}
