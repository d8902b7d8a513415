//! Rows that the peer asks to leave.
ghost use Rattle.std.specs.Prelude.{◌≡◌, ◌<◌, ℕ, length, get_or, slice_index, IfOk};
ghost use Rattle.dist_types.specs.declared.row.Row.{Row};
ghost use Rattle.otp_edge.specs.Lefts.{IsLeft};

use crate::tally::cut_to;
use dist_types::{Items, OutOfMemory, Row, Scope};
use link_frames::Message;
use std::alloc::Global;

/// Rows that a process of the peer's scope asks to leave: not all of them are listed.
#[derive(Debug, Drop)]
pub struct Left {
    pub scope: Scope,
    pub rows: Items<Row>,
}

impl Left {
    /// The Leave that is handed in: each row as often as it is asked for, and as it is listed; none
    /// where no row is. `counts` has for each row how often the node lists it of the peer, and
    /// where one is missing, nothing is handed in.
    pub fn cut(self, alloc: Global, counts: &[usize]) -> Result<Option<Message>, OutOfMemory>
        ensures { IfOk result (λ read. (listed : Row → ℕ) → length counts.now ≡ length self.rows →
            ((place : ℕ) (d : Row) → place < length self.rows → slice_index counts.now place ≡
            listed (get_or self.rows place d)) → IsLeft self.scope self.rows listed read) }
    {
        let Left { scope, rows } = self;
        if counts.len() != rows.as_slice().len() {
            return Ok(None);
        }
        let kept = cut_to(alloc, rows.as_slice(), counts)?;
        if kept.is_empty() {
            return Ok(None);
        }
        Ok(Some(Message::Leave(scope, Items::of(kept))))
    }
}
