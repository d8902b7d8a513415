//! Rows of processes in groups that are terms.
ghost use Rattle.std.specs.Prelude.{◌≡◌, ◌++◌, OnOk, IfErr};
ghost use Rattle.otp_edge.specs.Fault.{IsFaultOf};
ghost use Rattle.otp_edge.specs.PgMessages.{rows_in};

use crate::fault::HearFault;
use crate::group::group_of;
use dist_types::{Pid, Row, TryClone};
use std::alloc::Global;

/// The most rows that one message may speak of.
pub const MAX_SAID: usize = 65_536;

/// Appends a row for each process, in the group of a term; none where that group isn't carried.
#[tactic(auto, using(crate::proofs::RowLemmas::more_rows))]
pub fn push_rows(
    alloc: Global,
    term: &[u8],
    pids: &[Pid],
    rows: &mut Vec<Row>,
) -> Result<(), HearFault>
    ensures ok { OnOk result (rows.new.items ≡ rows.old.items ++ rows_in term.now pids.now) }
    ensures refused { IfErr result (IsFaultOf (rows.old.items ++ rows_in term.now pids.now)) }
{
    let Some(group) = group_of(alloc, term)? else {
        return Ok(());
    };
    if rows.len() > MAX_SAID || pids.len() > MAX_SAID - rows.len() {
        return Err(HearFault::TooManyRows);
    }
    rows.reserve(pids.len())?;
    for pid in pids {
        let group = group.try_clone(alloc)?;
        let pid = pid.try_clone(alloc)?;
        rows.push(Row { group, pid })?;
    }
    Ok(())
}
