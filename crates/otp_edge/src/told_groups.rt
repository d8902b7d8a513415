//! Rows gathered by group, as a process of a scope is told them.
ghost use Rattle.std.specs.Prelude.{◌≡◌, ◌≤◌, ◌++◌, length, take, All, IfOk, OnOk};
ghost use Rattle.std.specs.Prelude.{MatchOption, IsTrue, ◌↔◌};
ghost use Rattle.dist_types.specs.declared.row.Row.{Row};
ghost use Rattle.otp_edge.specs.Grouped.{IsGrouped, IsInGroup, IsLeftOut, MayBeTold};
ghost use Rattle.otp_edge.specs.Groups.{IsTermOf};
ghost use Rattle.otp_edge.specs.Said.{GoesOn};
ghost use Rattle.otp_edge.specs.Sayings.{rows_of};
ghost use Rattle.otp_edge.specs.Telling.{HasFew};

use crate::group_term::term_of;
use crate::life::Life;
use crate::telling::Told;
use dist_types::{Group, OutOfMemory, Row, TryClone};
use std::alloc::Global;

/// Rows that stand behind each other with the same group are told together. Those of a group that
/// has no term, or would be one atom too many, are left out.
pub fn groups_of<'a>(
    alloc: Global,
    rows: &'a [Row],
    life: &mut Life,
) -> Result<Vec<Told<'a>>, OutOfMemory>
    requires { length rows.now ≤ 65536 }
    ensures grouped { IfOk result (λ told. IsGrouped life.new.atoms.items rows.now told.items) }
    ensures few { IfOk result (λ told. length told.items ≤ length rows.now) }
    ensures each { IfOk result (λ told. All HasFew told.items) }
    ensures life { GoesOn life.old life.new }
{
    let mut told = Vec::new(alloc);
    let mut rest = rows;
    while let Some((first, tail)) = rest.split_first() {
        let (run, behind) = rest.split_at(run_len(&first.group, tail) + 1);
        if let Some(group) = told_term(alloc, &first.group, life)? {
            told.push(Told { group, rows: run })?;
        }
        rest = behind;
    }
    Ok(told)
}

/// The term by which a group is told; none where it isn't.
fn told_term(alloc: Global, group: &Group, life: &mut Life) -> Result<Option<Vec<u8>>, OutOfMemory>
    ensures term { IfOk result (λ read. MatchOption read
        (IsLeftOut life.new.atoms.items group.now) (λ term. IsTermOf term.items group.now ×
        MayBeTold life.new.atoms.items group.now)) }
    ensures life { GoesOn life.old life.new }
{
    let Some(term) = term_of(alloc, group)? else {
        return Ok(None);
    };
    if life.admit(alloc, group)? {
        Ok(Some(term))
    } else {
        Ok(None)
    }
}

/// How many rows at the front are of that group.
fn run_len(group: &Group, rows: &[Row]) -> usize
    ensures few { result ≤ length rows.now }
    ensures all { All (IsInGroup group.now) (take result rows.now) }
{
    for (place, row) in rows.iter().enumerate() {
        if !is_in_group(row, group) {
            return place;
        }
    }
    rows.len()
}

fn is_in_group(row: &Row, group: &Group) -> bool
    ensures { IsTrue result ↔ IsInGroup group.now row.now }
{
    row.group.as_bytes() == group.as_bytes()
}

/// All rows that are told.
pub fn rows_told(alloc: Global, told: &[Told<'_>]) -> Result<Vec<Row>, OutOfMemory>
    ensures { IfOk result (λ rows. rows.items ≡ rows_of told.now) }
{
    let mut rows = Vec::new(alloc);
    for one in told {
        push_copies(alloc, one.rows, &mut rows)?;
    }
    Ok(rows)
}

fn push_copies(alloc: Global, rows: &[Row], out: &mut Vec<Row>) -> Result<(), OutOfMemory>
    ensures { OnOk result (out.new.items ≡ out.old.items ++ rows.now) }
{
    for row in rows {
        out.push(row.try_clone(alloc)?)?;
    }
    Ok(())
}
