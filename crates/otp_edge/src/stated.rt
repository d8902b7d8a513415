//! The groups of a sync, each with its processes.
ghost use Rattle.std.specs.Prelude.{◌≡◌, ◌++◌, ℕ, List, length, All, IfOk, IfErr};
ghost use Rattle.std.specs.List.{flat_map};
ghost use Rattle.otp_edge.specs.Fault.{IsFaultOf};
ghost use Rattle.otp_edge.specs.Lists.{listed, IsList, StandsFirst, Front};
ghost use Rattle.otp_edge.specs.PgMessages.{Stated, IsStated, stated_bytes, rows_in};
ghost use Rattle.otp_edge.specs.PgMessages.{rows_stated};

use crate::fault::HearFault;
use crate::groups::term_at;
use crate::list::{after_tuple, front_at};
use crate::members::listed_at;
use crate::rows::push_rows;
use dist_types::Row;
use external_terms::after_nil;
use std::alloc::Global;

/// The rows of the list of groups at the front, and what stands behind it.
pub fn stated_at(alloc: Global, bytes: &[u8]) -> Result<(Vec<Row>, &[u8]), HearFault>
    ensures found { IfOk result (λ read. (ss : List Stated) × (read.0.items ≡ rows_stated ss) ×
        StandsFirst (listed stated_bytes) (IsList IsStated) bytes.now ss read.1.now) }
    ensures only { (ss : List Stated) (rest : List ℕ) → IsList IsStated ss →
        bytes.now ≡ listed stated_bytes ss ++ rest → IfErr result (IsFaultOf (rows_stated ss)) }
{
    let Some((count, rest)) = front_at(bytes) else {
        return Err(HearFault::NoMessage);
    };
    let (rows, rest) = entries_at(alloc, count, rest)?;
    let Some(rest) = after_nil(rest) else {
        return Err(HearFault::NoMessage);
    };
    Ok((rows, rest))
}

/// The rows of that many groups, one behind the other.
fn entries_at(alloc: Global, count: u32, bytes: &[u8]) -> Result<(Vec<Row>, &[u8]), HearFault>
    ensures found { IfOk result (λ read. (ss : List Stated) × (read.0.items ≡ rows_stated ss) ×
        (length ss ≡ count) × Front stated_bytes IsStated bytes.now ss read.1.now) }
    ensures only { (ss : List Stated) (later : List ℕ) → length ss ≡ count → All IsStated ss →
        bytes.now ≡ flat_map stated_bytes ss ++ later → IfErr result (IsFaultOf (rows_stated ss)) }
{
    let mut rest = bytes;
    let mut rows = Vec::new(alloc);
    for _ in 0..count {
        rest = entry_at(alloc, rest, &mut rows)?;
    }
    Ok((rows, rest))
}

/// Appends the rows of the group at the front, and gives what stands behind it.
fn entry_at<'a>(alloc: Global, bytes: &'a [u8], rows: &mut Vec<Row>) -> Result<&'a [u8], HearFault>
    ensures found { IfOk result (λ rest. (s : Stated) ×
        (rows.new.items ≡ rows.old.items ++ rows_in s.group s.pids) ×
        StandsFirst stated_bytes IsStated bytes.now s rest.now) }
    ensures only { (s : Stated) (later : List ℕ) → IsStated s →
        bytes.now ≡ stated_bytes s ++ later →
        IfErr result (IsFaultOf (rows.old.items ++ rows_in s.group s.pids)) }
{
    let Some(rest) = after_tuple(2, bytes) else {
        return Err(HearFault::NoMessage);
    };
    let (group, rest) = term_at(rest)?;
    let (pids, rest) = listed_at(alloc, rest)?;
    push_rows(alloc, group, &pids, rows)?;
    Ok(rest)
}
