//! The groups of a leave.
ghost use Rattle.std.specs.Prelude.{◌≡◌, ◌≢◌, ◌++◌, ℕ, List, length, All, IfOk, IfErr, map};
ghost use Rattle.std.specs.List.{flat_map};
ghost use Rattle.external_terms.specs.Terms.{SpellsTerm};
ghost use Rattle.external_terms.specs.Values.{small_integer_bytes};
ghost use Rattle.otp_edge.specs.Fault.{IsFaultOf};
ghost use Rattle.otp_edge.specs.Lists.{listed, IsList, StandsFirst, Front};
ghost use Rattle.otp_edge.specs.PgMessages.{Groups, AreGroups, groups_bytes, groups_of, rows_left};
ghost use Rattle.otp_edge.specs.declared.fault.HearFault.TheVariants as faults;

use crate::fault::HearFault;
use crate::list::front_at;
use crate::rows::push_rows;
use dist_types::{Pid, Row};
use external_terms::{after_nil, numbers_at, skip};
use std::alloc::Global;

/// The rows of these processes in the groups of a leave at the front, and what stands behind them.
pub fn left_at<'a>(
    alloc: Global,
    bytes: &'a [u8],
    pids: &[Pid],
) -> Result<(Vec<Row>, &'a [u8]), HearFault>
    ensures found { IfOk result (λ read. (gs : Groups) ×
        (read.0.items ≡ rows_left pids.now (groups_of gs)) ×
        StandsFirst groups_bytes AreGroups bytes.now gs read.1.now) }
    ensures only { (gs : Groups) (rest : List ℕ) → AreGroups gs →
        bytes.now ≡ groups_bytes gs ++ rest →
        IfErr result (IsFaultOf (rows_left pids.now (groups_of gs))) }
{
    match numbers_at(bytes) {
        Some((numbers, rest)) => Ok((rows_of_numbers(alloc, numbers, pids)?, rest)),
        None => terms_at(alloc, bytes, pids),
    }
}

/// The rows of these processes in the groups of the list at the front.
fn terms_at<'a>(
    alloc: Global,
    bytes: &'a [u8],
    pids: &[Pid],
) -> Result<(Vec<Row>, &'a [u8]), HearFault>
    ensures found { IfOk result (λ read. (gs : List (List ℕ)) ×
        (read.0.items ≡ rows_left pids.now gs) ×
        StandsFirst (listed (λ g. g)) (IsList SpellsTerm) bytes.now gs read.1.now) }
    ensures only { (gs : List (List ℕ)) (rest : List ℕ) → IsList SpellsTerm gs →
        bytes.now ≡ listed (λ g. g) gs ++ rest → IfErr result (IsFaultOf (rows_left pids.now gs)) }
{
    let Some((count, rest)) = front_at(bytes) else {
        return Err(HearFault::NoMessage);
    };
    let (rows, rest) = rows_at(alloc, count, rest, pids)?;
    let Some(rest) = after_nil(rest) else {
        return Err(HearFault::NoMessage);
    };
    Ok((rows, rest))
}

/// The rows of these processes in the groups that are numbers from 0 to 255: a number is a term,
/// and no letter of a text.
fn rows_of_numbers(alloc: Global, numbers: &[u8], pids: &[Pid]) -> Result<Vec<Row>, HearFault>
    ensures ok { IfOk result (λ rows. rows.items ≡ rows_left pids.now
        (map small_integer_bytes numbers.now)) }
    ensures refused { IfErr result (IsFaultOf (rows_left pids.now
        (map small_integer_bytes numbers.now))) }
{
    let mut rows = Vec::new(alloc);
    for number in numbers {
        push_rows(alloc, &[97, *number], pids, &mut rows)?;
    }
    Ok(rows)
}

/// The rows of these processes in that many groups, one behind the other.
fn rows_at<'a>(
    alloc: Global,
    count: u32,
    bytes: &'a [u8],
    pids: &[Pid],
) -> Result<(Vec<Row>, &'a [u8]), HearFault>
    ensures found { IfOk result (λ read. (gs : List (List ℕ)) ×
        (read.0.items ≡ rows_left pids.now gs) × (length gs ≡ count) ×
        Front (λ g. g) SpellsTerm bytes.now gs read.1.now) }
    ensures only { (gs : List (List ℕ)) (later : List ℕ) → length gs ≡ count → All SpellsTerm gs →
        bytes.now ≡ flat_map (λ g. g) gs ++ later →
        IfErr result (IsFaultOf (rows_left pids.now gs)) }
{
    let mut rest = bytes;
    let mut rows = Vec::new(alloc);
    for _ in 0..count {
        let (group, behind) = term_at(rest)?;
        push_rows(alloc, group, pids, &mut rows)?;
        rest = behind;
    }
    Ok((rows, rest))
}

/// The term at the front, and what stands behind it.
pub fn term_at(bytes: &[u8]) -> Result<(&[u8], &[u8]), HearFault>
    ensures found { IfOk result (λ read. StandsFirst (λ g. g) SpellsTerm bytes.now read.0.now
        read.1.now) }
    ensures only { (term rest : List ℕ) → SpellsTerm term → bytes.now ≡ term ++ rest →
        IfErr result (λ fault. fault ≢ faults.NoMessage) }
    ensures refused { IfErr result (λ fault. fault ≢ faults.TooManyRows) }
{
    skip(bytes).map_err(|_| HearFault::NoMessage)
}
