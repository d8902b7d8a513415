//! Texts and rows at the front of a body. Each reader gives what it read and what stands behind it.
//! A row shares the texts that it has in common with the row before it.
ghost use Rattle.std.specs.Prelude.{◌≡◌, ◌<◌, ◌^◌, ◌++◌, ℕ, List, IfOk, IfSome, IsSomeAnd, MatchResult};
ghost use Rattle.std.specs.Int.{w16, w32, w64, to_be_bytes};
ghost use Rattle.dist_types.specs.Text.{IsText, IsNodeName};
ghost use Rattle.dist_types.specs.declared.row.Row.{Row};
ghost use Rattle.handshake_frames.specs.Spelling.{counted};
ghost use Rattle.link_frames.specs.Spelling.{text_bytes, row_bytes, IsRow};
ghost use Rattle.link_frames.specs.declared.fault.MessageFault.TheVariants as faults;

use crate::fault::MessageFault;
use dist_types::{Group, NodeName, Pid, Row, Scope, TryClone, bytes_at, u32_at, u64_at};
use handshake_frames::counted_at;
use std::alloc::Global;

pub fn scope_at(alloc: Global, bytes: &[u8]) -> Result<(Scope, &[u8]), MessageFault>
    ensures found { IfOk result (λ read. IsText read.0
        × (bytes.now ≡ text_bytes read.0 ++ read.1.now)) }
    ensures only { (scope rest : List ℕ) → IsText scope → bytes.now ≡ text_bytes scope ++ rest →
        MatchResult result (λ read. (read.0 ≡ scope) × (read.1.now ≡ rest)) (λ fault. fault
        ≡ faults.OutOfMemory) }
{
    let (text, rest) = short_at(bytes).ok_or(MessageFault::BadFrame)?;
    Ok((Scope::parse(alloc, text)?, rest))
}

pub fn row_at<'a>(
    alloc: Global,
    bytes: &'a [u8],
    before: Option<&Row>,
) -> Result<(Row, &'a [u8]), MessageFault>
    ensures found { IfOk result (λ read. IsRow read.0
        × (bytes.now ≡ row_bytes read.0 ++ read.1.now)) }
    ensures only { (row : Row) (rest : List ℕ) → IsRow row → bytes.now ≡ row_bytes row ++ rest →
        MatchResult result (λ read. (read.0 ≡ row) × (read.1.now ≡ rest)) (λ fault. fault
        ≡ faults.OutOfMemory) }
{
    let (group, rest) = group_at(alloc, bytes, before)?;
    let (node, rest) = node_at(alloc, rest, before)?;
    let (creation, number, rest) = numbers_at(rest).ok_or(MessageFault::BadFrame)?;
    let pid = Pid {
        node,
        creation,
        number,
    };
    Ok((Row { group, pid }, rest))
}

fn group_at<'a>(
    alloc: Global,
    bytes: &'a [u8],
    before: Option<&Row>,
) -> Result<(Group, &'a [u8]), MessageFault>
    ensures found { IfOk result (λ read. IsText read.0
        × (bytes.now ≡ text_bytes read.0 ++ read.1.now)) }
    ensures only { (group rest : List ℕ) → IsText group → bytes.now ≡ text_bytes group ++ rest →
        MatchResult result (λ read. (read.0 ≡ group) × (read.1.now ≡ rest)) (λ fault. fault
        ≡ faults.OutOfMemory) }
{
    let (text, rest) = short_at(bytes).ok_or(MessageFault::BadFrame)?;
    let group = match before {
        Some(row) if row.group.as_bytes() == text => row.group.try_clone(alloc)?,
        _ => Group::parse(alloc, text)?,
    };
    Ok((group, rest))
}

fn node_at<'a>(
    alloc: Global,
    bytes: &'a [u8],
    before: Option<&Row>,
) -> Result<(NodeName, &'a [u8]), MessageFault>
    ensures found { IfOk result (λ read. IsNodeName read.0
        × (bytes.now ≡ counted w16 read.0 ++ read.1.now)) }
    ensures only { (name rest : List ℕ) → IsNodeName name → bytes.now ≡ counted w16 name ++ rest →
        MatchResult result (λ read. (read.0 ≡ name) × (read.1.now ≡ rest)) (λ fault. fault
        ≡ faults.OutOfMemory) }
{
    let (text, rest) = counted_at(bytes).ok_or(MessageFault::BadFrame)?;
    let node = match before {
        Some(row) if row.pid.node.as_bytes() == text => row.pid.node.try_clone(alloc)?,
        _ => NodeName::parse(alloc, text)?,
    };
    Ok((node, rest))
}

/// The creation and the number of a process.
fn numbers_at(bytes: &[u8]) -> Option<(u32, u64, &[u8])>
    ensures found { IfSome result (λ read. (read.0 < 2 ^ 32) × (read.1 < 2 ^ 64) ×
        (bytes.now ≡ to_be_bytes w32 read.0 ++ (to_be_bytes w64 read.1 ++ read.2.now))) }
    ensures only { (creation number : ℕ) (rest : List ℕ) → creation < 2 ^ 32 → number < 2 ^ 64 →
        bytes.now ≡ to_be_bytes w32 creation ++ (to_be_bytes w64 number ++ rest) →
        IsSomeAnd result (λ read. (read.0 ≡ creation) × (read.1 ≡ number) × (read.2.now ≡ rest)) }
{
    let (creation, rest) = u32_at(bytes)?;
    let (number, rest) = u64_at(rest)?;
    Some((creation, number, rest))
}

/// The bytes behind their length of 1 byte.
fn short_at(bytes: &[u8]) -> Option<(&[u8], &[u8])>
    ensures found { IfSome result (λ read. bytes.now ≡ text_bytes read.0.now ++ read.1.now) }
    ensures only { (text rest : List ℕ) → bytes.now ≡ text_bytes text ++ rest →
        IsSomeAnd result (λ read. (read.0.now ≡ text) × (read.1.now ≡ rest)) }
{
    let (len, rest) = bytes.split_first()?;
    bytes_at(usize::from(*len), rest)
}
