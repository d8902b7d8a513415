//! Bodies to messages.
ghost use Rattle.std.specs.Prelude.{◌≡◌, ◌∷◌, ◌++◌, ◌<◌, List, Some, None, All, IfOk, MatchResult, length};
ghost use Rattle.std.specs.List.{flat_map};
ghost use Rattle.link_frames.specs.declared.fault.MessageFault.TheVariants as faults;
ghost use Rattle.link_frames.specs.declared.message.Message.{Message};
ghost use Rattle.dist_types.specs.Text.{IsText};
ghost use Rattle.dist_types.specs.declared.row.Row.{Row};
ghost use Rattle.link_frames.specs.Spelling.{text_bytes, row_bytes, rows_bytes, IsRow, AreRows, SpellsMessage};
ghost use Rattle.link_frames.specs.Reading.{message};

use crate::fault::MessageFault;
use crate::fields::{row_at, scope_at};
use crate::message::{Message, Rows};
use dist_types::{MAX_ROWS, Scope, u32_at};
use std::alloc::Global;

/// The fewest bytes of a row: lengths 1 and 2, a group of 1, a name of 3, creation 4, number 8.
const MIN_ROW: usize = 19;

/// Reads a message: the kind byte `D`, `S`, `J`, `L` or `X`, the scope behind its length of 1 byte,
/// and for `S`, `J` and `L` the count of the rows in 4 bytes and the rows, with nothing after them.
/// A row is the group behind its length of 1 byte, the name behind its length of 2 bytes, the
/// creation in 4 and the number in 8.
pub fn decode(alloc: Global, body: &[u8]) -> Result<Message, MessageFault>
    // What is read is spelled so.
    ensures found { IfOk result (SpellsMessage body.now) }
    // What is spelled so is read, where there is memory for it.
    ensures only { (m : Message) → SpellsMessage body.now m →
        MatchResult result (λ read. read ≡ m) (λ fault. fault ≡ faults.OutOfMemory) }
    // The same by the reader that computes.
    ensures value { MatchResult result (λ m. message body.now ≡ Some m) (λ fault. fault
        ≡ faults.BadFrame → message body.now ≡ None) }
{
    let Some((kind, rest)) = body.split_first() else {
        return Err(MessageFault::BadFrame);
    };
    let (scope, rest) = scope_at(alloc, rest)?;
    message_of(alloc, *kind, scope, rest)
}

/// The message of that kind and scope, whose further bytes are these.
#[tactic(auto, using(crate::proofs::DecodingLemmas::sync_rows, crate::proofs::DecodingLemmas::join_rows, crate::proofs::DecodingLemmas::leave_rows))]
fn message_of(alloc: Global, kind: u8, scope: Scope, rest: &[u8]) -> Result<Message, MessageFault>
    requires { IsText scope }
    ensures found { IfOk result (SpellsMessage (kind ∷ text_bytes scope ++ rest.now)) }
    ensures only { (m : Message) → SpellsMessage (kind ∷ text_bytes scope ++ rest.now) m →
        MatchResult result (λ read. read ≡ m) (λ fault. fault ≡ faults.OutOfMemory) }
{
    match kind {
        b'D' if rest.is_empty() => Ok(Message::Discover(scope)),
        b'S' => Ok(Message::Sync(scope, rows_at(alloc, rest)?)),
        b'J' => Ok(Message::Join(scope, some_rows_at(alloc, rest)?)),
        b'L' => Ok(Message::Leave(scope, some_rows_at(alloc, rest)?)),
        b'X' if rest.is_empty() => Ok(Message::Down(scope)),
        _ => Err(MessageFault::BadFrame),
    }
}

pub fn some_rows_at(alloc: Global, bytes: &[u8]) -> Result<Rows, MessageFault>
    ensures found { IfOk result (λ rows. AreRows rows × (0 < length rows)
        × (bytes.now ≡ rows_bytes rows)) }
    ensures only { (rows : List Row) → AreRows rows → 0 < length rows → bytes.now ≡ rows_bytes rows
        →
        MatchResult result (λ read. read ≡ rows) (λ fault. fault ≡ faults.OutOfMemory) }
{
    let rows = rows_at(alloc, bytes)?;
    if rows.as_slice().is_empty() {
        return Err(MessageFault::BadFrame);
    }
    Ok(rows)
}

pub fn rows_at(alloc: Global, bytes: &[u8]) -> Result<Rows, MessageFault>
    ensures found { IfOk result (λ rows. AreRows rows × (bytes.now ≡ rows_bytes rows)) }
    ensures only { (rows : List Row) → AreRows rows → bytes.now ≡ rows_bytes rows →
        MatchResult result (λ read. read ≡ rows) (λ fault. fault ≡ faults.OutOfMemory) }
{
    let (count, rest) = u32_at(bytes).ok_or(MessageFault::BadFrame)?;
    if count as usize > MAX_ROWS {
        return Err(MessageFault::BadFrame);
    }
    rows_of(alloc, count, rest)
}

/// That many rows, with nothing after them.
fn rows_of(alloc: Global, count: u32, bytes: &[u8]) -> Result<Rows, MessageFault>
    ensures found { IfOk result (λ rows. (length rows ≡ count) × All IsRow rows
        × (bytes.now ≡ flat_map row_bytes rows)) }
    ensures only { (rows : List Row) → length rows ≡ count → All IsRow rows
        → bytes.now ≡ flat_map row_bytes rows →
        MatchResult result (λ read. read ≡ rows) (λ fault. fault ≡ faults.OutOfMemory) }
{
    let mut rest = bytes;
    // Room for no more rows than the bytes can hold, whatever the count.
    let mut rows = Vec::with_capacity(alloc, (count as usize).min(bytes.len() / MIN_ROW))?;
    for _ in 0..count {
        let (row, behind) = row_at(alloc, rest, rows.last())?;
        rows.push(row)?;
        rest = behind;
    }
    if !rest.is_empty() {
        return Err(MessageFault::BadFrame);
    }
    Ok(Rows::of(rows))
}
