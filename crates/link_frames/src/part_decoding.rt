//! Bodies to the messages of version 2.
ghost use Rattle.std.specs.Prelude.{◌≡◌, ◌∷◌, ◌++◌, ◌<◌, ◌≤◌, ◌^◌, ℕ, Bool, List, Some, None, IfOk, IfSome, IsSomeAnd, MatchResult};
ghost use Rattle.std.specs.Int.{w32, to_be_bytes};
ghost use Rattle.link_frames.specs.declared.fault.MessageFault.TheVariants as faults;
ghost use Rattle.link_frames.specs.declared.part.Message2.{Message2};
ghost use Rattle.dist_types.specs.Text.{IsText};
ghost use Rattle.dist_types.specs.declared.row.Row.{Row};
ghost use Rattle.link_frames.specs.Spelling.{text_bytes, rows_bytes, AreRows};
ghost use Rattle.link_frames.specs.Parts.{kind_byte, last_byte, HasSome, SpellsMessage2};
ghost use Rattle.link_frames.specs.PartReading.{message2};

use crate::decoding::{rows_at, some_rows_at};
use crate::fault::MessageFault;
use crate::fields::scope_at;
use crate::message::Rows;
use crate::part::{Message2, PartKind};
use dist_types::{Scope, u32_at};
use std::alloc::Global;

/// Reads a message of version 2: the kind byte `D`, `S`, `J`, `L` or `X`, the scope behind its
/// length of 1 byte, and for `S`, `J` and `L` the number of the part in 4 bytes, 01 for the last
/// part or 00, the count of the rows in 4 bytes and the rows, with nothing after them.
pub fn decode_v2(alloc: Global, body: &[u8]) -> Result<Message2, MessageFault>
    // What is read is spelled so.
    ensures found { IfOk result (SpellsMessage2 body.now) }
    // What is spelled so is read, where there is memory for it.
    ensures only { (m : Message2) → SpellsMessage2 body.now m →
        MatchResult result (λ read. read ≡ m) (λ fault. fault ≡ faults.OutOfMemory) }
    // The same by the reader that computes.
    ensures value { MatchResult result (λ m. message2 body.now ≡ Some m) (λ fault. fault
        ≡ faults.BadFrame → message2 body.now ≡ None) }
{
    let Some((kind, rest)) = body.split_first() else {
        return Err(MessageFault::BadFrame);
    };
    let (scope, rest) = scope_at(alloc, rest)?;
    message2_of(alloc, *kind, scope, rest)
}

/// The message of that kind and scope, whose further bytes are these.
fn message2_of(alloc: Global, kind: u8, scope: Scope, rest: &[u8]) -> Result<Message2, MessageFault>
    requires { IsText scope }
    ensures found { IfOk result (SpellsMessage2 (kind ∷ text_bytes scope ++ rest.now)) }
    ensures only { (m : Message2) → SpellsMessage2 (kind ∷ text_bytes scope ++ rest.now) m →
        MatchResult result (λ read. read ≡ m) (λ fault. fault ≡ faults.OutOfMemory) }
{
    match kind {
        b'D' if rest.is_empty() => Ok(Message2::Discover(scope)),
        b'S' => part_of(alloc, PartKind::Sync, scope, rest),
        b'J' => part_of(alloc, PartKind::Join, scope, rest),
        b'L' => part_of(alloc, PartKind::Leave, scope, rest),
        b'X' if rest.is_empty() => Ok(Message2::Down(scope)),
        _ => Err(MessageFault::BadFrame),
    }
}

/// The part of that kind and scope, whose further bytes are these.
fn part_of(
    alloc: Global,
    kind: PartKind,
    scope: Scope,
    bytes: &[u8],
) -> Result<Message2, MessageFault>
    requires { IsText scope }
    ensures found { IfOk result (SpellsMessage2 (kind_byte kind ∷ text_bytes scope ++ bytes.now)) }
    ensures only { (m : Message2) → SpellsMessage2 (kind_byte kind ∷ text_bytes scope
        ++ bytes.now) m →
        MatchResult result (λ read. read ≡ m) (λ fault. fault ≡ faults.OutOfMemory) }
{
    let (number, last, rest) = place_at(bytes).ok_or(MessageFault::BadFrame)?;
    let rows = rows_of_kind(alloc, kind, rest)?;
    Ok(Message2::Part {
        kind,
        scope,
        number,
        last,
        rows,
    })
}

/// The number of a part, and whether it is the last.
fn place_at(bytes: &[u8]) -> Option<(u32, bool, &[u8])>
    ensures found { IfSome result (λ read. (1 ≤ read.0) × (read.0 < 2 ^ 32)
        × (bytes.now ≡ to_be_bytes w32 read.0 ++ (last_byte read.1 ∷ read.2.now))) }
    ensures only { (number : ℕ) (last : Bool) (rest : List ℕ) → 1 ≤ number → number < 2 ^ 32
        → bytes.now ≡ to_be_bytes w32 number ++ (last_byte last ∷ rest) →
        IsSomeAnd result (λ read. (read.0 ≡ number) × (read.1 ≡ last) × (read.2.now ≡ rest)) }
{
    let (number, rest) = u32_at(bytes)?;
    let (mark, rest) = rest.split_first()?;
    let last = match mark {
        0 => false,
        1 => true,
        _ => return None,
    };
    if number == 0 {
        return None;
    }
    Some((number, last, rest))
}

/// The rows of a part of that kind.
fn rows_of_kind(alloc: Global, kind: PartKind, bytes: &[u8]) -> Result<Rows, MessageFault>
    ensures found { IfOk result (λ rows. AreRows rows × HasSome kind rows
        × (bytes.now ≡ rows_bytes rows)) }
    ensures only { (rows : List Row) → AreRows rows → HasSome kind rows
        → bytes.now ≡ rows_bytes rows →
        MatchResult result (λ read. read ≡ rows) (λ fault. fault ≡ faults.OutOfMemory) }
{
    match kind {
        PartKind::Sync => rows_at(alloc, bytes),
        PartKind::Join => some_rows_at(alloc, bytes),
        PartKind::Leave => some_rows_at(alloc, bytes),
    }
}
