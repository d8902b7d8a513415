//! Messages of the links between nodes, as the node takes and gives them.
ghost use Rattle.std.specs.Prelude.{◌≡◌, ◌<◌, ◌≤◌, length, true, false, Some, OnOk};
ghost use Rattle.otp_edge.specs.Handed.{PutsFrame};
ghost use Rattle.otp_edge.specs.Opens.{HasRows};

use crate::own_terms::put_whole;
use dist_types::{MAX_ROWS, OutOfMemory, Row};
use link_frames::{Message, encode, encode_parts};
use std::alloc::Global;

/// The most rows of a message that is handed in in parts.
const MAX_IN_PARTS: usize = 65_536;

/// Appends a message behind its length, or its parts, each behind its own. A message that can't be
/// said so is left out: `Edge::hear` gives none.
pub fn put_message(
    alloc: Global,
    message: &Message,
    in_parts: bool,
    out: &mut Vec<u8>,
) -> Result<(), OutOfMemory>
    ensures { in_parts ≡ false → OnOk result (PutsFrame (Some message.now) out.old.items
        out.new.items) }
{
    if in_parts {
        put_parts(alloc, message, out)
    } else {
        put_whole_message(alloc, message, out)
    }
}

fn put_whole_message(alloc: Global, message: &Message, out: &mut Vec<u8>) -> Result<(), OutOfMemory>
    ensures { OnOk result (PutsFrame (Some message.now) out.old.items out.new.items) }
{
    if !has_rows(message, MAX_ROWS) {
        return Ok(());
    }
    let mut body = Vec::new(alloc);
    encode(message, &mut body)?;
    put_whole(&body, out)
}

fn put_parts(alloc: Global, message: &Message, out: &mut Vec<u8>) -> Result<(), OutOfMemory> {
    if !has_rows(message, MAX_IN_PARTS) {
        return Ok(());
    }
    for body in &encode_parts(alloc, message)? {
        put_whole(body.as_slice(), out)?;
    }
    Ok(())
}

/// Whether it has no more rows, and a join and a leave one at least.
fn has_rows(message: &Message, most: usize) -> bool
    ensures has { result ≡ true → HasRows most message.now }
    ensures lacks { result ≡ false → HasRows most message.now → ⊥ }
{
    match message {
        Message::Sync(_, rows) => rows.as_slice().len() <= most,
        Message::Join(_, rows) | Message::Leave(_, rows) => has_some(rows.as_slice(), most),
        Message::Discover(_) | Message::Down(_) => true,
    }
}

fn has_some(rows: &[Row], most: usize) -> bool
    ensures some { result ≡ true → 0 < length rows.now }
    ensures few { result ≡ true → length rows.now ≤ most }
    ensures lacks { result ≡ false → 0 < length rows.now → length rows.now ≤ most → ⊥ }
{
    !rows.is_empty() && rows.len() <= most
}
