//! Messages to bodies.
ghost use Rattle.std.specs.Prelude.{◌≡◌, ◌++◌, ◌∷◌, ◌≤◌, List, ℕ, length, OnOk, OnErr};
ghost use Rattle.dist_types.specs.Text.{IsText};
ghost use Rattle.dist_types.specs.Listing.{max_rows};
ghost use Rattle.link_frames.specs.Spelling.{text_bytes, row_bytes, rows_bytes, message_bytes, IsRow, AreRows, IsMessage, HasSpelling};

use crate::message::Message;
use dist_types::{OutOfMemory, Row, Scope};

/// The bytes of a row beside its group and its name: lengths 1 and 2, creation 4, number 8.
const ROW_NUMBERS: usize = 15;

/// Appends the message's body. A Join and a Leave must have a row, and no message more than
/// `MAX_ROWS`.
pub fn encode(message: &Message, out: &mut Vec<u8>) -> Result<(), OutOfMemory>
    requires { HasSpelling message.now }
    ensures ok { OnOk result (out.new.items ≡ out.old.items ++ message_bytes message.now) }
    // So what is appended spells the message.
    ensures limits { OnOk result (IsMessage message.now) }
    ensures same { OnErr result (out.new.items ≡ out.old.items) }
{
    match message {
        Message::Discover(scope) => put_scope(b'D', scope, out),
        Message::Sync(scope, rows) => put_listing(b'S', scope, rows.as_slice(), out),
        Message::Join(scope, rows) => put_listing(b'J', scope, rows.as_slice(), out),
        Message::Leave(scope, rows) => put_listing(b'L', scope, rows.as_slice(), out),
        Message::Down(scope) => put_scope(b'X', scope, out),
    }
}

fn put_listing(kind: u8, scope: &Scope, rows: &[Row], out: &mut Vec<u8>) -> Result<(), OutOfMemory>
    requires { length rows.now ≤ max_rows }
    ensures ok { OnOk result (out.new.items ≡ out.old.items
        ++ (kind ∷ text_bytes scope.now ++ rows_bytes rows.now)) }
    ensures limits { OnOk result (IsText scope.now × AreRows rows.now) }
    ensures same { OnErr result (out.new.items ≡ out.old.items) }
{
    let before = out.len();
    put_scope(kind, scope, out)?;
    if put_rows(rows, out).is_err() {
        out.truncate(before);
        return Err(OutOfMemory);
    }
    Ok(())
}

pub fn put_scope(kind: u8, scope: &Scope, out: &mut Vec<u8>) -> Result<(), OutOfMemory>
    ensures ok { OnOk result (out.new.items ≡ out.old.items ++ (kind ∷ text_bytes scope.now)) }
    ensures limits { IsText scope.now }
    ensures same { OnErr result (out.new.items ≡ out.old.items) }
{
    let text = scope.as_bytes();
    out.reserve(2 + text.len())?;
    out.push(kind)?;
    out.push(text.len() as u8)?;
    out.extend_from_slice(text)?;
    Ok(())
}

pub fn put_rows(rows: &[Row], out: &mut Vec<u8>) -> Result<(), OutOfMemory>
    requires { length rows.now ≤ max_rows }
    ensures ok { OnOk result (out.new.items ≡ out.old.items ++ rows_bytes rows.now) }
    ensures limits { OnOk result (AreRows rows.now) }
    ensures grown { OnErr result ((rest : List ℕ) × (out.new.items ≡ out.old.items ++ rest)) }
{
    out.extend_from_slice(&(rows.len() as u32).to_be_bytes())?;
    for row in rows {
        put_row(row, out)?;
    }
    Ok(())
}

fn put_row(row: &Row, out: &mut Vec<u8>) -> Result<(), OutOfMemory>
    ensures ok { OnOk result (out.new.items ≡ out.old.items ++ row_bytes row.now) }
    ensures limits { OnOk result (IsRow row.now) }
    ensures same { OnErr result (out.new.items ≡ out.old.items) }
{
    let group = row.group.as_bytes();
    let node = row.pid.node.as_bytes();
    out.reserve(ROW_NUMBERS + group.len() + node.len())?;
    out.push(group.len() as u8)?;
    out.extend_from_slice(group)?;
    out.extend_from_slice(&(node.len() as u16).to_be_bytes())?;
    out.extend_from_slice(node)?;
    out.extend_from_slice(&row.pid.creation.to_be_bytes())?;
    out.extend_from_slice(&row.pid.number.to_be_bytes())?;
    Ok(())
}
