//! The messages of version 2 to bodies.
ghost use Rattle.std.specs.Prelude.{◌≡◌, ◌++◌, ◌∷◌, ◌≤◌, ◌<◌, List, ℕ, length, OnOk, OnErr, IfOk};
ghost use Rattle.dist_types.specs.Listing.{max_rows};
ghost use Rattle.link_frames.specs.Spelling.{text_bytes, AreRows};
ghost use Rattle.link_frames.specs.Stream.{max_body};
ghost use Rattle.link_frames.specs.Parts.{kind_byte, part_bytes, message2_bytes, HasSome, IsPart, IsMessage2, HasSpelling2};

use crate::encoding::{put_rows, put_scope};
use crate::part::{Message2, PartKind};
use dist_types::{Body, OutOfMemory, Row, Scope};
use std::alloc::Global;

/// Appends the message's body. A part has a number from 1 on and at most `MAX_ROWS` rows; one of a
/// Join or a Leave has a row.
pub fn encode_v2(message: &Message2, out: &mut Vec<u8>) -> Result<(), OutOfMemory>
    requires { HasSpelling2 message.now }
    ensures ok { OnOk result (out.new.items ≡ out.old.items ++ message2_bytes message.now) }
    // So what is appended spells the message.
    ensures limits { OnOk result (IsMessage2 message.now) }
    ensures same { OnErr result (out.new.items ≡ out.old.items) }
{
    match message {
        Message2::Discover(scope) => put_scope(b'D', scope, out),
        Message2::Part {
            kind,
            scope,
            number,
            last,
            rows,
        } => encode_part(*kind, scope, *number, *last, rows.as_slice(), out),
        Message2::Down(scope) => put_scope(b'X', scope, out),
    }
}

/// The same of a part whose rows stand among others.
pub fn encode_part(
    kind: PartKind,
    scope: &Scope,
    number: u32,
    last: bool,
    rows: &[Row],
    out: &mut Vec<u8>,
) -> Result<(), OutOfMemory>
    requires from_one { 1 ≤ number }
    requires few { length rows.now ≤ max_rows }
    requires some { HasSome kind rows.now }
    ensures ok { OnOk result (out.new.items ≡ out.old.items
        ++ (kind_byte kind ∷ text_bytes scope.now ++ part_bytes number last rows.now)) }
    ensures limits { OnOk result (IsPart kind scope.now number rows.now) }
    ensures same { OnErr result (out.new.items ≡ out.old.items) }
{
    let before = out.len();
    put_scope(byte_of(kind), scope, out)?;
    if put_part(number, last, rows, out).is_err() {
        out.truncate(before);
        return Err(OutOfMemory);
    }
    Ok(())
}

/// The number of a part, whether it is the last, and its rows.
fn put_part(number: u32, last: bool, rows: &[Row], out: &mut Vec<u8>) -> Result<(), OutOfMemory>
    requires { length rows.now ≤ max_rows }
    ensures ok { OnOk result (out.new.items ≡ out.old.items ++ part_bytes number last rows.now) }
    ensures limits { OnOk result (AreRows rows.now) }
    ensures grown { OnErr result ((rest : List ℕ) × (out.new.items ≡ out.old.items ++ rest)) }
{
    out.extend_from_slice(&number.to_be_bytes())?;
    out.push(u8::from(last))?;
    put_rows(rows, out)
}

/// The byte of a kind of parts.
fn byte_of(kind: PartKind) -> u8
    ensures { result ≡ kind_byte kind }
{
    match kind {
        PartKind::Sync => b'S',
        PartKind::Join => b'J',
        PartKind::Leave => b'L',
    }
}

/// The body of a Discover.
pub fn encode_discover(alloc: Global, scope: &Scope) -> Result<Body, OutOfMemory>
    ensures value { IfOk result (λ body. body ≡ 0x44 ∷ text_bytes scope.now) }
    ensures short { IfOk result (λ body. length body ≤ max_body) }
{
    let mut body = Vec::new(alloc);
    put_scope(b'D', scope, &mut body)?;
    Body::of(body)
}

/// The body of a Down.
pub fn encode_down(alloc: Global, scope: &Scope) -> Result<Body, OutOfMemory>
    ensures value { IfOk result (λ body. body ≡ 0x58 ∷ text_bytes scope.now) }
    ensures short { IfOk result (λ body. length body ≤ max_body) }
{
    let mut body = Vec::new(alloc);
    put_scope(b'X', scope, &mut body)?;
    Body::of(body)
}
