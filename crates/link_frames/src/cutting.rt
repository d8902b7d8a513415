//! Messages cut into parts.
ghost use Rattle.std.specs.Prelude.{◌≡◌, ◌∷◌, ◌++◌, ◌<◌, ◌≤◌, ◌^◌, [], map, length, All, IfOk};
ghost use Rattle.dist_types.specs.Listing.{max_rows};
ghost use Rattle.link_frames.specs.Spelling.{text_bytes};
ghost use Rattle.link_frames.specs.Stream.{max_body};
ghost use Rattle.link_frames.specs.Parts.{kind_byte, part_bytes, message2_bytes, parts, parts_from, before_last, HasSome, HasParts};

use crate::message::Message;
use crate::part::PartKind;
use crate::part_encoding::{encode_discover, encode_down, encode_part};
use crate::part_laws::fits_a_reader_in_parts;
use dist_types::{Body, MAX_ROWS, OutOfMemory, Row, Scope};
use std::alloc::Global;

/// The bodies in which a message is said on a link of version 2: its rows in parts of `MAX_ROWS`,
/// of which the last is shorter or full.
pub fn encode_parts(alloc: Global, message: &Message) -> Result<Vec<Body>, OutOfMemory>
    requires { HasParts message.now }
    ensures value { IfOk result (λ bodies. bodies.items ≡ map message2_bytes (parts message.now)) }
    // So each fits the reader of its stream.
    ensures short { IfOk result (λ bodies. All (λ body. length body ≤ max_body) bodies.items) }
{
    match message {
        Message::Discover(scope) => alone(alloc, encode_discover(alloc, scope)?),
        Message::Sync(scope, rows) => cut(alloc, PartKind::Sync, scope, rows.as_slice()),
        Message::Join(scope, rows) => cut(alloc, PartKind::Join, scope, rows.as_slice()),
        Message::Leave(scope, rows) => cut(alloc, PartKind::Leave, scope, rows.as_slice()),
        Message::Down(scope) => alone(alloc, encode_down(alloc, scope)?),
    }
}

fn alone(alloc: Global, body: Body) -> Result<Vec<Body>, OutOfMemory>
    requires { length body ≤ max_body }
    ensures value { IfOk result (λ bodies. bodies.items ≡ body ∷ []) }
    ensures short { IfOk result (λ bodies. All (λ body. length body ≤ max_body) bodies.items) }
{
    let mut bodies = Vec::new(alloc);
    bodies.push(body)?;
    Ok(bodies)
}

/// The parts of that kind.
fn cut(alloc: Global, kind: PartKind, scope: &Scope, rows: &[Row]) -> Result<Vec<Body>, OutOfMemory>
    requires some { HasSome kind rows.now }
    requires few { length rows.now < 2 ^ 32 }
    ensures value { IfOk result
        (λ bodies. bodies.items
        ≡ map message2_bytes (parts_from kind scope.now 1 (before_last rows.now) rows.now)) }
    ensures short { IfOk result (λ bodies. All (λ body. length body ≤ max_body) bodies.items) }
{
    let mut bodies = Vec::new(alloc);
    let mut rest = rows;
    let mut number: u32 = 1;
    while rest.len() > MAX_ROWS {
        let (part, behind) = rest.split_at(MAX_ROWS);
        bodies.push(part_body(alloc, kind, scope, number, false, part)?)?;
        rest = behind;
        number += 1;
    }
    bodies.push(part_body(alloc, kind, scope, number, true, rest)?)?;
    Ok(bodies)
}

/// The body of one part.
fn part_body(
    alloc: Global,
    kind: PartKind,
    scope: &Scope,
    number: u32,
    last: bool,
    rows: &[Row],
) -> Result<Body, OutOfMemory>
    requires from_one { 1 ≤ number }
    requires few { length rows.now ≤ max_rows }
    requires some { HasSome kind rows.now }
    ensures value { IfOk result
        (λ body. body
        ≡ kind_byte kind ∷ text_bytes scope.now ++ part_bytes number last rows.now) }
    ensures short { IfOk result (λ body. length body ≤ max_body) }
{
    fits_a_reader_in_parts();
    let mut bytes = Vec::new(alloc);
    encode_part(kind, scope, number, last, rows, &mut bytes)?;
    let body = Body::of(bytes)?;
    Ok(body)
}
