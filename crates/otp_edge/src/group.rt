//! Groups as texts and as terms.
ghost use Rattle.std.specs.Prelude.{◌≡◌, ◌<◌, ◌^◌, ℕ, List, length, Some, IfOk, IfSome};
ghost use Rattle.std.specs.Prelude.{IsSomeAnd};
ghost use Rattle.external_terms.specs.Values.{atom_bytes, binary_bytes};
ghost use Rattle.otp_edge.specs.Groups.{marked, has_mark, is_marked, text_or_none, atom_text};
ghost use Rattle.otp_edge.specs.Groups.{binary_text, hex_text, group_text};

use dist_types::{Group, OutOfMemory, TextFault, after_kind};
use external_terms::{atom_at, binary_at};
use std::alloc::Global;

/// The most bytes of a term that is carried in hex: two digits each behind `#x:` are a text.
const MAX_HEX_TERM: usize = 126;

/// The text of the group that a term is: of an atom its own, of a binary behind `#b:`, of any other
/// term its bytes in hex behind `#x:`. None where that is no text of a group.
#[tactic(auto, using(crate::proofs::GroupLemmas::by_atom, crate::proofs::GroupLemmas::by_binary, crate::proofs::GroupLemmas::by_hex))]
pub fn group_of(alloc: Global, term: &[u8]) -> Result<Option<Group>, OutOfMemory>
    ensures { IfOk result (λ group. group ≡ group_text term.now) }
{
    if let Some(group) = atom_group(alloc, term)? {
        return Ok(Some(group));
    }
    if let Some(group) = binary_group(alloc, term)? {
        return Ok(Some(group));
    }
    hex_group(alloc, term)
}

#[tactic(auto, using(crate::proofs::GroupLemmas::atom_found, crate::proofs::GroupLemmas::atom_marked, crate::proofs::GroupLemmas::atom_none))]
fn atom_group(alloc: Global, term: &[u8]) -> Result<Option<Group>, OutOfMemory>
    ensures { IfOk result (λ group. group ≡ atom_text term.now) }
{
    match only_atom(term) {
        Some(text) if !begins_marked(text) => group_named(alloc, text),
        _ => Ok(None),
    }
}

#[tactic(auto, using(crate::proofs::GroupLemmas::binary_found, crate::proofs::GroupLemmas::binary_none))]
fn binary_group(alloc: Global, term: &[u8]) -> Result<Option<Group>, OutOfMemory>
    ensures { IfOk result (λ group. group ≡ binary_text term.now) }
{
    match only_binary(term) {
        Some(bytes) => marked_group(alloc, b'b', bytes),
        None => Ok(None),
    }
}

#[tactic(auto, using(crate::proofs::GroupLemmas::hex_long))]
fn hex_group(alloc: Global, term: &[u8]) -> Result<Option<Group>, OutOfMemory>
    ensures { IfOk result (λ group. group ≡ hex_text term.now) }
{
    if term.len() > MAX_HEX_TERM {
        return Ok(None);
    }
    let digits = hex::encode(alloc, term)?;
    marked_group(alloc, b'x', digits.as_bytes())
}

/// The group of these bytes behind `#`, the letter and `:`, where they are a text.
fn marked_group(alloc: Global, letter: u8, bytes: &[u8]) -> Result<Option<Group>, OutOfMemory>
    ensures { IfOk result (λ group. group ≡ text_or_none (marked letter bytes.now)) }
{
    let mut text = Vec::with_capacity(alloc, 3)?;
    text.extend_from_slice(&[b'#', letter, b':'])?;
    text.extend_from_slice(bytes)?;
    group_named(alloc, &text)
}

#[tactic(auto, using(crate::proofs::GroupLemmas::text_is, crate::proofs::GroupLemmas::refused_text))]
fn group_named(alloc: Global, text: &[u8]) -> Result<Option<Group>, OutOfMemory>
    ensures { IfOk result (λ group. group ≡ text_or_none text.now) }
{
    match Group::parse(alloc, text) {
        Ok(group) => Ok(Some(group)),
        Err(TextFault::OutOfMemory) => Err(OutOfMemory),
        Err(_) => Ok(None),
    }
}

/// The text, where the term is an atom.
pub fn only_atom(term: &[u8]) -> Option<&[u8]>
    ensures found { IfSome result (λ text. term.now ≡ atom_bytes text.now) }
    ensures only { (text : List ℕ) → term.now ≡ atom_bytes text →
        IsSomeAnd result (λ read. read.now ≡ text) }
{
    let (text, rest) = atom_at(term)?;
    if rest.is_empty() { Some(text) } else { None }
}

/// The bytes, where the term is a binary.
fn only_binary(term: &[u8]) -> Option<&[u8]>
    ensures found { IfSome result (λ bytes. (term.now ≡ binary_bytes bytes.now) ×
        (length bytes.now < 2 ^ 32)) }
    ensures only { (bytes : List ℕ) → length bytes < 2 ^ 32 → term.now ≡ binary_bytes bytes →
        IsSomeAnd result (λ read. read.now ≡ bytes) }
{
    let (bytes, rest) = binary_at(term)?;
    if rest.is_empty() { Some(bytes) } else { None }
}

pub fn begins_marked(text: &[u8]) -> bool
    ensures { result ≡ is_marked text.now }
{
    begins_with(b'b', text) || begins_with(b'x', text)
}

#[tactic(auto, using(crate::proofs::GroupLemmas::mark_found, crate::proofs::GroupLemmas::mark_none))]
fn begins_with(letter: u8, text: &[u8]) -> bool
    ensures { result ≡ has_mark letter text.now }
{
    match after_mark(letter, text) {
        Some(_) => true,
        None => false,
    }
}

/// What stands behind `#`, the letter and `:`.
pub fn after_mark(letter: u8, text: &[u8]) -> Option<&[u8]>
    ensures found { IfSome result (λ rest. text.now ≡ marked letter rest.now) }
    ensures only { (rest : List ℕ) → text.now ≡ marked letter rest →
        IsSomeAnd result (λ read. read.now ≡ rest) }
{
    let rest = after_kind(b'#', text)?;
    let rest = after_kind(letter, rest)?;
    after_kind(b':', rest)
}
