//! The term of a group's text.
ghost use Rattle.std.specs.Prelude.{◌≡◌, ◌↔◌, ℕ, List, IfOk, IfSome, IsSomeAnd, IsTrue};
ghost use Rattle.std.specs.Prelude.{option_map};
ghost use Rattle.dist_types.specs.Text.{IsText};
ghost use Rattle.external_terms.specs.Terms.{SpellsTerm};
ghost use Rattle.hex.specs.Hex.{IsBytes, decode_of};
ghost use Rattle.otp_edge.specs.Groups.{IsTermOf};
ghost use Rattle.otp_edge.specs.GroupTerms.{decoded, term_named};

use crate::body::first_term;
use crate::group::{after_mark, group_of};
use dist_types::{Group, OutOfMemory};
use external_terms::{put_atom, put_binary};
use hex::FromHexError;
use std::alloc::Global;

/// The term of the group that a text names: the other way of `group_of`. None where no term has
/// this text.
pub fn term_of(alloc: Global, group: &Group) -> Result<Option<Vec<u8>>, OutOfMemory>
    ensures found { IfOk result (λ read. IfSome read (λ term. IsTermOf term.items group.now)) }
    ensures only { (term : List ℕ) → IsTermOf term group.now →
        IfOk result (λ read. IsSomeAnd read (λ known. known.items ≡ term)) }
{
    let Some(term) = named_term(alloc, group.as_bytes())? else {
        return Ok(None);
    };
    if has_text(alloc, &term, group)? {
        Ok(Some(term))
    } else {
        Ok(None)
    }
}

/// The only term that can have this text.
fn named_term(alloc: Global, text: &[u8]) -> Result<Option<Vec<u8>>, OutOfMemory>
    requires { IsText text.now }
    ensures { IfOk result (λ read. option_map (λ term. term.items) read ≡ term_named text.now) }
{
    if let Some(bytes) = after_mark(b'b', text) {
        let mut term = Vec::new(alloc);
        put_binary(bytes, &mut term)?;
        return Ok(Some(term));
    }
    if let Some(digits) = after_mark(b'x', text) {
        return hex_term(alloc, digits);
    }
    let mut term = Vec::new(alloc);
    put_atom(text, &mut term)?;
    Ok(Some(term))
}

/// The bytes that hex digits stand for.
fn hex_term(alloc: Global, digits: &[u8]) -> Result<Option<Vec<u8>>, OutOfMemory>
    ensures { IfOk result (λ read. option_map (λ term. term.items) read ≡
        decoded (decode_of digits.now)) }
{
    match hex::decode(alloc, digits) {
        Ok(term) => Ok(Some(term)),
        Err(FromHexError::OutOfMemory) => Err(OutOfMemory),
        Err(_) => Ok(None),
    }
}

/// Whether the bytes are a term, and its text is that of the group.
fn has_text(alloc: Global, term: &[u8], group: &Group) -> Result<bool, OutOfMemory>
    ensures has { IfOk result (λ has. IsTrue has ↔ IsTermOf term.now group.now) }
{
    if !is_term(term) {
        return Ok(false);
    }
    match group_of(alloc, term)? {
        Some(text) => Ok(text == *group),
        None => Ok(false),
    }
}

pub fn is_term(bytes: &[u8]) -> bool
    ensures value { IsTrue result ↔ SpellsTerm bytes.now }
    ensures limits { IsBytes bytes.now }
{
    match first_term(bytes) {
        Some((_, rest)) => rest.is_empty(),
        None => false,
    }
}
