//! Bodies over a link, and their control messages (Distribution Protocol, "Protocol between
//! connected nodes").
ghost use Rattle.std.specs.Prelude.{◌≡◌, ◌↔◌, ◌∷◌, ◌++◌, ℕ, List, IfSome, IsSomeAnd, IsTrue};
ghost use Rattle.external_terms.specs.Terms.{SpellsTerm};
ghost use Rattle.otp_edge.specs.Bodies.{IsBody, IsBehind, IsControl, version};

use dist_types::after_kind;
use external_terms::{skip, small_integer_at, tuple_at};

/// The byte that a body begins with: its messages are passed through as they are.
pub const PASS_THROUGH: u8 = 112;
/// The byte before a term.
pub const VERSION: u8 = 131;

/// What a body holds.
#[derive(Clone, Copy, Debug)]
pub struct Opened<'a> {
    /// The control message: one term.
    pub control: &'a [u8],
    /// Nothing, or 131 and one term.
    pub behind: &'a [u8],
}

/// A control message: a tuple of its operation, two terms, and the rest of its terms.
#[derive(Clone, Copy, Debug)]
pub struct Control<'a> {
    pub arity: u8,
    pub operation: u8,
    pub first: &'a [u8],
    pub second: &'a [u8],
    pub rest: &'a [u8],
}

/// Reads a body, without the length before it.
pub fn open_body(body: &[u8]) -> Option<Opened<'_>>
    ensures found { IfSome result (λ read. IsBody read.control.now read.behind.now body.now) }
    ensures only { (control behind : List ℕ) → IsBody control behind body.now →
        IsSomeAnd result (λ read. (read.control.now ≡ control) × (read.behind.now ≡ behind)) }
{
    let rest = after_kind(PASS_THROUGH, body)?;
    let rest = after_kind(VERSION, rest)?;
    let (control, behind) = first_term(rest)?;
    if !is_behind(behind) {
        return None;
    }
    Some(Opened { control, behind })
}

/// The message behind a control message.
pub fn message_at(behind: &[u8]) -> Option<&[u8]>
    ensures found { IfSome result (λ message. SpellsTerm message.now ×
        (behind.now ≡ version ∷ message.now)) }
    ensures only { (message : List ℕ) → SpellsTerm message → behind.now ≡ version ∷ message →
        IsSomeAnd result (λ read. read.now ≡ message) }
{
    let rest = after_kind(VERSION, behind)?;
    let (message, rest) = first_term(rest)?;
    if rest.is_empty() { Some(message) } else { None }
}

/// Reads a control message, as far as its second term.
pub fn control_at(control: &[u8]) -> Option<Control<'_>>
    ensures found { IfSome result (λ read. IsControl read.arity read.operation read.first.now
        read.second.now read.rest.now control.now) }
    ensures only { (arity operation : ℕ) (first second rest : List ℕ) →
        IsControl arity operation first second rest control.now →
        IsSomeAnd result (λ read. (read.arity ≡ arity) × (read.operation ≡ operation) ×
        (read.first.now ≡ first) × (read.second.now ≡ second) × (read.rest.now ≡ rest)) }
{
    let (arity, rest) = tuple_at(control)?;
    let (operation, rest) = small_integer_at(rest)?;
    let (first, rest) = first_term(rest)?;
    let (second, rest) = first_term(rest)?;
    Some(Control {
        arity,
        operation,
        first,
        second,
        rest,
    })
}

/// The term at the front, and what stands behind it.
pub fn first_term(bytes: &[u8]) -> Option<(&[u8], &[u8])>
    ensures found { IfSome result (λ read. SpellsTerm read.0.now ×
        (bytes.now ≡ read.0.now ++ read.1.now)) }
    ensures only { (term rest : List ℕ) → SpellsTerm term → bytes.now ≡ term ++ rest →
        IsSomeAnd result (λ read. (read.0.now ≡ term) × (read.1.now ≡ rest)) }
{
    match skip(bytes) {
        Ok(read) => Some(read),
        Err(_) => None,
    }
}

fn is_behind(bytes: &[u8]) -> bool
    ensures { IsTrue result ↔ IsBehind bytes.now }
{
    match message_at(bytes) {
        Some(_) => true,
        None => bytes.is_empty(),
    }
}
