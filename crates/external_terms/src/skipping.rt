//! The end of a term.
ghost use Rattle.std.specs.Prelude.{◌≡◌, ◌++◌, ℕ, List, IfOk, IfErr, IsOkAnd};
ghost use Rattle.external_terms.specs.Fault.{IsTermFault};
ghost use Rattle.external_terms.specs.Terms.{SpellsTerm, SpellsTerms};

use crate::fault::TermFault;
use crate::head::head_at;

/// The term at the front, and what stands behind it.
pub fn skip(bytes: &[u8]) -> Result<(&[u8], &[u8]), TermFault>
    // What is skipped is a term.
    ensures found { IfOk result (λ read. SpellsTerm read.0.now ×
        (bytes.now ≡ read.0.now ++ read.1.now)) }
    // A term at the front is skipped.
    ensures only { (term rest : List ℕ) → SpellsTerm term → bytes.now ≡ term ++ rest →
        IsOkAnd result (λ read. (read.0.now ≡ term) × (read.1.now ≡ rest)) }
    ensures refused { IfErr result (λ fault. IsTermFault fault SpellsTerm bytes.now) }
{
    skip_terms(1, bytes)
}

/// That many terms at the front, one behind the other, and what stands behind them.
pub fn skip_terms(count: u32, bytes: &[u8]) -> Result<(&[u8], &[u8]), TermFault>
    ensures found { IfOk result (λ read. SpellsTerms count read.0.now ×
        (bytes.now ≡ read.0.now ++ read.1.now)) }
    ensures only { (terms rest : List ℕ) → SpellsTerms count terms → bytes.now ≡ terms ++ rest →
        IsOkAnd result (λ read. (read.0.now ≡ terms) × (read.1.now ≡ rest)) }
    ensures refused { IfErr result (λ fault. IsTermFault fault (SpellsTerms count) bytes.now) }
{
    let len = bytes.len();
    // How many terms are still due. No term is kept.
    let mut due = u128::from(count);
    let mut rest = bytes;
    while due > 0 {
        let (inside, behind) = head_at(rest)?;
        due = due - 1 + u128::from(inside);
        rest = behind;
    }
    Ok(bytes.split_at(len - rest.len()))
}
