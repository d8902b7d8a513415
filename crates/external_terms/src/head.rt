//! The head of a term: its tag, and what stands between that and the terms inside it.
ghost use Rattle.std.specs.Prelude.{◌≡◌, ◌<◌, ◌^◌, ◌*◌, ◌+◌, ◌++◌, ℕ, List, IfOk, IfErr};
ghost use Rattle.external_terms.specs.Fault.{IsTermFault};
ghost use Rattle.external_terms.specs.Terms.{HasForm, IsBehind, IsHead, IsSomeHead};

use crate::fault::TermFault;
use crate::form::{Form, form_of};
use crate::piece::{behind_bytes, behind_node, number_at, tag_at};

/// How many terms stand inside the term at the front, and what stands behind its head.
pub fn head_at(bytes: &[u8]) -> Result<(u64, &[u8]), TermFault>
    ensures found { IfOk result (λ read. (head : List ℕ) × IsHead head read.0 ×
        (bytes.now ≡ head ++ read.1.now)) }
    ensures few { IfOk result (λ read. read.0 < 2 ^ 41) }
    ensures refused { IfErr result (λ fault. IsTermFault fault IsSomeHead bytes.now) }
{
    let (tag, rest) = tag_at(bytes)?;
    behind_tag(form_of(tag), rest)
}

/// How many terms stand inside a term of that form, and what stands behind its head.
fn behind_tag(form: Form, bytes: &[u8]) -> Result<(u64, &[u8]), TermFault>
    ensures found { IfOk result (λ read. (body : List ℕ) × HasForm form body read.0 ×
        (bytes.now ≡ body ++ read.1.now)) }
    ensures few { IfOk result (λ read. read.0 < 2 ^ 41) }
    ensures refused { IfErr result (λ fault. IsTermFault fault (IsBehind form) bytes.now) }
{
    let rest = behind_bytes(usize::from(form.first), bytes)?;
    let (count, rest) = number_at(form.count, rest)?;
    let rest = behind_node(form.node, rest)?;
    let rest = behind_bytes(so_many(form.each, count, form.more) as usize, rest)?;
    Ok((so_many(form.terms_each, count, form.terms_more), rest))
}

/// So many for each of the count, and more.
fn so_many(each: u8, count: u32, more: u8) -> u64
    ensures value { result ≡ each * count + more }
    ensures few { result < 2 ^ 41 }
{
    u64::from(each) * u64::from(count) + u64::from(more)
}
