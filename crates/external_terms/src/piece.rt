//! The pieces of a head at the front of bytes.
ghost use Rattle.std.specs.Prelude.{◌≡◌, ◌<◌, ◌∷◌, ◌++◌, length, ℕ, List, IfOk, IfErr};
ghost use Rattle.external_terms.specs.Fault.{IsTermFault};
ghost use Rattle.external_terms.specs.Tags.{tag_byte, number_bytes, number_limit, IsAtomTag};
ghost use Rattle.external_terms.specs.Terms.{IsTag, IsMark, IsNumber, IsLong, IsCounted, IsAtom};
ghost use Rattle.external_terms.specs.Terms.{IsNode};
ghost use Rattle.external_terms.specs.declared.form.Width.TheVariants as widths;

use crate::fault::TermFault;
use crate::form::{Width, atom_width};
use crate::tag::{Tag, tag_of};

/// The tag at the front, and what stands behind it.
pub fn tag_at(bytes: &[u8]) -> Result<(Tag, &[u8]), TermFault>
    ensures found { IfOk result (λ read. bytes.now ≡ tag_byte read.0 ∷ read.1.now) }
    ensures refused { IfErr result (λ fault. IsTermFault fault IsTag bytes.now) }
{
    let Some((first, rest)) = bytes.split_first() else {
        return Err(TermFault::Truncated);
    };
    let Some(tag) = tag_of(*first) else {
        return Err(TermFault::UnknownTag);
    };
    Ok((tag, rest))
}

/// What stands behind that many bytes.
pub fn behind_bytes(len: usize, bytes: &[u8]) -> Result<&[u8], TermFault>
    ensures found { IfOk result (λ rest. (front : List ℕ) × (length front ≡ len) ×
        (bytes.now ≡ front ++ rest.now)) }
    ensures refused { IfErr result (λ fault. IsTermFault fault (IsLong len) bytes.now) }
{
    let Some((_, rest)) = bytes.split_at_checked(len) else {
        return Err(TermFault::Truncated);
    };
    Ok(rest)
}

/// A number of this width, the highest byte first, and what stands behind it.
pub fn number_at(width: Width, bytes: &[u8]) -> Result<(u32, &[u8]), TermFault>
    ensures fits { IfOk result (λ read. read.0 < number_limit width) }
    ensures found { IfOk result (λ read. bytes.now ≡ number_bytes width read.0 ++ read.1.now) }
    ensures refused { IfErr result (λ fault. IsTermFault fault (IsNumber width) bytes.now) }
{
    match width {
        Width::Zero => Ok((0, bytes)),
        Width::One => one_at(bytes),
        Width::Two => two_at(bytes),
        Width::Four => four_at(bytes),
    }
}

fn one_at(bytes: &[u8]) -> Result<(u32, &[u8]), TermFault>
    ensures fits { IfOk result (λ read. read.0 < number_limit widths.One) }
    ensures found { IfOk result (λ read. bytes.now ≡ number_bytes widths.One read.0 ++ read.1.now) }
    ensures refused { IfErr result (λ fault. IsTermFault fault (IsNumber widths.One) bytes.now) }
{
    let Some((first, rest)) = bytes.split_first() else {
        return Err(TermFault::Truncated);
    };
    Ok((u32::from(*first), rest))
}

fn two_at(bytes: &[u8]) -> Result<(u32, &[u8]), TermFault>
    ensures fits { IfOk result (λ read. read.0 < number_limit widths.Two) }
    ensures found { IfOk result (λ read. bytes.now ≡ number_bytes widths.Two read.0 ++ read.1.now) }
    ensures refused { IfErr result (λ fault. IsTermFault fault (IsNumber widths.Two) bytes.now) }
{
    let Some((front, rest)) = bytes.split_first_chunk::<2>() else {
        return Err(TermFault::Truncated);
    };
    Ok((u32::from(u16::from_be_bytes(*front)), rest))
}

fn four_at(bytes: &[u8]) -> Result<(u32, &[u8]), TermFault>
    ensures fits { IfOk result (λ read. read.0 < number_limit widths.Four) }
    ensures found { IfOk result (λ read. bytes.now ≡ number_bytes widths.Four read.0 ++
        read.1.now) }
    ensures refused { IfErr result (λ fault. IsTermFault fault (IsNumber widths.Four) bytes.now) }
{
    let Some((front, rest)) = bytes.split_first_chunk::<4>() else {
        return Err(TermFault::Truncated);
    };
    Ok((u32::from_be_bytes(*front), rest))
}

/// What stands behind the node at the front, where one is due.
pub fn behind_node(node: bool, bytes: &[u8]) -> Result<&[u8], TermFault>
    ensures found { IfOk result (λ rest. (name : List ℕ) × IsNode node name ×
        (bytes.now ≡ name ++ rest.now)) }
    ensures refused { IfErr result (λ fault. IsTermFault fault (IsNode node) bytes.now) }
{
    if node { behind_atom(bytes) } else { Ok(bytes) }
}

/// What stands behind the atom at the front.
fn behind_atom(bytes: &[u8]) -> Result<&[u8], TermFault>
    ensures found { IfOk result (λ rest. (atom : List ℕ) × IsAtom atom ×
        (bytes.now ≡ atom ++ rest.now)) }
    ensures refused { IfErr result (λ fault. IsTermFault fault IsAtom bytes.now) }
{
    let (width, rest) = mark_at(bytes)?;
    behind_counted(width, rest)
}

/// The width of the length of the atom at the front, and what stands behind its tag.
fn mark_at(bytes: &[u8]) -> Result<(Width, &[u8]), TermFault>
    ensures found { IfOk result (λ read. (byte : ℕ) × IsAtomTag read.0 byte ×
        (bytes.now ≡ byte ∷ read.1.now)) }
    ensures refused { IfErr result (λ fault. IsTermFault fault IsMark bytes.now) }
{
    let Some((first, rest)) = bytes.split_first() else {
        return Err(TermFault::Truncated);
    };
    let Some(width) = atom_width(*first) else {
        return Err(TermFault::UnknownTag);
    };
    Ok((width, rest))
}

/// What stands behind a length and as many bytes.
fn behind_counted(width: Width, bytes: &[u8]) -> Result<&[u8], TermFault>
    ensures found { IfOk result (λ rest. (body : List ℕ) × IsCounted width body ×
        (bytes.now ≡ body ++ rest.now)) }
    ensures refused { IfErr result (λ fault. IsTermFault fault (IsCounted width) bytes.now) }
{
    let (len, rest) = number_at(width, bytes)?;
    behind_bytes(len as usize, rest)
}
