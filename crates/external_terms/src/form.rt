//! What stands behind each tag (External Term Format).
ghost use Rattle.std.specs.Prelude.{◌≡◌, IfSome, Some};
ghost use Rattle.external_terms.specs.declared.form.Width.{Width};
ghost use Rattle.external_terms.specs.Tags.{bytes_only, counted, holding, named, reference_form};
ghost use Rattle.external_terms.specs.Tags.{fun_form, form, IsAtomTag};

use crate::tag::Tag;

/// In how many bytes a count stands.
#[derive(Clone, Copy, Debug, PartialEq, Eq)]
pub enum Width {
    Zero,
    One,
    Two,
    Four,
}

/// What stands behind a tag: bytes, a count, the name of a node, and bytes again. Behind them stand
/// the terms inside.
#[derive(Clone, Copy, Debug, PartialEq, Eq)]
pub struct Form {
    /// How many bytes stand first.
    pub first: u8,
    pub count: Width,
    /// Whether a node follows: an atom.
    pub node: bool,
    /// How many bytes follow for each of the count.
    pub each: u8,
    /// And how many more.
    pub more: u8,
    /// How many terms stand inside for each of the count.
    pub terms_each: u8,
    /// And how many more.
    pub terms_more: u8,
}

pub fn form_of(tag: Tag) -> Form
    ensures { result ≡ form tag }
{
    match tag {
        Tag::NewFloat => bytes_only(8),
        Tag::BitBinary => counted(Width::Four, 1),
        Tag::NewPid => named(12),
        Tag::NewPort => named(8),
        Tag::NewerReference => reference_form(),
        Tag::SmallInteger => bytes_only(1),
        Tag::Integer => bytes_only(4),
        Tag::Atom => counted(Width::Two, 0),
        Tag::SmallTuple => holding(Width::One, 1, 0),
        Tag::LargeTuple => holding(Width::Four, 1, 0),
        Tag::Nil => bytes_only(0),
        Tag::String => counted(Width::Two, 0),
        Tag::List => holding(Width::Four, 1, 1),
        Tag::Binary => counted(Width::Four, 0),
        Tag::SmallBig => counted(Width::One, 1),
        Tag::LargeBig => counted(Width::Four, 1),
        Tag::NewFun => fun_form(),
        Tag::Export => holding(Width::Zero, 0, 3),
        Tag::Map => holding(Width::Four, 2, 0),
        Tag::AtomUtf8 => counted(Width::Two, 0),
        Tag::SmallAtomUtf8 => counted(Width::One, 0),
        Tag::V4Port => named(12),
    }
}

/// In how many bytes the length of an atom stands, where the byte is an atom's tag.
pub fn atom_width(byte: u8) -> Option<Width>
    ensures found { IfSome result (λ width. IsAtomTag width byte) }
    ensures only { (width : Width) → IsAtomTag width byte → result ≡ Some width }
{
    match byte {
        119 => Some(Width::One),
        118 | 100 => Some(Width::Two),
        _ => None,
    }
}

fn bytes_only(len: u8) -> Form
    ensures { result ≡ bytes_only len }
{
    Form {
        first: 0,
        count: Width::Zero,
        node: false,
        each: 0,
        more: len,
        terms_each: 0,
        terms_more: 0,
    }
}

fn counted(count: Width, more: u8) -> Form
    ensures { result ≡ counted count more }
{
    Form {
        first: 0,
        count,
        node: false,
        each: 1,
        more,
        terms_each: 0,
        terms_more: 0,
    }
}

fn holding(count: Width, terms_each: u8, terms_more: u8) -> Form
    ensures { result ≡ holding count terms_each terms_more }
{
    Form {
        first: 0,
        count,
        node: false,
        each: 0,
        more: 0,
        terms_each,
        terms_more,
    }
}

fn named(more: u8) -> Form
    ensures { result ≡ named more }
{
    Form {
        first: 0,
        count: Width::Zero,
        node: true,
        each: 0,
        more,
        terms_each: 0,
        terms_more: 0,
    }
}

fn reference_form() -> Form
    ensures { result ≡ reference_form }
{
    Form {
        first: 0,
        count: Width::Two,
        node: true,
        each: 4,
        more: 4,
        terms_each: 0,
        terms_more: 0,
    }
}

fn fun_form() -> Form
    ensures { result ≡ fun_form }
{
    Form {
        first: 25,
        count: Width::Four,
        node: false,
        each: 0,
        more: 0,
        terms_each: 1,
        terms_more: 4,
    }
}
