//! The tags of terms, by their names (External Term Format).
ghost use Rattle.std.specs.Prelude.{◌≡◌, IfSome, Some};
ghost use Rattle.external_terms.specs.declared.tag.Tag.{Tag};
ghost use Rattle.external_terms.specs.Tags.{tag_byte};

/// The first byte of a term, without `_EXT` at the end of its name.
#[derive(Clone, Copy, Debug, PartialEq, Eq)]
pub enum Tag {
    NewFloat,
    BitBinary,
    NewPid,
    NewPort,
    NewerReference,
    SmallInteger,
    Integer,
    Atom,
    SmallTuple,
    LargeTuple,
    Nil,
    String,
    List,
    Binary,
    SmallBig,
    LargeBig,
    NewFun,
    Export,
    Map,
    AtomUtf8,
    SmallAtomUtf8,
    V4Port,
}

/// The tag of this byte.
pub fn tag_of(byte: u8) -> Option<Tag>
    ensures found { IfSome result (λ tag. byte ≡ tag_byte tag) }
    ensures only { (tag : Tag) → byte ≡ tag_byte tag → result ≡ Some tag }
{
    match byte {
        70 => Some(Tag::NewFloat),
        77 => Some(Tag::BitBinary),
        88 => Some(Tag::NewPid),
        89 => Some(Tag::NewPort),
        90 => Some(Tag::NewerReference),
        97 => Some(Tag::SmallInteger),
        98 => Some(Tag::Integer),
        100 => Some(Tag::Atom),
        104 => Some(Tag::SmallTuple),
        105 => Some(Tag::LargeTuple),
        106 => Some(Tag::Nil),
        107 => Some(Tag::String),
        108 => Some(Tag::List),
        109 => Some(Tag::Binary),
        110 => Some(Tag::SmallBig),
        111 => Some(Tag::LargeBig),
        112 => Some(Tag::NewFun),
        113 => Some(Tag::Export),
        116 => Some(Tag::Map),
        118 => Some(Tag::AtomUtf8),
        119 => Some(Tag::SmallAtomUtf8),
        120 => Some(Tag::V4Port),
        _ => None,
    }
}
