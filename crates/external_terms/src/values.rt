//! The terms that a link is made of, at the front of bytes. Each reader gives what it read and what
//! stands behind it; none
//! where no such term stands there.
ghost use Rattle.std.specs.Prelude.{◌≡◌, ◌<◌, ◌*◌, ◌^◌, ◌∷◌, ◌++◌, length, ℕ, List, IfSome};
ghost use Rattle.std.specs.Prelude.{IsSomeAnd};
ghost use Rattle.external_terms.specs.Values.{short, medium, long, small_integer_bytes, atom_bytes};
ghost use Rattle.external_terms.specs.Values.{Process, process_said, ProcessFits, process_bytes};
ghost use Rattle.external_terms.specs.Values.{Reference, reference_said, ReferenceFits};
ghost use Rattle.external_terms.specs.Values.{reference_bytes, tuple_head, list_head, nil_bytes};
ghost use Rattle.external_terms.specs.Values.{numbers_bytes, binary_bytes};

use dist_types::{after_kind, bytes_at, u16_at, u32_at};

/// A process: `NEW_PID_EXT`. The node is the text of an atom.
#[derive(Clone, Copy, Debug, PartialEq, Eq)]
pub struct PidTerm<'a> {
    pub node: &'a [u8],
    pub id: u32,
    pub serial: u32,
    pub creation: u32,
}

/// A reference: `NEWER_REFERENCE_EXT`. The node is the text of an atom.
#[derive(Clone, Copy, Debug, PartialEq, Eq)]
pub struct ReferenceTerm<'a> {
    /// How many words there are.
    pub count: u16,
    pub node: &'a [u8],
    pub creation: u32,
    /// The words of the number, 4 bytes each.
    pub words: &'a [u8],
}

/// An integer from 0 to 255: `SMALL_INTEGER_EXT`.
pub fn small_integer_at(bytes: &[u8]) -> Option<(u8, &[u8])>
    ensures found { IfSome result (λ read. bytes.now ≡ small_integer_bytes read.0 ++ read.1.now) }
    ensures only { (n : ℕ) (rest : List ℕ) → bytes.now ≡ small_integer_bytes n ++ rest →
        IsSomeAnd result (λ read. (read.0 ≡ n) × (read.1.now ≡ rest)) }
{
    let rest = after_kind(97, bytes)?;
    byte_at(rest)
}

/// The text of an atom: `SMALL_ATOM_UTF8_EXT`.
pub fn atom_at(bytes: &[u8]) -> Option<(&[u8], &[u8])>
    ensures fits { IfSome result (λ read. length read.0.now < 2 ^ 8) }
    ensures found { IfSome result (λ read. bytes.now ≡ atom_bytes read.0.now ++ read.1.now) }
    ensures only { (text rest : List ℕ) → bytes.now ≡ atom_bytes text ++ rest →
        IsSomeAnd result (λ read. (read.0.now ≡ text) × (read.1.now ≡ rest)) }
{
    let rest = after_kind(119, bytes)?;
    short_at(rest)
}

/// A process: `NEW_PID_EXT`.
pub fn pid_at(bytes: &[u8]) -> Option<(PidTerm<'_>, &[u8])>
    ensures fits { IfSome result (λ read. ProcessFits (process_said read.0)) }
    ensures found { IfSome result (λ read. bytes.now ≡ process_bytes (process_said read.0) ++
        read.1.now) }
    ensures only { (p : Process) (rest : List ℕ) → ProcessFits p →
        bytes.now ≡ process_bytes p ++ rest →
        IsSomeAnd result (λ read. (process_said read.0 ≡ p) × (read.1.now ≡ rest)) }
{
    let rest = after_kind(88, bytes)?;
    let (node, rest) = atom_at(rest)?;
    let (id, rest) = u32_at(rest)?;
    let (serial, rest) = u32_at(rest)?;
    let (creation, rest) = u32_at(rest)?;
    let pid = PidTerm {
        node,
        id,
        serial,
        creation,
    };
    Some((pid, rest))
}

/// A reference: `NEWER_REFERENCE_EXT`.
pub fn reference_at(bytes: &[u8]) -> Option<(ReferenceTerm<'_>, &[u8])>
    ensures fits { IfSome result (λ read. ReferenceFits (reference_said read.0)) }
    ensures found { IfSome result (λ read. bytes.now ≡ reference_bytes (reference_said read.0) ++
        read.1.now) }
    ensures only { (r : Reference) (rest : List ℕ) → ReferenceFits r →
        bytes.now ≡ reference_bytes r ++ rest →
        IsSomeAnd result (λ read. (reference_said read.0 ≡ r) × (read.1.now ≡ rest)) }
{
    let rest = after_kind(90, bytes)?;
    let (count, rest) = u16_at(rest)?;
    let (node, rest) = atom_at(rest)?;
    let (creation, rest) = u32_at(rest)?;
    let (words, rest) = words_at(count, rest)?;
    let reference = ReferenceTerm {
        count,
        node,
        creation,
        words,
    };
    Some((reference, rest))
}

/// How many terms stand inside the tuple at the front: `SMALL_TUPLE_EXT`.
pub fn tuple_at(bytes: &[u8]) -> Option<(u8, &[u8])>
    ensures fits { IfSome result (λ read. read.0 < 2 ^ 8) }
    ensures found { IfSome result (λ read. bytes.now ≡ tuple_head read.0 ++ read.1.now) }
    ensures only { (arity : ℕ) (rest : List ℕ) → bytes.now ≡ tuple_head arity ++ rest →
        IsSomeAnd result (λ read. (read.0 ≡ arity) × (read.1.now ≡ rest)) }
{
    let rest = after_kind(104, bytes)?;
    byte_at(rest)
}

/// How many terms stand inside the list at the front, without its end behind them: `LIST_EXT`.
pub fn list_at(bytes: &[u8]) -> Option<(u32, &[u8])>
    ensures fits { IfSome result (λ read. read.0 < 2 ^ 32) }
    ensures found { IfSome result (λ read. bytes.now ≡ list_head read.0 ++ read.1.now) }
    ensures only { (count : ℕ) (rest : List ℕ) → count < 2 ^ 32 →
        bytes.now ≡ list_head count ++ rest →
        IsSomeAnd result (λ read. (read.0 ≡ count) × (read.1.now ≡ rest)) }
{
    let rest = after_kind(108, bytes)?;
    u32_at(rest)
}

/// What stands behind the empty list, `NIL_EXT`, which is the end of a proper one, too.
pub fn after_nil(bytes: &[u8]) -> Option<&[u8]>
    ensures found { IfSome result (λ rest. bytes.now ≡ nil_bytes ++ rest.now) }
    ensures only { (rest : List ℕ) → bytes.now ≡ nil_bytes ++ rest →
        IsSomeAnd result (λ read. read.now ≡ rest) }
{
    after_kind(106, bytes)
}

/// The numbers of a list of numbers from 0 to 255: `STRING_EXT`. They are no text.
pub fn numbers_at(bytes: &[u8]) -> Option<(&[u8], &[u8])>
    ensures fits { IfSome result (λ read. length read.0.now < 2 ^ 16) }
    ensures found { IfSome result (λ read. bytes.now ≡ numbers_bytes read.0.now ++ read.1.now) }
    ensures only { (numbers rest : List ℕ) → length numbers < 2 ^ 16 →
        bytes.now ≡ numbers_bytes numbers ++ rest →
        IsSomeAnd result (λ read. (read.0.now ≡ numbers) × (read.1.now ≡ rest)) }
{
    let rest = after_kind(107, bytes)?;
    medium_at(rest)
}

/// The bytes of a binary: `BINARY_EXT`.
pub fn binary_at(bytes: &[u8]) -> Option<(&[u8], &[u8])>
    ensures fits { IfSome result (λ read. length read.0.now < 2 ^ 32) }
    ensures found { IfSome result (λ read. bytes.now ≡ binary_bytes read.0.now ++ read.1.now) }
    ensures only { (binary rest : List ℕ) → length binary < 2 ^ 32 →
        bytes.now ≡ binary_bytes binary ++ rest →
        IsSomeAnd result (λ read. (read.0.now ≡ binary) × (read.1.now ≡ rest)) }
{
    let rest = after_kind(109, bytes)?;
    long_at(rest)
}

fn words_at(count: u16, bytes: &[u8]) -> Option<(&[u8], &[u8])>
    ensures found { IfSome result (λ read. (length read.0.now ≡ 4 * count) ×
        (bytes.now ≡ read.0.now ++ read.1.now)) }
    ensures only { (words rest : List ℕ) → length words ≡ 4 * count → bytes.now ≡ words ++ rest →
        IsSomeAnd result (λ read. (read.0.now ≡ words) × (read.1.now ≡ rest)) }
{
    bytes_at(4 * usize::from(count), bytes)
}

fn byte_at(bytes: &[u8]) -> Option<(u8, &[u8])>
    ensures found { IfSome result (λ read. bytes.now ≡ read.0 ∷ read.1.now) }
    ensures only { (n : ℕ) (rest : List ℕ) → bytes.now ≡ n ∷ rest →
        IsSomeAnd result (λ read. (read.0 ≡ n) × (read.1.now ≡ rest)) }
{
    let (first, rest) = bytes.split_first()?;
    Some((*first, rest))
}

fn short_at(bytes: &[u8]) -> Option<(&[u8], &[u8])>
    ensures found { IfSome result (λ read. (length read.0.now < 2 ^ 8) ×
        (bytes.now ≡ short read.0.now ++ read.1.now)) }
    ensures only { (text rest : List ℕ) → bytes.now ≡ short text ++ rest →
        IsSomeAnd result (λ read. (read.0.now ≡ text) × (read.1.now ≡ rest)) }
{
    let (len, rest) = bytes.split_first()?;
    bytes_at(usize::from(*len), rest)
}

fn medium_at(bytes: &[u8]) -> Option<(&[u8], &[u8])>
    ensures fits { IfSome result (λ read. length read.0.now < 2 ^ 16) }
    ensures found { IfSome result (λ read. bytes.now ≡ medium read.0.now ++ read.1.now) }
    ensures only { (text rest : List ℕ) → length text < 2 ^ 16 → bytes.now ≡ medium text ++ rest →
        IsSomeAnd result (λ read. (read.0.now ≡ text) × (read.1.now ≡ rest)) }
{
    let (len, rest) = u16_at(bytes)?;
    bytes_at(usize::from(len), rest)
}

fn long_at(bytes: &[u8]) -> Option<(&[u8], &[u8])>
    ensures fits { IfSome result (λ read. length read.0.now < 2 ^ 32) }
    ensures found { IfSome result (λ read. bytes.now ≡ long read.0.now ++ read.1.now) }
    ensures only { (text rest : List ℕ) → length text < 2 ^ 32 → bytes.now ≡ long text ++ rest →
        IsSomeAnd result (λ read. (read.0.now ≡ text) × (read.1.now ≡ rest)) }
{
    let (len, rest) = u32_at(bytes)?;
    bytes_at(len as usize, rest)
}
