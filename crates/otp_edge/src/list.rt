//! The heads of lists, of tuples and of messages.
ghost use Rattle.std.specs.Prelude.{◌≡◌, ◌<◌, ◌^◌, ◌++◌, [], ℕ, List, IfSome, IsSomeAnd};
ghost use Rattle.external_terms.specs.Values.{atom_bytes, tuple_head, nil_bytes};
ghost use Rattle.otp_edge.specs.Lists.{list_front};

use external_terms::{atom_at, list_at, tuple_at};

/// How many elements the list at the front has, and what stands behind its head: they, and its end.
/// The empty list is its own end.
pub fn front_at(bytes: &[u8]) -> Option<(u32, &[u8])>
    ensures fits { IfSome result (λ read. read.0 < 2 ^ 32) }
    ensures found { IfSome result (λ read. bytes.now ≡ list_front read.0 ++ read.1.now) }
    ensures only { (n : ℕ) (inside later : List ℕ) → n < 2 ^ 32 → (n ≡ 0 → inside ≡ []) →
        bytes.now ≡ list_front n ++ (inside ++ (nil_bytes ++ later)) →
        IsSomeAnd result (λ read. (read.0 ≡ n) × (read.1.now ≡ inside ++ (nil_bytes ++ later))) }
{
    match list_at(bytes) {
        Some((0, _)) => None,
        Some((count, rest)) => Some((count, rest)),
        None => Some((0, bytes)),
    }
}

/// What stands behind the head of a tuple of that many terms.
pub fn after_tuple(arity: u8, bytes: &[u8]) -> Option<&[u8]>
    ensures found { IfSome result (λ rest. bytes.now ≡ tuple_head arity ++ rest.now) }
    ensures only { (rest : List ℕ) → bytes.now ≡ tuple_head arity ++ rest →
        IsSomeAnd result (λ read. read.now ≡ rest) }
{
    let (read, rest) = tuple_at(bytes)?;
    if read == arity { Some(rest) } else { None }
}

/// What stands behind the atom of that text.
pub fn after_word<'a>(word: &[u8], bytes: &'a [u8]) -> Option<&'a [u8]>
    ensures found { IfSome result (λ rest. bytes.now ≡ atom_bytes word.now ++ rest.now) }
    ensures only { (rest : List ℕ) → bytes.now ≡ atom_bytes word.now ++ rest →
        IsSomeAnd result (λ read. read.now ≡ rest) }
{
    let (text, rest) = atom_at(bytes)?;
    if text == word { Some(rest) } else { None }
}

/// What stands behind a tuple's head and its first term, where that is the atom of that text.
pub fn after_head<'a>(arity: u8, word: &[u8], bytes: &'a [u8]) -> Option<&'a [u8]>
    ensures found { IfSome result (λ rest. bytes.now ≡ tuple_head arity ++
        (atom_bytes word.now ++ rest.now)) }
    ensures only { (rest : List ℕ) → bytes.now ≡ tuple_head arity ++ (atom_bytes word.now ++ rest) →
        IsSomeAnd result (λ read. read.now ≡ rest) }
{
    after_word(word, after_tuple(arity, bytes)?)
}
