//! Laws of the grammar. Each function does nothing; its contract is the law.
ghost use Rattle.std.specs.Prelude.{◌≡◌, ◌+◌, ◌<◌, ◌^◌, ◌++◌, ℕ, List, length};
ghost use Rattle.external_terms.specs.Fault.{IsTermFault};
ghost use Rattle.external_terms.specs.Terms.{SpellsTerm, SpellsTerms};
ghost use Rattle.external_terms.specs.Values.{small_integer_bytes, atom_bytes, Process};
ghost use Rattle.external_terms.specs.Values.{ProcessFits, process_bytes, Reference, ReferenceFits};
ghost use Rattle.external_terms.specs.Values.{reference_bytes, tuple_head, list_head, nil_bytes};
ghost use Rattle.external_terms.specs.Values.{numbers_bytes, binary_bytes};
ghost use Rattle.external_terms.specs.declared.fault.TermFault.{TermFault};

/// Bytes begin with so many terms in one way at most: a term is never the beginning of another.
pub fn one_end()
    ensures { (count : ℕ) (terms others rest later : List ℕ) → SpellsTerms count terms →
        SpellsTerms count others →
        terms ++ rest ≡ others ++ later → (terms ≡ others) × (rest ≡ later) }
{}

/// Why bytes don't begin with so many terms is one fault, and where there is one, they don't.
pub fn one_fault()
    ensures one { (count : ℕ) (bytes : List ℕ) (f g : TermFault) →
        IsTermFault f (SpellsTerms count) bytes → IsTermFault g (SpellsTerms count) bytes → f ≡ g }
    ensures none { (count : ℕ) (bytes terms rest : List ℕ) (f : TermFault) →
        IsTermFault f (SpellsTerms count) bytes → SpellsTerms count terms →
        ¬ (bytes ≡ terms ++ rest) }
{}

/// The values that are read and written are terms, so `skip` passes each: none is taken for more or
/// less than it is.
pub fn values_are_terms()
    ensures small_integer { (n : ℕ) → SpellsTerm (small_integer_bytes n) }
    ensures atom { (text : List ℕ) → length text < 2 ^ 8 → SpellsTerm (atom_bytes text) }
    ensures process { (p : Process) → ProcessFits p → SpellsTerm (process_bytes p) }
    ensures reference { (r : Reference) → ReferenceFits r → SpellsTerm (reference_bytes r) }
    ensures tuple { (arity : ℕ) (bytes : List ℕ) → arity < 2 ^ 8 → SpellsTerms arity bytes →
        SpellsTerm (tuple_head arity ++ bytes) }
    // The last term of a list's is its end.
    ensures list { (count : ℕ) (bytes : List ℕ) → count < 2 ^ 32 →
        SpellsTerms (count + 1) bytes → SpellsTerm (list_head count ++ bytes) }
    ensures nil { SpellsTerm nil_bytes }
    ensures numbers { (numbers : List ℕ) → length numbers < 2 ^ 16 →
        SpellsTerm (numbers_bytes numbers) }
    ensures binary { (binary : List ℕ) → length binary < 2 ^ 32 → SpellsTerm (binary_bytes binary) }
{}
