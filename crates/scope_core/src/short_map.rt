//! Ordered maps of few entries.
ghost use Rattle.std.specs.Prelude.{◌≡◌, ◌≤◌, ◌<◌, ◌∷◌, [], length, cond, Some, None, IfSome, IfOk, IfErr, OnOk, OnErr, IsSome};
ghost use Rattle.std.specs.Ordering.{eq_by_cmp, is_eq};
ghost use Rattle.std.specs.Option.{option_copied, IfNone};
ghost use Rattle.std.specs.List.{HoldsAt};
ghost use Rattle.std.specs.List.Sorted.{IsStrictlySortedBy, IsPartitionPoint};
ghost use Rattle.std.specs.declared.cmp.Ordering.TheVariants.{Less, Equal, Greater};
ghost use Rattle.std.specs.Map.{keys_of, lookup};
ghost use Rattle.dist_types.specs.Listing.{Rises};

use dist_types::OutOfMemory;
use std::marker::Model;

/// An ordered map whose entries stand in one list, in the order of their keys: smaller than a tree
/// and faster to go over, where an entry that comes or goes moves few others.
#[derive(Debug, Drop)]
pub struct ShortMap<K: Ord, V> {
    entries: Vec<(K, V)>,
}

impl<K: Ord, V> Model for ShortMap<K, V> {
    ghost use Rattle.std.specs.Prelude.{List};
    ghost use Rattle.dist_types.specs.Listing.{Rises};

    ghost Value = { List (K × V) };

    ghost view = { λ map. map.entries.items };

    ghost invariant = { λ map. Rises (λ x y. K.cmp x.0 y.0) map.entries.items };
}

impl<K: Ord + Drop, V: Drop> ShortMap<K, V> {
    /// The map of these entries, which are in the order of their keys.
    pub fn of(entries: Vec<(K, V)>) -> ShortMap<K, V>
        requires { Rises (λ x y. K.cmp x.0 y.0) entries.items }
        ensures { result ≡ entries.items }
    {
        ShortMap { entries }
    }

    /// The entries.
    pub fn entries(&self) -> &[(K, V)]
        ensures entries { result.now ≡ self.now }
        ensures ordered { IsStrictlySortedBy K.cmp (keys_of self.now) }
    {
        &self.entries
    }

    /// How many entries there are.
    pub fn len(&self) -> usize
        ensures { result ≡ length self.now }
    {
        self.entries.len()
    }

    /// The value at the key.
    pub fn get(&self, key: &K) -> Option<&V>
        ensures { option_copied result ≡ lookup (λ q. is_eq (K.cmp key.now q)) self.now }
    {
        match self.place_of(key) {
            Ok(at) => Some(&self.entries[at].1),
            Err(_) => None,
        }
    }

    /// Puts a value at the key.
    pub fn insert(&mut self, key: K, value: V) -> Result<(), OutOfMemory>
        ensures ok { OnOk result ((k : K) → lookup (λ q. is_eq (K.cmp k q)) self.new
            ≡ cond (eq_by_cmp K.cmp key k) (Some value)
            (lookup (λ q. is_eq (K.cmp k q)) self.old)) }
        ensures same { OnErr result (self.new ≡ self.old) }
    {
        match self.place_of(&key) {
            Ok(at) => self.entries[at].1 = value,
            Err(at) => self.entries.insert(at, (key, value))?,
        }
        Ok(())
    }

    /// Writes a value at a key that is there.
    pub fn set(&mut self, key: &K, value: V)
        requires there { IsSome (lookup (λ q. is_eq (K.cmp key.now q)) self.old) }
        ensures { (k : K) → lookup (λ q. is_eq (K.cmp k q)) self.new
            ≡ cond (eq_by_cmp K.cmp key.now k) (Some value)
            (lookup (λ q. is_eq (K.cmp k q)) self.old) }
    {
        match self.place_of(key) {
            Ok(at) => self.entries[at].1 = value,
            Err(_) => {}
        }
    }

    /// Takes the entry of a key out.
    pub fn remove(&mut self, key: &K)
        ensures { (k : K) → lookup (λ q. is_eq (K.cmp k q)) self.new
            ≡ cond (eq_by_cmp K.cmp key.now k) None (lookup (λ q. is_eq (K.cmp k q)) self.old) }
    {
        match self.place_of(key) {
            Ok(at) => {
                self.entries.remove(at);
            }
            Err(_) => {}
        }
    }

    /// Takes the first entry out.
    pub fn pop_first(&mut self) -> Option<(K, V)>
        ensures first { IfSome result (λ e. self.old ≡ e ∷ self.new) }
        ensures taken { IfSome result (λ e. (k : K) → lookup (λ q. is_eq (K.cmp k q)) self.new
            ≡ cond (eq_by_cmp K.cmp e.0 k) None (lookup (λ q. is_eq (K.cmp k q)) self.old)) }
        ensures none { IfNone result ((self.old ≡ []) × (self.new ≡ [])) }
    {
        if self.entries.is_empty() {
            return None;
        }
        Some(self.entries.remove(0))
    }

    /// Where the entry of the key stands, or where it goes.
    fn place_of(&self, key: &K) -> Result<usize, usize>
        ensures bound { IfOk result (λ i. i < length self.now) }
        ensures found { IfOk result (HoldsAt (λ e. K.cmp e.0 key.now ≡ Equal) self.now) }
        ensures end { IfErr result (λ i. i ≤ length self.now) }
        ensures gap { IfErr result (IsPartitionPoint (λ e. K.cmp e.0 key.now ≡ Less) (λ e.
            K.cmp e.0 key.now ≡ Greater) self.now) }
    {
        self.entries.binary_search_by(|entry| entry.0.cmp(key))
    }
}
