//! Ordered maps of which most have one entry, or few.
ghost use Rattle.std.specs.Prelude.{◌≡◌, length, cond, Some, None, false, IsTrue, OnOk, OnErr, IfOk, IfSome, IsSome};
ghost use Rattle.std.specs.Ordering.{eq_by_cmp, is_eq};
ghost use Rattle.std.specs.Option.{is_some, option_copied, IfNone};
ghost use Rattle.std.specs.List.{IsDistinct};
ghost use Rattle.std.specs.Map.{keys_of, lookup};
ghost use Rattle.std.specs.Set.{is_member};
ghost use Rattle.std.specs.BTreeMap.{get};
ghost use Rattle.dist_types.specs.Listing.{Rises};
ghost use Rattle.scope_core.specs.SmallMap.{entries_of, find};

use crate::short_map::ShortMap;
use dist_types::{OutOfMemory, TryClone};
use std::alloc::Global;
use std::collections::BTreeMap;
use std::mem;

/// The most entries that stand in one list: among more, to make room for one would take longer than
/// to search a tree.
const FEW: usize = 64;

/// An ordered map. While an entry is alone it has no block of its own; few stand in one list, and
/// many in a tree.
#[derive(Debug, Drop)]
pub enum SmallMap<K: Ord, V> {
    Empty,
    One(K, V),
    Few(ShortMap<K, V>),
    Many(BTreeMap<K, V>),
}

impl<K: Ord + Drop, V: Drop> SmallMap<K, V> {
    /// The map of these entries. Of equal keys it has the last value.
    pub fn of(alloc: Global, entries: Vec<(K, V)>) -> Result<SmallMap<K, V>, OutOfMemory>
        ensures found { IfOk result (λ map. IsDistinct (eq_by_cmp K.cmp) (keys_of entries.items)
            → (k : K) → find K.cmp map k ≡ lookup (λ q. is_eq (K.cmp k q)) entries.items) }
        ensures there { IfOk result (λ map. (k : K) → is_some (find K.cmp map k)
            ≡ is_member (eq_by_cmp K.cmp) (keys_of entries.items) k) }
    {
        if entries.len() <= FEW && are_in_order(&entries) {
            return Ok(SmallMap::Few(ShortMap::of(entries)));
        }
        Ok(SmallMap::Many(map_of(alloc, entries)?))
    }

    /// The value at the key.
    pub fn get(&self, key: &K) -> Option<&V>
        ensures { option_copied result ≡ find K.cmp self.now key.now }
    {
        match self {
            SmallMap::Empty => None,
            SmallMap::One(only, value) => {
                if key.cmp(only).is_eq() {
                    Some(value)
                } else {
                    None
                }
            }
            SmallMap::Few(map) => map.get(key),
            SmallMap::Many(map) => map.get(key),
        }
    }

    /// How many entries there are.
    pub fn len(&self) -> usize
        ensures { result ≡ length (entries_of self.now) }
    {
        match self {
            SmallMap::Empty => 0,
            SmallMap::One(_, _) => 1,
            SmallMap::Few(map) => map.len(),
            SmallMap::Many(map) => map.len(),
        }
    }

    /// Whether there is no entry.
    pub fn is_empty(&self) -> bool
        ensures none { IsTrue result → (k : K) → find K.cmp self.now k ≡ None }
        ensures some { result ≡ false → (k : K) × IsSome (find K.cmp self.now k) }
    {
        match self {
            SmallMap::Empty => true,
            SmallMap::One(_, _) => false,
            SmallMap::Few(map) => map.entries().is_empty(),
            SmallMap::Many(map) => map.is_empty(),
        }
    }

    /// Puts a value at the key.
    pub fn insert(&mut self, alloc: Global, key: K, value: V) -> Result<(), OutOfMemory>
    where
        K: TryClone,
        V: Copy,
        ensures ok { OnOk result ((k : K) → find K.cmp self.new k
            ≡ cond (eq_by_cmp K.cmp key k) (Some value) (find K.cmp self.old k)) }
        ensures same { OnErr result ((k : K) → find K.cmp self.new k ≡ find K.cmp self.old k) }
    {
        match mem::replace(self, SmallMap::Empty) {
            SmallMap::Empty => {
                *self = SmallMap::One(key, value);
                Ok(())
            }
            SmallMap::One(only, held) => self.begin(alloc, only, held, key, value),
            SmallMap::Few(map) => self.put_beside(alloc, map, key, value),
            SmallMap::Many(map) => {
                let mut map = map;
                let inserted = map.insert(key, value);
                *self = SmallMap::Many(map);
                inserted?;
                Ok(())
            }
        }
    }

    /// Holds one entry, and a second one beside it. Where memory is refused, the first alone.
    fn begin(
        &mut self,
        alloc: Global,
        only: K,
        held: V,
        key: K,
        value: V,
    ) -> Result<(), OutOfMemory>
        ensures ok { OnOk result ((k : K) → find K.cmp self.new k
            ≡ cond (eq_by_cmp K.cmp key k) (Some value)
            (cond (is_eq (K.cmp k only)) (Some held) None)) }
        ensures same { OnErr result ((k : K) → find K.cmp self.new k
            ≡ cond (is_eq (K.cmp k only)) (Some held) None) }
    {
        let Ok(mut entries) = Vec::with_capacity(alloc, 2) else {
            *self = SmallMap::One(only, held);
            return Err(OutOfMemory);
        };
        entries.push_reserved((only, held));
        let mut few = ShortMap::of(entries);
        let inserted = few.insert(key, value);
        *self = SmallMap::Few(few);
        inserted
    }

    /// Holds few entries, and one more beside them. Where memory is refused, the few alone.
    fn put_beside(
        &mut self,
        alloc: Global,
        few: ShortMap<K, V>,
        key: K,
        value: V,
    ) -> Result<(), OutOfMemory>
    where
        K: TryClone,
        V: Copy,
        ensures ok { OnOk result ((k : K) → find K.cmp self.new k
            ≡ cond (eq_by_cmp K.cmp key k) (Some value) (lookup (λ q. is_eq (K.cmp k q)) few)) }
        ensures same { OnErr result ((k : K) → find K.cmp self.new k
            ≡ lookup (λ q. is_eq (K.cmp k q)) few) }
    {
        let mut few = few;
        if few.len() < FEW {
            let inserted = few.insert(key, value);
            *self = SmallMap::Few(few);
            return inserted;
        }
        match many_of(alloc, &few, key, value) {
            Ok(many) => {
                *self = SmallMap::Many(many);
                Ok(())
            }
            Err(_) => {
                *self = SmallMap::Few(few);
                Err(OutOfMemory)
            }
        }
    }

    /// Writes a value at a key that is there.
    pub fn set(&mut self, key: &K, value: V)
        requires { IsSome (find K.cmp self.old key.now) }
        ensures { (k : K) → find K.cmp self.new k
            ≡ cond (eq_by_cmp K.cmp key.now k) (Some value) (find K.cmp self.old k) }
    {
        match self {
            SmallMap::Empty => {}
            SmallMap::One(_, held) => *held = value,
            SmallMap::Few(map) => map.set(key, value),
            SmallMap::Many(map) => {
                if let Some(held) = map.get_mut(key) {
                    *held = value;
                }
            }
        }
    }

    /// Takes the entry of a key out.
    pub fn remove(&mut self, key: &K)
        ensures { (k : K) → find K.cmp self.new k
            ≡ cond (eq_by_cmp K.cmp key.now k) None (find K.cmp self.old k) }
    {
        match self {
            SmallMap::Empty => {}
            SmallMap::One(only, _) => {
                if key.cmp(only).is_eq() {
                    *self = SmallMap::Empty;
                }
            }
            SmallMap::Few(map) => map.remove(key),
            SmallMap::Many(map) => {
                map.remove(key);
            }
        }
    }

    /// Takes the first entry out.
    pub fn pop_first(&mut self) -> Option<(K, V)>
        ensures found { IfSome result (λ e. find K.cmp self.old e.0 ≡ Some e.1) }
        ensures taken { IfSome result (λ e. (k : K)
            → find K.cmp self.new k ≡ cond (eq_by_cmp K.cmp e.0 k) None (find K.cmp self.old k)) }
        ensures none { IfNone result ((k : K) → find K.cmp self.old k ≡ None) }
        ensures same { IfNone result ((k : K) → find K.cmp self.new k ≡ None) }
    {
        match mem::replace(self, SmallMap::Empty) {
            SmallMap::Empty => None,
            SmallMap::One(key, value) => Some((key, value)),
            SmallMap::Few(map) => {
                let mut map = map;
                let first = map.pop_first();
                *self = SmallMap::Few(map);
                first
            }
            SmallMap::Many(map) => {
                let mut map = map;
                let first = map.pop_first();
                *self = SmallMap::Many(map);
                first
            }
        }
    }
}

/// Whether each entry's key is above that of the entry before it.
fn are_in_order<K: Ord, V>(entries: &[(K, V)]) -> bool
    ensures { IsTrue result → Rises (λ x y. K.cmp x.0 y.0) entries.now }
{
    entries.is_sorted_by(|one, next| one.0.cmp(&next.0).is_lt())
}

/// The map of these entries. Of equal keys it has the last value.
pub fn map_of<K: Ord + Drop, V: Drop>(
    alloc: Global,
    entries: Vec<(K, V)>,
) -> Result<BTreeMap<K, V>, OutOfMemory>
    ensures found { IfOk result (λ map. IsDistinct (eq_by_cmp K.cmp) (keys_of entries.items)
        → (k : K) → get K.cmp map k ≡ lookup (λ q. is_eq (K.cmp k q)) entries.items) }
    ensures there { IfOk result (λ map. (k : K) → is_some (get K.cmp map k)
        ≡ is_member (eq_by_cmp K.cmp) (keys_of entries.items) k) }
{
    Ok(entries.into_iter().collect(alloc)?)
}

/// The map of few entries, and of one more.
fn many_of<K: Ord + Drop + TryClone, V: Copy + Drop>(
    alloc: Global,
    few: &ShortMap<K, V>,
    key: K,
    value: V,
) -> Result<BTreeMap<K, V>, OutOfMemory>
    ensures { IfOk result (λ map. (k : K) → get K.cmp map k
        ≡ cond (eq_by_cmp K.cmp key k) (Some value) (lookup (λ q. is_eq (K.cmp k q)) few.now)) }
{
    let mut copies = Vec::with_capacity(alloc, few.len())?;
    for entry in few.entries() {
        copies.push((entry.0.try_clone(alloc)?, entry.1))?;
    }
    let mut map = map_of(alloc, copies)?;
    map.insert(key, value)?;
    Ok(map)
}
