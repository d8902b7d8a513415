//! Ordered maps of small maps: a value at two keys.
ghost use Rattle.std.specs.Prelude.{◌≡◌, ◌&&◌, cond, false, Some, None, IsTrue, OnOk, OnErr, IfSome, IsSome};
ghost use Rattle.std.specs.Ordering.{eq_by_cmp};
ghost use Rattle.std.specs.Option.{IfNone};
ghost use Rattle.scope_core.specs.SmallMap.{find_in};

use crate::small_map::SmallMap;
use dist_types::{OutOfMemory, TryClone};
use std::alloc::Global;
use std::collections::BTreeMap;

/// Puts a value at both keys.
pub fn put<A: Ord + Drop + TryClone, B: Ord + Drop + TryClone, V: Copy + Drop>(
    alloc: Global,
    map: &mut BTreeMap<A, SmallMap<B, V>>,
    outer: &A,
    inner: B,
    value: V,
) -> Result<(), OutOfMemory>
    ensures ok { OnOk result ((a : A) (b : B) → find_in A.cmp B.cmp map.new a b
        ≡ cond (eq_by_cmp A.cmp outer.now a && eq_by_cmp B.cmp inner b) (Some value)
        (find_in A.cmp B.cmp map.old a b)) }
    ensures same { OnErr result ((a : A) (b : B) → find_in A.cmp B.cmp map.new a b
        ≡ find_in A.cmp B.cmp map.old a b) }
{
    let Some(place) = map.get_mut(outer) else {
        map.insert(outer.try_clone(alloc)?, SmallMap::One(inner, value))?;
        return Ok(());
    };
    place.insert(alloc, inner, value)
}

/// Takes the value at both keys out. Answers whether nothing is left under the first one.
pub fn take<A: Ord + Drop, B: Ord + Drop, V: Drop>(
    map: &mut BTreeMap<A, SmallMap<B, V>>,
    outer: &A,
    inner: &B,
) -> bool
    ensures taken { (a : A) (b : B) → find_in A.cmp B.cmp map.new a b
        ≡ cond (eq_by_cmp A.cmp outer.now a && eq_by_cmp B.cmp inner.now b) None
        (find_in A.cmp B.cmp map.old a b) }
    ensures none { IsTrue result → (b : B) → find_in A.cmp B.cmp map.new outer.now b ≡ None }
    ensures some { result ≡ false → (b : B) × IsSome (find_in A.cmp B.cmp map.new outer.now b) }
{
    let Some(place) = map.get_mut(outer) else {
        return true;
    };
    place.remove(inner);
    if place.is_empty() {
        map.remove(outer);
        return true;
    }
    false
}

/// Takes the first value under a key out. Answers the second one of its keys, and whether nothing
/// is left under the first one.
pub fn pop<A: Ord + Drop, B: Ord + Drop, V: Drop>(
    map: &mut BTreeMap<A, SmallMap<B, V>>,
    outer: &A,
) -> Option<(B, bool)>
    ensures found { IfSome result (λ r. IsSome (find_in A.cmp B.cmp map.old outer.now r.0)) }
    ensures taken { IfSome result (λ r. (a : A) (b : B) → find_in A.cmp B.cmp map.new a b
        ≡ cond (eq_by_cmp A.cmp outer.now a && eq_by_cmp B.cmp r.0 b) None
        (find_in A.cmp B.cmp map.old a b)) }
    ensures last { IfSome result (λ r. IsTrue r.1
        → (b : B) → find_in A.cmp B.cmp map.new outer.now b ≡ None) }
    ensures more { IfSome result (λ r. r.1 ≡ false
        → (b : B) × IsSome (find_in A.cmp B.cmp map.new outer.now b)) }
    ensures none { IfNone result ((b : B) → find_in A.cmp B.cmp map.old outer.now b ≡ None) }
    ensures same { IfNone result ((a : A) (b : B) → find_in A.cmp B.cmp map.new a b
        ≡ find_in A.cmp B.cmp map.old a b) }
{
    let Some(place) = map.get_mut(outer) else {
        return None;
    };
    let Some((inner, _)) = place.pop_first() else {
        return None;
    };
    if !place.is_empty() {
        return Some((inner, false));
    }
    map.remove(outer);
    Some((inner, true))
}

/// Writes a value at two keys that are there.
pub fn set<A: Ord + Drop, B: Ord + Drop, V: Drop>(
    map: &mut BTreeMap<A, SmallMap<B, V>>,
    outer: &A,
    inner: &B,
    value: V,
)
    requires { IsSome (find_in A.cmp B.cmp map.old outer.now inner.now) }
    ensures { (a : A) (b : B) → find_in A.cmp B.cmp map.new a b
        ≡ cond (eq_by_cmp A.cmp outer.now a && eq_by_cmp B.cmp inner.now b) (Some value)
        (find_in A.cmp B.cmp map.old a b) }
{
    let Some(place) = map.get_mut(outer) else {
        return;
    };
    place.set(inner, value);
}
