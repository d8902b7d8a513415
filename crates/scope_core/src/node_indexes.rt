//! The two indexes of a node's rows, made of rows in order, and where one row comes or goes.
ghost use Rattle.std.specs.Prelude.{◌≡◌, ◌≤◌, ◌<◌, ◌&&◌, ℕ, Bool, List, length, cond, true, false, None, Some, IsTrue, IsSome, IfSome, IfOk, OnOk, OnErr};
ghost use Rattle.std.specs.Option.{is_some, IfNone};
ghost use Rattle.std.specs.Ordering.{eq_by_cmp, is_eq};
ghost use Rattle.std.specs.declared.cmp.Ordering.TheVariants.{Less};
ghost use Rattle.std.specs.List.{AllByRecursion, AllWithin, HoldsAt, IsDistinct, list_any};
ghost use Rattle.std.specs.Map.{lookup, keys_of};
ghost use Rattle.std.specs.Set.{is_member};
ghost use Rattle.std.specs.BTreeMap.{get};
ghost use Rattle.dist_types.specs.Order.{text_cmp};
ghost use Rattle.dist_types.specs.Listing.{same_row, Rises, Ascends};
ghost use Rattle.scope_core.specs.declared.process_key.ProcessKey.{ProcessKey};
ghost use Rattle.scope_core.specs.Table.{counted_cmp};
ghost use Rattle.scope_core.specs.SmallMap.{find, find_in};
ghost use Rattle.scope_core.specs.Copies.{process_keys, keyed, keyed_maps, is_keyed, is_held};
ghost use Rattle.scope_core.specs.HashedRows.{key_cmp, key_of, row_at, stands, entries_in, Names};

use crate::counted::Counted;
use crate::nested_map::{put, take};
use crate::process_key::ProcessKey;
use crate::reads::run_of;
use crate::small_map::{SmallMap, map_of};
use dist_types::{Group, OutOfMemory, Row, TryClone};
use std::alloc::Global;
use std::collections::BTreeMap;

/// For each group its processes, with their counts.
pub fn groups_of(
    alloc: Global,
    rows: &[Counted],
) -> Result<BTreeMap<Group, SmallMap<ProcessKey, u32>>, OutOfMemory>
    requires { Rises counted_cmp rows.now }
    ensures { IfOk result (λ groups. (node : List ℕ)
        → AllByRecursion (λ c. c.row.pid.node ≡ node) rows.now → (g : List ℕ) (k : ProcessKey)
        → find_in text_cmp key_cmp groups g k
        ≡ lookup (same_row (row_at node g k)) (entries_in rows.now)) }
{
    let mut groups = Vec::new(alloc);
    let mut rest = rows;
    while let Some(first) = rest.first() {
        let group = first.row.group.try_clone(alloc)?;
        let (run, others) = rest.split_at(run_of(rest, &group));
        groups.push((group, members_of(alloc, run)?))?;
        rest = others;
    }
    let map = map_of(alloc, groups)?;
    Ok(map)
}

/// The processes of rows of one group.
fn members_of(alloc: Global, rows: &[Counted]) -> Result<SmallMap<ProcessKey, u32>, OutOfMemory>
    requires { Rises counted_cmp rows.now }
    ensures { IfOk result (λ members. (node g : List ℕ)
        → AllByRecursion (λ c. (c.row.pid.node ≡ node) × (c.row.group ≡ g)) rows.now
        → (k : ProcessKey)
        → find key_cmp members k ≡ lookup (same_row (row_at node g k)) (entries_in rows.now)) }
{
    if let [only] = rows {
        return Ok(SmallMap::One(ProcessKey::of(&only.row.pid), only.count));
    }
    let mut members = Vec::with_capacity(alloc, rows.len())?;
    for counted in rows {
        members.push((ProcessKey::of(&counted.row.pid), counted.count))?;
    }
    SmallMap::of(alloc, members)
}

/// For each process its groups.
pub fn processes_of(
    alloc: Global,
    rows: &[Counted],
) -> Result<BTreeMap<ProcessKey, SmallMap<Group, ()>>, OutOfMemory>
    requires { Rises counted_cmp rows.now }
    ensures { IfOk result (λ processes. (node : List ℕ)
        → AllByRecursion (λ c. c.row.pid.node ≡ node) rows.now → (k : ProcessKey) (g : List ℕ)
        → is_some (find_in key_cmp text_cmp processes k g) ≡ stands (row_at node g k) rows.now) }
{
    // Those of one group rise as their processes do.
    if processes_rise(rows) {
        let map = map_of(alloc, maps_of(alloc, rows)?)?;
        return Ok(map);
    }
    let mut names = names_of(alloc, rows)?;
    names.sort_by_key(|name| name.0)?;
    let map = map_of(alloc, folded(alloc, &names)?)?;
    Ok(map)
}

/// Whether the process of each row is above that of the row before it.
fn processes_rise(rows: &[Counted]) -> bool
    ensures { IsTrue result → Rises key_cmp (process_keys rows.now) }
{
    let mut last = None;
    for counted in rows {
        let key = ProcessKey::of(&counted.row.pid);
        if !is_above(&key, &last) {
            return false;
        }
        last = Some(key);
    }
    true
}

/// Whether the key is above the last one, if there is one.
fn is_above(key: &ProcessKey, last: &Option<ProcessKey>) -> bool
    ensures { IsTrue result → IfSome last.now (λ l. key_cmp l key.now ≡ Less) }
{
    match last {
        Some(last) => *last < *key,
        None => true,
    }
}

/// The groups of the rows, each alone under the key of its process.
fn maps_of(
    alloc: Global,
    rows: &[Counted],
) -> Result<Vec<(ProcessKey, SmallMap<Group, ()>)>, OutOfMemory>
    ensures { IfOk result (λ maps. maps.items ≡ keyed_maps rows.now) }
{
    let mut maps = Vec::with_capacity(alloc, rows.len())?;
    for counted in rows {
        let group = counted.row.group.try_clone(alloc)?;
        maps.push((ProcessKey::of(&counted.row.pid), SmallMap::One(group, ())))?;
    }
    Ok(maps)
}

/// The groups of the rows, each with the key of its process.
fn names_of(alloc: Global, rows: &[Counted]) -> Result<Vec<(ProcessKey, Group)>, OutOfMemory>
    ensures { IfOk result (λ names. names.items ≡ keyed rows.now) }
{
    let mut names = Vec::with_capacity(alloc, rows.len())?;
    for counted in rows {
        let group = counted.row.group.try_clone(alloc)?;
        names.push((ProcessKey::of(&counted.row.pid), group))?;
    }
    Ok(names)
}

/// Those of the same process, which stand beside one another, in one map.
fn folded(
    alloc: Global,
    names: &[(ProcessKey, Group)],
) -> Result<Vec<(ProcessKey, SmallMap<Group, ()>)>, OutOfMemory>
    requires { Ascends key_cmp (keys_of names.now) }
    ensures rises { IfOk result (λ all. Rises key_cmp (keys_of all.items)) }
    ensures held { IfOk result (λ all. (k : ProcessKey) (g : List ℕ)
        → is_held k g all.items ≡ is_keyed k g names.now) }
{
    let mut all = Vec::with_capacity(alloc, names.len())?;
    let mut rest = names;
    while let Some(first) = rest.first() {
        let key = first.0;
        let (run, others) = rest.split_at(run_under(rest, &key));
        all.push((key, names_in(alloc, run)?))?;
        rest = others;
    }
    Ok(all)
}

/// How many of the first names stand under the key.
fn run_under(names: &[(ProcessKey, Group)], key: &ProcessKey) -> usize
    ensures bound { result ≤ length names.now }
    ensures run { AllWithin (λ n. is_eq (key_cmp n.0 key.now) ≡ true) names.now 0 result }
    ensures end { result < length names.now
        → HoldsAt (λ n. is_eq (key_cmp n.0 key.now) ≡ false) names.now result }
{
    for (len, name) in names.iter().enumerate() {
        if name.0 != *key {
            return len;
        }
    }
    names.len()
}

/// The groups of these names.
fn names_in(
    alloc: Global,
    names: &[(ProcessKey, Group)],
) -> Result<SmallMap<Group, ()>, OutOfMemory>
    ensures { IfOk result (λ groups. (g : List ℕ) → is_some (find text_cmp groups g)
        ≡ list_any (λ n. eq_by_cmp text_cmp n.1 g) names.now) }
{
    if let [only] = names {
        return Ok(SmallMap::One(only.1.try_clone(alloc)?, ()));
    }
    let mut groups = Vec::with_capacity(alloc, names.len())?;
    for name in names {
        groups.push((name.1.try_clone(alloc)?, ()))?;
    }
    SmallMap::of(alloc, groups)
}

/// A group that the process is in, if there is one.
pub fn group_of<'a>(
    groups: &'a BTreeMap<Group, SmallMap<ProcessKey, u32>>,
    key: &ProcessKey,
) -> Option<&'a Group>
    ensures found { IfSome result (λ g.
        IsSome (find_in text_cmp key_cmp groups.now g.now key.now)) }
    ensures none { IfNone result ((g : List ℕ)
        → find_in text_cmp key_cmp groups.now g key.now ≡ None) }
{
    for (group, members) in groups.iter() {
        if members.get(key).is_some() {
            return Some(group);
        }
    }
    None
}

/// Puts a new row into both indexes, or into none of them.
pub fn name(
    alloc: Global,
    groups: &mut BTreeMap<Group, SmallMap<ProcessKey, u32>>,
    processes: &mut Option<BTreeMap<ProcessKey, SmallMap<Group, ()>>>,
    row: &Row,
    count: u32,
) -> Result<(), OutOfMemory>
    requires { find_in text_cmp key_cmp groups.old row.now.group (key_of row.now.pid) ≡ None }
    ensures kept { is_some processes.new ≡ is_some processes.old }
    ensures groups { OnOk result ((g : List ℕ) (k : ProcessKey)
        → find_in text_cmp key_cmp groups.new g k
        ≡ cond (eq_by_cmp text_cmp row.now.group g && eq_by_cmp key_cmp (key_of row.now.pid) k)
        (Some count) (find_in text_cmp key_cmp groups.old g k)) }
    ensures processes { OnOk result ((names : ProcessKey → List ℕ → Bool)
        → Names names processes.old → Names (λ k g.
        cond (eq_by_cmp key_cmp (key_of row.now.pid) k && eq_by_cmp text_cmp row.now.group g)
        true (names k g)) processes.new) }
    ensures same_groups { OnErr result ((g : List ℕ) (k : ProcessKey)
        → find_in text_cmp key_cmp groups.new g k ≡ find_in text_cmp key_cmp groups.old g k) }
    ensures same_processes { OnErr result ((names : ProcessKey → List ℕ → Bool)
        → Names names processes.old → Names names processes.new) }
{
    let key = ProcessKey::of(&row.pid);
    put(alloc, groups, &row.group, key, count)?;
    let named = name_process(alloc, processes, &key, &row.group);
    if named.is_err() {
        take(groups, &row.group, &key);
    }
    named
}

/// Puts a group to those of a process, where these are kept.
fn name_process(
    alloc: Global,
    processes: &mut Option<BTreeMap<ProcessKey, SmallMap<Group, ()>>>,
    key: &ProcessKey,
    group: &Group,
) -> Result<(), OutOfMemory>
    ensures kept { is_some processes.new ≡ is_some processes.old }
    ensures ok { OnOk result ((names : ProcessKey → List ℕ → Bool)
        → Names names processes.old → Names (λ k g.
        cond (eq_by_cmp key_cmp key.now k && eq_by_cmp text_cmp group.now g) true (names k g))
        processes.new) }
    ensures same { OnErr result ((names : ProcessKey → List ℕ → Bool)
        → Names names processes.old → Names names processes.new) }
{
    let Some(processes) = processes else {
        return Ok(());
    };
    let group = group.try_clone(alloc)?;
    put(alloc, processes, key, group, ())
}

/// Takes a row out of both indexes. Answers whether nothing is left of its group.
pub fn forget(
    groups: &mut BTreeMap<Group, SmallMap<ProcessKey, u32>>,
    processes: &mut Option<BTreeMap<ProcessKey, SmallMap<Group, ()>>>,
    group: &Group,
    key: &ProcessKey,
) -> bool
    ensures kept { is_some processes.new ≡ is_some processes.old }
    ensures groups { (g : List ℕ) (k : ProcessKey) → find_in text_cmp key_cmp groups.new g k
        ≡ cond (eq_by_cmp text_cmp group.now g && eq_by_cmp key_cmp key.now k) None
        (find_in text_cmp key_cmp groups.old g k) }
    ensures processes { (names : ProcessKey → List ℕ → Bool)
        → Names names processes.old → Names (λ k g.
        cond (eq_by_cmp key_cmp key.now k && eq_by_cmp text_cmp group.now g) false (names k g))
        processes.new }
    ensures none { IsTrue result → (k : ProcessKey)
        → find_in text_cmp key_cmp groups.new group.now k ≡ None }
    ensures some { result ≡ false → (k : ProcessKey)
        × IsSome (find_in text_cmp key_cmp groups.new group.now k) }
{
    if let Some(processes) = processes {
        take(processes, key, group);
    }
    take(groups, group, key)
}
