//! What is read off the rows of one node, in their order.
ghost use Rattle.std.specs.Prelude.{◌≡◌, ◌+◌, ◌-◌, cond, false, replicate, All, IsTrue, IsSome, IfOk, OnOk, List, ℕ};
ghost use Rattle.std.specs.List.{AllByRecursion};
ghost use Rattle.std.specs.List.Sorted.{IsStrictlySortedBy};
ghost use Rattle.std.specs.Map.{keys_of};
ghost use Rattle.std.specs.BTreeMap.{get};
ghost use Rattle.std.specs.declared.cmp.Ordering.TheVariants.{Less};
ghost use Rattle.dist_types.specs.declared.pid.Pid.{Pid};
ghost use Rattle.dist_types.specs.Order.{text_cmp, pid_cmp};
ghost use Rattle.dist_types.specs.Listing.{same, same_pid, how_many, mentions, Rises, Ascends};
ghost use Rattle.dist_types.specs.Difference.{IsDifference};
ghost use Rattle.scope_core.specs.Table.{tally, is_row, counted_cmp, AreCounted};
ghost use Rattle.scope_core.specs.Indexed.{has_members};
ghost use Rattle.scope_core.specs.SmallMap.{entries_of};
ghost use Rattle.scope_core.specs.Listed.{changes_left_by};

use crate::changes::{one_change, push_change};
use crate::counted::Counted;
use crate::group_members::{behind_all, push_counted, push_pids};
use crate::hashed_rows::HashedRows;
use crate::process_key::ProcessKey;
use crate::reads::push_copies;
use crate::small_map::SmallMap;
use dist_types::{Group, GroupChange, OutOfMemory, Pid, Row};
use std::collections::BTreeMap;

/// So many groups that to let all maps go costs no more than to search for each.
const MANY: usize = 16;

impl HashedRows {
    /// Whether a process of the node is in the group.
    pub fn has_group(&self, group: &Group) -> bool
        requires { AreCounted self.now.rows }
        ensures { result ≡ has_members group.now self.now.node self.now.rows }
    {
        match self.groups.get(group) {
            Some(members) => !members.is_empty(),
            None => false,
        }
    }

    /// The groups of which there are rows.
    pub fn groups(&self) -> &BTreeMap<Group, SmallMap<ProcessKey, u32>>
        ensures { (g : List ℕ) → IsTrue (has_members g self.now.node self.now.rows)
            → IsSome (get text_cmp result.now g) }
    {
        &self.groups
    }

    /// Puts the processes of a group at the end of a list, each as often as it is counted.
    pub fn push_members(&self, pids: &mut Vec<Pid>, group: &Group) -> Result<(), OutOfMemory>
        ensures counts { OnOk result ((p : Pid) → mentions p pids.new.items
            ≡ mentions p pids.old.items + cond (same self.now.node p.node)
            (tally (is_row group.now p) self.now.rows) 0) }
        ensures ascends { OnOk result (AllByRecursion (λ p. text_cmp p.node self.now.node
            ≡ Less) pids.old.items → Ascends pid_cmp pids.old.items
            → Ascends pid_cmp pids.new.items) }
    {
        let Some(members) = self.groups.get(group) else {
            return Ok(());
        };
        push_pids(self.alloc, self.counts.node(), members, pids)
    }

    /// The changes where all rows leave.
    pub fn all_left(&self) -> Result<Vec<GroupChange>, OutOfMemory>
        requires { AreCounted self.now.rows }
        ensures { IfOk result (λ changes. (before after : List ℕ → Pid → ℕ)
            → ((g : List ℕ) (p : Pid) → before g p - after g p ≡ tally (is_row g p) self.now.rows)
            → ((g : List ℕ) (p : Pid) → after g p - before g p ≡ 0)
            → IsDifference before after changes.items) }
    {
        let mut changes = Vec::with_capacity(self.alloc, self.groups.len())?;
        for (group, members) in self.groups.iter() {
            let mut left = Vec::with_capacity(self.alloc, members.len())?;
            push_pids(self.alloc, self.counts.node(), members, &mut left)?;
            // The index may name a group that has no process: it has no change.
            push_change(self.alloc, &mut changes, group, left, Vec::new(self.alloc))?;
        }
        Ok(changes)
    }

    /// The rows in their order.
    pub fn in_order(&self) -> Result<Vec<Counted>, OutOfMemory>
        ensures rises { IfOk result (λ rows. Rises counted_cmp rows.items) }
        ensures counts { IfOk result (λ rows. (g : List ℕ) (p : Pid) → tally (is_row g p) rows.items
            ≡ tally (is_row g p) self.now.rows) }
    {
        let mut rows = Vec::with_capacity(self.alloc, self.counts.len())?;
        for (group, members) in self.groups.iter() {
            push_counted(self.alloc, self.counts.node(), group, members, &mut rows)?;
        }
        Ok(rows)
    }

    /// Whether this process is in many groups, and no other of the node in any.
    pub fn are_all_of(&self, pid: &Pid) -> bool
        requires { pid.now.node ≡ self.now.node }
        ensures { IsTrue result → (g : List ℕ) (p : Pid)
            → same_pid p pid.now ≡ false → tally (is_row g p) self.now.rows ≡ 0 }
    {
        let Some(processes) = &self.processes else {
            return false;
        };
        match processes.get(&ProcessKey::of(pid)) {
            Some(groups) => groups.len() >= MANY && processes.len() == 1,
            None => false,
        }
    }

    /// The changes where a process leaves all groups.
    pub fn left_by(&self, pid: &Pid) -> Result<Vec<GroupChange>, OutOfMemory>
        requires own { pid.now.node ≡ self.now.node }
        requires counted { AreCounted self.now.rows }
        ensures { IfOk result (λ changes. (before after : List ℕ → Pid → ℕ)
            → ((g : List ℕ) (p : Pid) → before g p - after g p
            ≡ cond (same_pid p pid.now) (tally (is_row g p) self.now.rows) 0)
            → ((g : List ℕ) (p : Pid) → after g p - before g p ≡ 0)
            → IsDifference before after changes.items) }
    {
        let Some(processes) = &self.processes else {
            return self.left_under(&self.groups, pid);
        };
        let Some(groups) = processes.get(&ProcessKey::of(pid)) else {
            return Ok(Vec::new(self.alloc));
        };
        // Where the node has no other process, no count is looked up.
        if processes.len() == 1 {
            return self.all_left();
        }
        self.left_from(groups, pid)
    }

    /// The changes where a process leaves these groups.
    fn left_from(
        &self,
        groups: &SmallMap<Group, ()>,
        pid: &Pid,
    ) -> Result<Vec<GroupChange>, OutOfMemory>
        requires { pid.now.node ≡ self.now.node }
        ensures changes { IfOk result (λ changes. changes.items
            ≡ changes_left_by self.now.rows pid.now (keys_of (entries_of groups.now))) }
        ensures ordered { IfOk result (λ _.
            IsStrictlySortedBy text_cmp (keys_of (entries_of groups.now))) }
    {
        match groups {
            SmallMap::Empty => Ok(Vec::new(self.alloc)),
            SmallMap::One(group, _) => {
                let left = self.copies(group, pid)?;
                one_change(self.alloc, group, left, Vec::new(self.alloc))
            }
            SmallMap::Few(map) => self.left_among(map.entries(), pid),
            SmallMap::Many(map) => self.left_under(map, pid),
        }
    }

    /// The changes where a process leaves the groups that are the keys of a map.
    fn left_under<V>(
        &self,
        groups: &BTreeMap<Group, V>,
        pid: &Pid,
    ) -> Result<Vec<GroupChange>, OutOfMemory>
        requires { pid.now.node ≡ self.now.node }
        ensures changes { IfOk result (λ changes. changes.items
            ≡ changes_left_by self.now.rows pid.now (keys_of groups.now.entries)) }
        ensures ordered { IfOk result (λ _.
            IsStrictlySortedBy text_cmp (keys_of groups.now.entries)) }
    {
        let mut changes = Vec::with_capacity(self.alloc, groups.len())?;
        for (group, _) in groups {
            let left = self.copies(group, pid)?;
            push_change(self.alloc, &mut changes, group, left, Vec::new(self.alloc))?;
        }
        Ok(changes)
    }

    /// The changes where a process leaves these groups.
    fn left_among(&self, groups: &[(Group, ())], pid: &Pid) -> Result<Vec<GroupChange>, OutOfMemory>
        requires { pid.now.node ≡ self.now.node }
        ensures { IfOk result (λ changes. changes.items
            ≡ changes_left_by self.now.rows pid.now (keys_of groups.now)) }
    {
        let mut changes = Vec::with_capacity(self.alloc, groups.len())?;
        for (group, _) in groups {
            let left = self.copies(group, pid)?;
            push_change(self.alloc, &mut changes, group, left, Vec::new(self.alloc))?;
        }
        Ok(changes)
    }

    /// Copies of a process, as many as it is counted in a group.
    fn copies(&self, group: &Group, pid: &Pid) -> Result<Vec<Pid>, OutOfMemory>
        requires { pid.now.node ≡ self.now.node }
        ensures { IfOk result (λ pids. pids.items
            ≡ replicate (tally (is_row group.now pid.now) self.now.rows) pid.now) }
    {
        let count = self.count(group, pid) as usize;
        let mut pids = Vec::with_capacity(self.alloc, count)?;
        push_copies(self.alloc, &mut pids, pid, count)?;
        Ok(pids)
    }

    /// Whether these are the rows of the node in their order, each as often as it is counted.
    pub fn are_just(&self, rows: &[Row]) -> bool
        requires { All (λ r. r.pid.node ≡ self.now.node) rows.now }
        ensures { IsTrue result → (g : List ℕ) (p : Pid) → how_many (is_row g p) rows.now
            ≡ tally (is_row g p) self.now.rows }
    {
        let mut rest = rows;
        for (group, members) in self.groups.iter() {
            match behind_all(rest, group, members) {
                Some(others) => rest = others,
                None => return false,
            }
        }
        rest.is_empty()
    }
}
