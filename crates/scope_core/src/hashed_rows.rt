//! The rows of one node in a hashed map, with an ordered index of its groups and one of its
//! processes.
ghost use Rattle.std.specs.Prelude.{◌≡◌, ◌++◌, ◌+◌, ◌||◌, Bool, [], ◌∷◌, All, take, length, ◌-◌, ◌≤◌, ◌<◌, cond, not, true, false, IfSome, IfOk, OnOk, OnErr};
ghost use Rattle.std.specs.Option.{IfNone};
ghost use Rattle.std.specs.List.{AllByRecursion};
ghost use Rattle.dist_types.specs.declared.row.Row.{Row};
ghost use Rattle.dist_types.specs.Listing.{same, same_pid, Rises};
ghost use Rattle.scope_core.specs.Table.{tally, is_row, counted_cmp, max_rows, AreCounted};
ghost use Rattle.scope_core.specs.Added.{are_all_in, bare_rows, Joins, HasRoomFor};
ghost use Rattle.scope_core.specs.HashedRows.{NodeTable, stands, with_process};
ghost use Rattle.scope_core.specs.Indexed.{has_groups, has_members};

use crate::counted::{Counted, Gone};
use crate::lowering::can_lower;
use crate::nested_map::{pop, set, take};
use crate::node_indexes::{forget, group_of, groups_of, name, processes_of};
use crate::process_key::ProcessKey;
use crate::row_counts::RowCounts;
use crate::small_map::SmallMap;
use dist_types::{Group, NodeName, OutOfMemory, Pid, Row};
use std::alloc::Global;
use std::collections::BTreeMap;
use std::marker::Model;

/// Rows of one node, each with a count, which may be 0 while rows are put in.
#[derive(Debug, Drop)]
pub struct HashedRows {
    pub(crate) alloc: Global,
    pub(crate) counts: RowCounts,
    /// For each group its processes, with the same counts.
    pub(crate) groups: BTreeMap<Group, SmallMap<ProcessKey, u32>>,
    /// For each process its groups, where they are kept: an own process exits, and takes its rows
    /// with it, while a peer says of each of its rows that it goes.
    pub(crate) processes: Option<BTreeMap<ProcessKey, SmallMap<Group, ()>>>,
}

impl Model for HashedRows {
    ghost use Rattle.scope_core.specs.HashedRows.{NodeTable, IsHashed, counted_in};

    ghost Value = { NodeTable };

    ghost view = { λ rows. record {
      node = rows.counts.node;
      rows = counted_in rows.counts.entries;
    } };

    ghost invariant = { λ rows. IsHashed rows.counts.node rows.counts.entries rows.groups
        rows.processes };
}

impl HashedRows {
    /// Just these rows of the node, which are in order. They are found by their process, too, where
    /// `by_process` says so.
    pub fn of(
        alloc: Global,
        node: NodeName,
        rows: Vec<Counted>,
        by_process: bool,
    ) -> Result<HashedRows, OutOfMemory>
        requires own { AllByRecursion (λ c. c.row.pid.node ≡ node) rows.items }
        requires rises { Rises counted_cmp rows.items }
        ensures { IfOk result (λ made. made ≡ record { node = node; rows = rows.items }) }
    {
        let groups = groups_of(alloc, &rows)?;
        let processes = if by_process {
            Some(processes_of(alloc, &rows)?)
        } else {
            None
        };
        Ok(HashedRows {
            alloc,
            counts: RowCounts::of(alloc, node, rows)?,
            groups,
            processes,
        })
    }

    /// How often the process is in the group.
    pub fn count(&self, group: &Group, pid: &Pid) -> u32
        requires { pid.now.node ≡ self.now.node }
        ensures { result ≡ tally (is_row group.now pid.now) self.now.rows }
    {
        self.counts.get(group, pid)
    }

    /// Puts a row last, where it isn't there yet. Answers whether it wasn't.
    fn put(&mut self, row: &Row, count: u32) -> Result<bool, OutOfMemory>
        requires { row.now.pid.node ≡ self.old.node }
        ensures fresh { IfOk result (λ fresh. fresh ≡ not (stands row.now self.old.rows)) }
        ensures ok { OnOk result (self.new.rows ≡ self.old.rows
            ++ cond (stands row.now self.old.rows) []
            (record { row = row.now; count = count } ∷ [])) }
        ensures node { self.new.node ≡ self.old.node }
        ensures same { OnErr result (self.new ≡ self.old) }
    {
        let alloc = self.alloc;
        if !self.counts.push_new(row, count)? {
            return Ok(false);
        }
        let named = name(alloc, &mut self.groups, &mut self.processes, row, count);
        if named.is_err() {
            self.counts.pop();
            return Err(OutOfMemory);
        }
        Ok(true)
    }

    /// Puts each row that isn't there yet last: all of them, or none. Those before the first that
    /// is there have their counts then, and the others the count 0. Answers how many the former
    /// are.
    pub fn grow(&mut self, more: &[Counted]) -> Result<usize, OutOfMemory>
        requires { AllByRecursion (λ c. c.row.pid.node ≡ self.old.node) more.now }
        ensures bound { IfOk result (λ n. n ≤ length more.now) }
        ensures ok { IfOk result (λ n. (test : Row → Bool) → tally test self.new.rows
            ≡ tally test self.old.rows + tally test (take n more.now)) }
        ensures stand { OnOk result ((r : Row) → stands r self.new.rows
            ≡ (stands r self.old.rows || stands r more.now)) }
        ensures node { self.new.node ≡ self.old.node }
        ensures same { OnErr result (self.new ≡ self.old) }
    {
        let len = self.counts.len();
        let fresh = self.put_new(more)?;
        let (_, others) = more.split_at(fresh);
        if self.hold(others).is_err() {
            self.cut(len);
            return Err(OutOfMemory);
        }
        Ok(fresh)
    }

    /// Puts rows last up to the first that is there: all of those, or none. Answers how many they
    /// are.
    fn put_new(&mut self, more: &[Counted]) -> Result<usize, OutOfMemory>
        requires { AllByRecursion (λ c. c.row.pid.node ≡ self.old.node) more.now }
        ensures bound { IfOk result (λ n. n ≤ length more.now) }
        ensures ok { IfOk result (λ n. self.new ≡ record {
          node = self.old.node;
          rows = self.old.rows ++ take n more.now;
        }) }
        ensures same { OnErr result (self.new ≡ self.old) }
    {
        let len = self.counts.len();
        let mut fresh = 0;
        for counted in more {
            match self.put(&counted.row, counted.count) {
                Ok(true) => fresh += 1,
                Ok(false) => return Ok(fresh),
                Err(_) => {
                    self.cut(len);
                    return Err(OutOfMemory);
                }
            }
        }
        Ok(fresh)
    }

    /// Puts each row that isn't there yet last, with the count 0: all of them, or none.
    fn hold(&mut self, more: &[Counted]) -> Result<(), OutOfMemory>
        requires { AllByRecursion (λ c. c.row.pid.node ≡ self.old.node) more.now }
        ensures ok { OnOk result ((test : Row → Bool) → tally test self.new.rows
            ≡ tally test self.old.rows) }
        ensures stand { OnOk result ((r : Row) → stands r self.new.rows
            ≡ (stands r self.old.rows || stands r more.now)) }
        ensures node { self.new.node ≡ self.old.node }
        ensures same { OnErr result (self.new ≡ self.old) }
    {
        let len = self.counts.len();
        for counted in more {
            if self.put(&counted.row, 0).is_err() {
                self.cut(len);
                return Err(OutOfMemory);
            }
        }
        Ok(())
    }

    /// Takes all rows out but so many of the first.
    fn cut(&mut self, len: usize)
        ensures { self.new ≡ record { node = self.old.node; rows = take len self.old.rows } }
    {
        while self.counts.len() > len {
            self.pop();
        }
    }

    /// Takes the last row out.
    fn pop(&mut self)
        ensures { self.new ≡ record {
          node = self.old.node;
          rows = take (length self.old.rows - 1) self.old.rows;
        } }
    {
        let Some(row) = self.counts.pop() else {
            return;
        };
        forget(
            &mut self.groups,
            &mut self.processes,
            &row.group,
            &row.process,
        );
    }

    /// Gives a row that is there a count.
    fn set(&mut self, row: &Row, count: u32)
        requires { stands row.now self.old.rows ≡ true }
        ensures tallies { (test : Row → Bool)
            → tally test self.new.rows + cond (test row.now)
            (tally (is_row row.now.group row.now.pid) self.old.rows) 0 ≡ tally test self.old.rows
            + cond (test row.now) count 0 }
        ensures rows { bare_rows self.new.rows ≡ bare_rows self.old.rows }
        ensures counted { 0 < count → AreCounted self.old.rows → AreCounted self.new.rows }
        ensures node { self.new.node ≡ self.old.node }
    {
        self.counts.set(row, count);
        let key = ProcessKey::of(&row.pid);
        set(&mut self.groups, &row.group, &key, count);
    }

    /// Counts a row that is there so many times more.
    pub fn raise(&mut self, row: &Row, more: u32)
        requires stands { stands row.now self.old.rows ≡ true }
        requires few { tally (is_row row.now.group row.now.pid) self.old.rows + more ≤ max_rows }
        ensures tallies { (test : Row → Bool) → tally test self.new.rows ≡ tally test self.old.rows
            + cond (test row.now) more 0 }
        ensures rows { bare_rows self.new.rows ≡ bare_rows self.old.rows }
        ensures node { self.new.node ≡ self.old.node }
    {
        let count = self.counts.get(&row.group, &row.pid);
        self.set(row, count + more);
    }

    /// Whether each row stands in the list at most as often as it is counted.
    pub fn are_all_in(&mut self, gone: &[Row]) -> bool
        requires own { All (λ r. r.pid.node ≡ self.old.node) gone.now }
        requires few { HasRoomFor [] self.old.rows }
        ensures value { result ≡ are_all_in self.old.rows gone.now }
        ensures same { self.new ≡ self.old }
    {
        can_lower(&mut self.counts, gone)
    }

    /// Takes a row away, as often as it is counted here. Answers whether none is left of its group.
    pub fn lessen(&mut self, gone: &Counted) -> bool
        requires some { 0 < gone.now.count }
        requires counted { gone.now.count ≤ tally (is_row gone.now.row.group gone.now.row.pid)
            self.old.rows }
        ensures taken { Joins (gone.now ∷ []) self.new.rows self.old.rows }
        ensures last { AreCounted self.old.rows
            → result ≡ not (has_members gone.now.row.group self.new.node self.new.rows) }
        ensures counted { AreCounted self.old.rows → AreCounted self.new.rows }
        ensures node { self.new.node ≡ self.old.node }
    {
        let count = self.counts.get(&gone.row.group, &gone.row.pid);
        if count > gone.count {
            self.set(&gone.row, count - gone.count);
            return false;
        }
        self.remove(&gone.row)
    }

    /// Each row stands once, so that all are counted where each that stands there is.
    pub fn each_once(&self)
        ensures { ((r : Row) → stands r self.now.rows ≡ true
            → 0 < tally (is_row r.group r.pid) self.now.rows) → AreCounted self.now.rows }
    {
        let _len = self.counts.len();
    }

    /// Takes a row of the node out. The last one takes its place in the map. Answers whether none
    /// is left of its group.
    fn remove(&mut self, row: &Row) -> bool
        requires { row.now.pid.node ≡ self.old.node }
        ensures tallies { (test : Row → Bool)
            → tally test self.new.rows + cond (test row.now)
            (tally (is_row row.now.group row.now.pid) self.old.rows) 0 ≡ tally test self.old.rows }
        ensures last { AreCounted self.old.rows
            → result ≡ not (has_members row.now.group self.new.node self.new.rows) }
        ensures counted { AreCounted self.old.rows → AreCounted self.new.rows }
        ensures node { self.new.node ≡ self.old.node }
    {
        self.counts.take(&row.group, &row.pid);
        let key = ProcessKey::of(&row.pid);
        forget(&mut self.groups, &mut self.processes, &row.group, &key)
    }

    /// Takes a process out of one of its groups. Answers which, and whether none is left of it, or
    /// of the process.
    pub fn pop_of(&mut self, pid: &Pid) -> Option<Gone>
        requires { pid.now.node ≡ self.old.node }
        ensures gone { IfSome result (λ r.
            Joins (with_process pid.now r.from ∷ []) self.new.rows self.old.rows) }
        ensures last { IfSome result (λ r. AreCounted self.old.rows
            → r.ends_group ≡ not (has_members r.from.group self.new.node self.new.rows)) }
        ensures done { IfSome result (λ r. AreCounted self.old.rows
            → r.ends_process ≡ not (has_groups pid.now self.new.rows)) }
        ensures fewer { IfSome result (λ _. length self.new.rows + 1 ≡ length self.old.rows) }
        ensures counted { AreCounted self.old.rows → AreCounted self.new.rows }
        ensures none { IfNone result (tally (λ r. same_pid r.pid pid.now) self.old.rows ≡ 0) }
        ensures same { IfNone result (self.new ≡ self.old) }
        ensures node { self.new.node ≡ self.old.node }
    {
        let key = ProcessKey::of(pid);
        let Some(processes) = &mut self.processes else {
            // The groups of the node are gone over.
            let group = group_of(&self.groups, &key)?;
            let from = self.counts.take(group, pid).unwrap();
            let ends_group = take(&mut self.groups, &from.group, &key);
            let ends_process = group_of(&self.groups, &key).is_none();
            return Some(Gone {
                from,
                ends_group,
                ends_process,
            });
        };
        let Some((group, ends_process)) = pop(processes, &key) else {
            return None;
        };
        let ends_group = take(&mut self.groups, &group, &key);
        // The index names rows that are there.
        let from = self.counts.take(&group, pid).unwrap();
        Some(Gone {
            from,
            ends_group,
            ends_process,
        })
    }
}
