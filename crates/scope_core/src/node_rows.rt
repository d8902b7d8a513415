//! The rows of one node, and how many they are.
ghost use Rattle.std.specs.Prelude.{◌≡◌, ◌+◌, ◌≤◌, ◌<◌, ◌∷◌, [], not, All, IfSome, IfOk, OnOk, OnErr, length};
ghost use Rattle.std.specs.Option.{IfNone};
ghost use Rattle.dist_types.specs.Listing.{same_pid, total, Rises};
ghost use Rattle.scope_core.specs.Table.{tally, is_row, counted_cmp, max_rows};
ghost use Rattle.scope_core.specs.Added.{are_all_in, Joins};
ghost use Rattle.scope_core.specs.HashedRows.{NodeTable, with_process};
ghost use Rattle.scope_core.specs.Indexed.{has_groups, has_members};
ghost use Rattle.scope_core.specs.NodeLists.{IsNodeList};

use crate::counted::{Counted, Gone};
use crate::hashed_rows::HashedRows;
use crate::reads::total_of;
use dist_types::{NodeName, OutOfMemory, Pid, Row};
use std::alloc::Global;
use std::marker::Model;

/// Rows of one node, each counted; with their total, which is asked for more often than the rows
/// are gone over.
#[derive(Debug, Drop)]
pub struct NodeRows {
    rows: HashedRows,
    /// How many rows there are, each as often as it is counted.
    total: usize,
}

impl Model for NodeRows {
    ghost use Rattle.scope_core.specs.HashedRows.{NodeTable};
    ghost use Rattle.scope_core.specs.NodeLists.{IsNodeRows};

    ghost Value = { NodeTable };

    ghost view = { λ node. node.rows };

    ghost invariant = { λ node. IsNodeRows node.total node.rows };
}

impl NodeRows {
    /// Just these rows of the node, to be found by their process, too, where `by_process` says so.
    pub fn of(
        alloc: Global,
        node: NodeName,
        counted: Vec<Counted>,
        by_process: bool,
    ) -> Result<NodeRows, OutOfMemory>
        requires list { IsNodeList node counted.items }
        requires rises { Rises counted_cmp counted.items }
        ensures { IfOk result (λ made. made ≡ record { node = node; rows = counted.items }) }
    {
        let total = total_of(&counted);
        let rows = HashedRows::of(alloc, node, counted, by_process)?;
        Ok(NodeRows { rows, total })
    }

    /// The rows, to read.
    pub fn rows(&self) -> &HashedRows
        ensures rows { result.now ≡ self.now }
        ensures list { IsNodeList self.now.node self.now.rows }
    {
        &self.rows
    }

    /// How many rows there are, each as often as it is counted.
    pub fn total(&self) -> usize
        ensures total { result ≡ total (λ c. c.count) self.now.rows }
        ensures few { result ≤ max_rows }
    {
        self.total
    }

    /// Puts rows in: all of them, or none.
    pub fn join(&mut self, more: &[Counted]) -> Result<(), OutOfMemory>
        requires list { IsNodeList self.old.node more.now }
        requires few { total (λ c. c.count) self.old.rows + total (λ c. c.count) more.now
            ≤ max_rows }
        ensures ok { OnOk result (Joins more.now self.old.rows self.new.rows) }
        ensures list { IsNodeList self.new.node self.new.rows }
        ensures node { self.new.node ≡ self.old.node }
        ensures same { OnErr result (self.new ≡ self.old) }
    {
        let fresh = self.rows.grow(more)?;
        let (_, others) = more.split_at(fresh);
        for counted in others {
            self.rows.raise(&counted.row, counted.count);
        }
        self.rows.each_once();
        self.total += total_of(more);
        Ok(())
    }

    /// Whether each row stands in the list at most as often as it is counted. It takes no memory.
    pub fn are_all_in(&mut self, gone: &[Row]) -> bool
        requires { All (λ r. r.pid.node ≡ self.old.node) gone.now }
        ensures value { result ≡ are_all_in self.old.rows gone.now }
        ensures same { self.new ≡ self.old }
    {
        if let [row] = gone {
            return self.rows.count(&row.group, &row.pid) > 0;
        }
        self.rows.are_all_in(gone)
    }

    /// Takes a row away, as often as it is counted here. Answers whether none is left of its group.
    pub fn take(&mut self, gone: &Counted) -> bool
        requires some { 0 < gone.now.count }
        requires counted { gone.now.count ≤ tally (is_row gone.now.row.group gone.now.row.pid)
            self.old.rows }
        ensures taken { Joins (gone.now ∷ []) self.new.rows self.old.rows }
        ensures last { result ≡ not (has_members gone.now.row.group self.new.node self.new.rows) }
        ensures list { IsNodeList self.new.node self.new.rows }
        ensures node { self.new.node ≡ self.old.node }
    {
        let is_last = self.rows.lessen(gone);
        self.total -= gone.count as usize;
        is_last
    }

    /// Takes a process out of one of its groups. Answers which, and whether none is left of it, or
    /// of the process.
    pub fn pop_of(&mut self, pid: &Pid) -> Option<Gone>
        requires { pid.now.node ≡ self.old.node }
        ensures gone { IfSome result (λ r.
            Joins (with_process pid.now r.from ∷ []) self.new.rows self.old.rows) }
        ensures last { IfSome result (λ r.
            r.ends_group ≡ not (has_members r.from.group self.new.node self.new.rows)) }
        ensures done { IfSome result (λ r.
            r.ends_process ≡ not (has_groups pid.now self.new.rows)) }
        ensures fewer { IfSome result (λ _. length self.new.rows < length self.old.rows) }
        ensures none { IfNone result (tally (λ r. same_pid r.pid pid.now) self.old.rows ≡ 0) }
        ensures same { IfNone result (self.new ≡ self.old) }
        ensures list { IsNodeList self.new.node self.new.rows }
        ensures node { self.new.node ≡ self.old.node }
    {
        let gone = self.rows.pop_of(pid)?;
        self.total -= gone.from.count as usize;
        Some(gone)
    }
}
