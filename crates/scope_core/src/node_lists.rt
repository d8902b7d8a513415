//! The rows of a scope, node by node.
ghost use Rattle.std.specs.Prelude.{◌≡◌, ◌+◌, ◌≤◌, ◌<◌, ◌∷◌, ℕ, List, [], not, All, cond, IfSome, IsTrue, OnOk, OnErr, length};
ghost use Rattle.std.specs.Option.{IfNone};
ghost use Rattle.std.specs.List.{AllByRecursion};
ghost use Rattle.std.specs.declared.cmp.Ordering.TheVariants.{Less};
ghost use Rattle.dist_types.specs.declared.pid.Pid.{Pid};
ghost use Rattle.dist_types.specs.Listing.{same, same_pid, mentions, Rises, Ascends};
ghost use Rattle.dist_types.specs.Order.{text_cmp, pid_cmp};
ghost use Rattle.scope_core.specs.Table.{tally, is_row, is_of_node, counted_cmp, max_rows};
ghost use Rattle.scope_core.specs.Added.{without_node, are_all_in, Joins};
ghost use Rattle.scope_core.specs.HashedRows.{with_process};
ghost use Rattle.scope_core.specs.Indexed.{has_groups, has_members};
ghost use Rattle.scope_core.specs.NodeLists.{of_node, IsNodeList};

use crate::counted::{Counted, Gone};
use crate::node_rows::NodeRows;
use dist_types::{Group, NodeName, OutOfMemory, Pid, Row, TryClone};
use indexmap::IndexMap;
use std::alloc::Global;
use std::marker::Model;

/// Rows, those of a node beside one another. What a call does to one node's rows it does to these
/// alone.
#[derive(Debug, Drop)]
pub struct NodeLists {
    alloc: Global,
    lists: IndexMap<NodeName, NodeRows>,
}

impl Model for NodeLists {
    ghost use Rattle.std.specs.Prelude.{List};
    ghost use Rattle.scope_core.specs.declared.counted.Counted.{Counted};
    ghost use Rattle.scope_core.specs.NodeLists.{all_rows, rows_by_node, AreNodeLists};

    ghost Value = { List Counted };

    ghost view = { λ rows. all_rows (rows_by_node rows.lists.entries) };

    ghost invariant = { λ rows. AreNodeLists rows.lists.entries };
}

impl NodeLists {
    /// No rows.
    pub fn new(alloc: Global) -> NodeLists
        ensures { result ≡ [] }
    {
        NodeLists {
            alloc,
            lists: IndexMap::new(alloc),
        }
    }

    /// Whether no node has rows.
    pub fn is_empty(&self) -> bool
        ensures { IsTrue result → self.now ≡ [] }
    {
        self.lists.is_empty()
    }

    /// The rows of a node, where it has had some.
    pub fn get(&self, node: &NodeName) -> Option<&NodeRows>
        ensures node { IfSome result (λ list. list.now.node ≡ node.now) }
        ensures rows { IfSome result (λ list. list.now.rows ≡ of_node node.now self.now) }
        ensures none { IfNone result (of_node node.now self.now ≡ []) }
    {
        self.lists.get(node)
    }

    /// Whether a process of the node is in the group.
    pub fn has_group(&self, node: &NodeName, group: &Group) -> bool
        ensures { result ≡ has_members group.now node.now self.now }
    {
        match self.get(node) {
            Some(list) => list.rows().has_group(group),
            None => false,
        }
    }

    /// Puts the processes of a node in a group at the end of a list, each as often as it is
    /// counted.
    pub fn push_members(
        &self,
        pids: &mut Vec<Pid>,
        node: &NodeName,
        group: &Group,
    ) -> Result<(), OutOfMemory>
        ensures counts { OnOk result ((p : Pid) → mentions p pids.new.items
            ≡ mentions p pids.old.items + cond (same node.now p.node)
            (tally (is_row group.now p) self.now) 0) }
        ensures ascends { OnOk result (AllByRecursion (λ p. text_cmp p.node node.now
            ≡ Less) pids.old.items → Ascends pid_cmp pids.old.items
            → Ascends pid_cmp pids.new.items) }
    {
        match self.get(node) {
            Some(list) => list.rows().push_members(pids, group),
            None => Ok(()),
        }
    }

    /// No node has more rows than it may.
    pub fn few(&self)
        ensures { (n : List ℕ) → tally (is_of_node n) self.now ≤ max_rows }
    {
        let _lists = &self.lists;
    }

    /// How many rows a node has, each as often as it is counted.
    pub fn total_of(&self, node: &NodeName) -> usize
        ensures total { result ≡ tally (is_of_node node.now) self.now }
        ensures few { result ≤ max_rows }
    {
        match self.get(node) {
            Some(list) => list.total(),
            None => 0,
        }
    }

    /// Puts rows of a node in. Where it has none yet, `by_process` says whether they are to be
    /// found by their process.
    pub fn join(
        &mut self,
        node: &NodeName,
        more: Vec<Counted>,
        by_process: bool,
    ) -> Result<(), OutOfMemory>
        requires list { IsNodeList node.now more.items }
        requires rises { Rises counted_cmp more.items }
        requires few { tally (is_of_node node.now) self.old + tally (is_of_node node.now) more.items
            ≤ max_rows }
        ensures ok { OnOk result (Joins more.items self.old self.new) }
        ensures same { OnErr result (self.new ≡ self.old) }
    {
        // Many beside none are put in at once.
        if more.len() > 1 && self.total_of(node) == 0 {
            return self.replace(node, more, by_process);
        }
        let Some(list) = self.lists.get_mut(node) else {
            return self.replace(node, more, by_process);
        };
        list.join(&more)
    }

    /// Puts rows in place of those of a node, to be found by their process where `by_process` says
    /// so.
    pub fn replace(
        &mut self,
        node: &NodeName,
        rows: Vec<Counted>,
        by_process: bool,
    ) -> Result<(), OutOfMemory>
        requires list { IsNodeList node.now rows.items }
        requires rises { Rises counted_cmp rows.items }
        ensures ok { OnOk result (Joins rows.items (without_node node.now self.old) self.new) }
        ensures same { OnErr result (self.new ≡ self.old) }
    {
        let name = node.try_clone(self.alloc)?;
        let list = NodeRows::of(self.alloc, node.try_clone(self.alloc)?, rows, by_process)?;
        self.lists.insert(name, list)?;
        Ok(())
    }

    /// Whether each of a node's rows stands among these at most as often as it is counted. It takes
    /// no memory.
    pub fn are_all_in(&mut self, node: &NodeName, gone: &[Row]) -> bool
        requires { All (λ r. r.pid.node ≡ node.now) gone.now }
        ensures value { result ≡ are_all_in self.old gone.now }
        ensures same { self.new ≡ self.old }
    {
        let Some(list) = self.lists.get_mut(node) else {
            return gone.is_empty();
        };
        list.are_all_in(gone)
    }

    /// Takes a row away, as often as it is counted here. Answers whether its node has none of its
    /// group any more.
    pub fn take(&mut self, gone: &Counted) -> bool
        requires some { 0 < gone.now.count }
        requires counted { gone.now.count ≤ tally (is_row gone.now.row.group gone.now.row.pid)
            self.old }
        ensures taken { Joins (gone.now ∷ []) self.new self.old }
        ensures last { result
            ≡ not (has_members gone.now.row.group gone.now.row.pid.node self.new) }
    {
        let Some(list) = self.lists.get_mut(&gone.row.pid.node) else {
            return true;
        };
        list.take(gone)
    }

    /// Takes a process out of one of its groups. Answers which, and whether its node has no process
    /// in it any more, or the process no other group.
    pub fn pop_of(&mut self, pid: &Pid) -> Option<Gone>
        ensures gone { IfSome result (λ r.
            Joins (with_process pid.now r.from ∷ []) self.new self.old) }
        ensures last { IfSome result (λ r.
            r.ends_group ≡ not (has_members r.from.group pid.now.node self.new)) }
        ensures done { IfSome result (λ r. r.ends_process ≡ not (has_groups pid.now self.new)) }
        ensures fewer { IfSome result (λ r. length self.new < length self.old) }
        ensures none { IfNone result (tally (λ r. same_pid r.pid pid.now) self.old ≡ 0) }
        ensures same { IfNone result (self.new ≡ self.old) }
    {
        let list = self.lists.get_mut(&pid.node)?;
        let gone = list.pop_of(pid)?;
        Some(gone)
    }

    /// Takes all rows of a node away, and gives them back.
    pub fn remove_node(&mut self, node: &NodeName) -> Option<NodeRows>
        ensures rest { self.new ≡ without_node node.now self.old }
        ensures gone { IfSome result (λ list. (list.node ≡ node.now)
            × (list.rows ≡ of_node node.now self.old)) }
        ensures none { IfNone result (of_node node.now self.old ≡ []) }
    {
        self.lists.shift_remove(node)
    }

    /// Takes all rows away.
    pub fn clear(&mut self)
        ensures { self.new ≡ [] }
    {
        self.lists.clear();
    }
}
