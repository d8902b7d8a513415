//! The rows of a scope, and the nodes of each group.
ghost use Rattle.std.specs.Prelude.{◌≡◌, ◌+◌, ◌≤◌, ◌<◌, ◌∷◌, true, false, nat_lt, not, cond, ℕ, List, [], All, IsTrue, IfSome, IfOk, OnOk, OnErr, length};
ghost use Rattle.std.specs.Option.{IfNone};
ghost use Rattle.std.specs.List.{list_any, AllByRecursion};
ghost use Rattle.dist_types.specs.declared.pid.Pid.{Pid};
ghost use Rattle.dist_types.specs.Listing.{same, same_pid, how_many, mentions, Rises, Ascends, IsPidListing, IsGroupListing};
ghost use Rattle.std.specs.declared.cmp.Ordering.TheVariants.{Less};
ghost use Rattle.dist_types.specs.Order.{text_cmp, pid_cmp};
ghost use Rattle.dist_types.specs.Difference.{IsDifference};
ghost use Rattle.scope_core.specs.Table.{tally, is_row, is_of_node, counted_cmp, max_rows, IsKept};
ghost use Rattle.scope_core.specs.Added.{without_node, are_all_in, Adds, Joins};
ghost use Rattle.scope_core.specs.NodeLists.{of_node, IsNodeList};
ghost use Rattle.scope_core.specs.HashedRows.{with_process};
ghost use Rattle.scope_core.specs.Indexed.{has_groups, has_members, is_named, Covers};

use crate::counted::{Counted, Gone};
use crate::group_nodes::GroupNodes;
use crate::indexing::{gathered, put_all, settle_all, unname};
use crate::node_lists::NodeLists;
use crate::node_rows::NodeRows;
use dist_types::{Group, GroupChange, NodeName, OutOfMemory, Pid, Row};
use std::alloc::Global;
use std::marker::Model;

/// Rows, with an index of the nodes that have rows of each group.
#[derive(Debug, Drop)]
pub struct IndexedRows {
    lists: NodeLists,
    index: GroupNodes,
}

impl Model for IndexedRows {
    ghost use Rattle.std.specs.Prelude.{List};
    ghost use Rattle.scope_core.specs.declared.counted.Counted.{Counted};
    ghost use Rattle.scope_core.specs.Indexed.{IsIndexed};

    ghost Value = { List Counted };

    ghost view = { λ rows. rows.lists };

    ghost invariant = { λ rows. IsIndexed rows.lists rows.index };
}

impl IndexedRows {
    /// No rows.
    pub fn new(alloc: Global) -> IndexedRows
        ensures { result ≡ [] }
    {
        IndexedRows {
            lists: NodeLists::new(alloc),
            index: GroupNodes::new(alloc),
        }
    }

    /// The group's name as it is kept here, where the group has a process.
    pub fn stored(&self, group: &Group) -> Option<&Group>
        ensures equal { IfSome result (λ stored. stored.now ≡ group.now) }
        ensures none { IfNone result ((p : Pid) → tally (is_row group.now p) self.now ≡ 0) }
    {
        self.index.stored(group)
    }

    /// No node has more rows than it may.
    pub fn few(&self)
        ensures { (n : List ℕ) → tally (is_of_node n) self.now ≤ max_rows }
    {
        self.lists.few();
    }

    /// How many rows a node has, each as often as it is counted.
    pub fn total_of(&self, node: &NodeName) -> usize
        ensures total { result ≡ tally (is_of_node node.now) self.now }
        ensures few { result ≤ max_rows }
    {
        self.lists.total_of(node)
    }

    /// The rows of a node in their order.
    pub fn in_order(&self, alloc: Global, node: &NodeName) -> Result<Vec<Counted>, OutOfMemory>
        ensures rises { IfOk result (λ rows. Rises counted_cmp rows.items) }
        ensures counts { IfOk result (λ rows. (g : List ℕ) (p : Pid) → tally (is_row g p) rows.items
            ≡ cond (same p.node node.now) (tally (is_row g p) self.now) 0) }
    {
        match self.lists.get(node) {
            Some(list) => list.rows().in_order(),
            None => Ok(Vec::new(alloc)),
        }
    }

    /// Whether these are the rows of the node in their order.
    pub fn are_just(&self, node: &NodeName, rows: &[Row]) -> bool
        requires { All (λ r. r.pid.node ≡ node.now) rows.now }
        ensures { IsTrue result → (g : List ℕ) (p : Pid) → how_many (is_row g p) rows.now
            ≡ cond (same p.node node.now) (tally (is_row g p) self.now) 0 }
    {
        match self.lists.get(node) {
            Some(list) => list.total() == rows.len() && list.rows().are_just(rows),
            None => rows.is_empty(),
        }
    }

    /// Puts the processes of a node in a group at the end of a list, each as often as it is
    /// counted.
    pub fn push_members(
        &self,
        pids: &mut Vec<Pid>,
        node: &NodeName,
        group: &Group,
    ) -> Result<(), OutOfMemory>
        ensures counts { OnOk result ((p : Pid) → mentions p pids.new.items
            ≡ mentions p pids.old.items + cond (same node.now p.node)
            (tally (is_row group.now p) self.now) 0) }
        ensures ascends { OnOk result (AllByRecursion (λ p. text_cmp p.node node.now
            ≡ Less) pids.old.items → Ascends pid_cmp pids.old.items
            → Ascends pid_cmp pids.new.items) }
    {
        self.lists.push_members(pids, node, group)
    }

    /// Whether each row stands in the list at most as often as it is counted.
    pub fn are_all_in(&mut self, node: &NodeName, gone: &[Row]) -> bool
        requires { All (λ r. r.pid.node ≡ node.now) gone.now }
        ensures value { result ≡ are_all_in self.old gone.now }
        ensures same { self.new ≡ self.old }
    {
        self.lists.are_all_in(node, gone)
    }

    /// How often a process is in a group.
    pub fn count(&self, group: &Group, pid: &Pid) -> u32
        ensures { result ≡ tally (is_row group.now pid.now) self.now }
    {
        match self.lists.get(&pid.node) {
            Some(list) => list.rows().count(group, pid),
            None => 0,
        }
    }

    /// Whether one of the processes is in the group.
    pub fn is_any_in(&self, group: &Group, pids: &[Pid]) -> bool
        ensures { result ≡ list_any (λ p. nat_lt 0 (tally (is_row group.now p) self.now)) pids.now }
    {
        pids.iter().any(|pid| self.count(group, pid) > 0)
    }

    /// The groups with a process, in their order.
    pub fn groups(&self, alloc: Global) -> Result<Vec<Group>, OutOfMemory>
        ensures { IfOk result (λ groups. IsGroupListing (λ g p. tally (is_row g p) self.now)
            groups.items) }
    {
        let groups = self.index.groups(alloc)?;
        Ok(groups)
    }

    /// The processes of a group, in order, each as often as it is counted.
    pub fn members(&self, alloc: Global, group: &Group) -> Result<Vec<Pid>, OutOfMemory>
        ensures { IfOk result (λ pids. IsPidListing (λ p. tally (is_row group.now p) self.now)
            pids.items) }
    {
        let nodes = self.index.of(group);
        let pids = gathered(alloc, &self.lists, nodes, group)?;
        Ok(pids)
    }

    /// Puts rows of a node in. These groups change, and no other. Where the node has no rows yet,
    /// `by_process` says whether they are to be found by their process, too.
    pub fn join(
        &mut self,
        node: &NodeName,
        more: Vec<Counted>,
        changes: &[GroupChange],
        by_process: bool,
    ) -> Result<(), OutOfMemory>
        requires list { IsNodeList node.now more.items }
        requires rises { Rises counted_cmp more.items }
        requires few { tally (is_of_node node.now) self.old + tally (is_of_node node.now) more.items
            ≤ max_rows }
        requires changes { Covers changes.now node.now [] more.items }
        requires named { (g : List ℕ) → is_named g changes.now ≡ true
            → has_members g node.now more.items ≡ true }
        ensures ok { OnOk result (Joins more.items self.old self.new) }
        ensures same { OnErr result (self.new ≡ self.old) }
    {
        if put_all(&mut self.index, changes, node).is_err() {
            settle_all(&self.lists, &mut self.index, changes, node);
            return Err(OutOfMemory);
        }
        let joined = self.lists.join(node, more, by_process);
        // The rows that came in are all there.
        if joined.is_err() {
            settle_all(&self.lists, &mut self.index, changes, node);
        }
        joined
    }

    /// Puts rows of a peer in place of those it had. Only these groups change.
    pub fn replace(
        &mut self,
        node: &NodeName,
        rows: Vec<Counted>,
        changes: &[GroupChange],
    ) -> Result<(), OutOfMemory>
        requires list { IsNodeList node.now rows.items }
        requires rises { Rises counted_cmp rows.items }
        requires changes { Covers changes.now node.now self.old rows.items }
        ensures ok { OnOk result (Joins rows.items (without_node node.now self.old) self.new) }
        ensures same { OnErr result (self.new ≡ self.old) }
    {
        if put_all(&mut self.index, changes, node).is_err() {
            settle_all(&self.lists, &mut self.index, changes, node);
            return Err(OutOfMemory);
        }
        let replaced = self.lists.replace(node, rows, false);
        settle_all(&self.lists, &mut self.index, changes, node);
        replaced
    }

    /// The changes where all rows of a node leave.
    pub fn all_left(&self, alloc: Global, node: &NodeName) -> Result<Vec<GroupChange>, OutOfMemory>
        ensures { IfOk result (λ changes. IsDifference (λ g p. tally (is_row g p) self.now) (λ g p.
            cond (same p.node node.now) 0 (tally (is_row g p) self.now)) changes.items) }
    {
        match self.lists.get(node) {
            Some(list) => list.rows().all_left(),
            None => Ok(Vec::new(alloc)),
        }
    }

    /// Whether this process is in many groups, and no other of its node in any.
    pub fn are_all_of(&self, pid: &Pid) -> bool
        ensures { IsTrue result → (g : List ℕ) (p : Pid) → same p.node pid.now.node ≡ true
            → same_pid p pid.now ≡ false → tally (is_row g p) self.now ≡ 0 }
    {
        match self.lists.get(&pid.node) {
            Some(list) => list.rows().are_all_of(pid),
            None => false,
        }
    }

    /// The changes where a process leaves all groups.
    pub fn left_by(&self, alloc: Global, pid: &Pid) -> Result<Vec<GroupChange>, OutOfMemory>
        ensures { IfOk result (λ changes. IsDifference (λ g p. tally (is_row g p) self.now) (λ g p.
            cond (same_pid p pid.now) 0 (tally (is_row g p) self.now)) changes.items) }
    {
        match self.lists.get(&pid.node) {
            Some(list) => list.rows().left_by(pid),
            None => Ok(Vec::new(alloc)),
        }
    }

    /// Takes rows away, each as often as it is counted here.
    pub fn take_rows(&mut self, gone: &[Counted])
        requires kept { IsKept gone.now }
        requires counted { AllByRecursion (λ c. c.count
            ≤ tally (is_row c.row.group c.row.pid) self.old) gone.now }
        ensures { Joins gone.now self.new self.old }
    {
        for counted in gone {
            self.take(counted);
        }
    }

    /// Takes rows of a node away, which are counted here. Where it has no others, they needn't be
    /// looked up.
    pub fn take_listed(&mut self, node: &NodeName, rows: &[Row], counted: &[Counted])
        requires own { All (λ r. r.pid.node ≡ node.now) rows.now }
        requires there { IsTrue (are_all_in self.old rows.now) }
        requires counted { Adds rows.now [] counted.now }
        requires kept { IsKept counted.now }
        ensures rows { (g : List ℕ) (p : Pid) → tally (is_row g p) self.old
            ≡ tally (is_row g p) self.new + how_many (is_row g p) rows.now }
        ensures totals { (n : List ℕ) → tally (is_of_node n) self.old
            ≡ tally (is_of_node n) self.new + how_many (is_of_node n) rows.now }
    {
        if self.total_of(node) == rows.len() {
            self.remove_node(node);
            return;
        }
        self.take_rows(counted);
    }

    /// Takes a row away, as often as it is counted here.
    fn take(&mut self, gone: &Counted)
        requires some { 0 < gone.now.count }
        requires counted { gone.now.count ≤ tally (is_row gone.now.row.group gone.now.row.pid)
            self.old }
        ensures { Joins (gone.now ∷ []) self.new self.old }
    {
        if self.lists.take(gone) {
            self.index.take(&gone.row.group, &gone.row.pid.node);
        }
    }

    /// Takes a process out of one of its groups. Answers which, and whether it has no other.
    pub fn pop_of(&mut self, pid: &Pid) -> Option<Gone>
        ensures gone { IfSome result (λ r.
            Joins (with_process pid.now r.from ∷ []) self.new self.old) }
        ensures done { IfSome result (λ r. r.ends_process ≡ not (has_groups pid.now self.new)) }
        ensures fewer { IfSome result (λ _. length self.new < length self.old) }
        ensures none { IfNone result (tally (λ r. same_pid r.pid pid.now) self.old ≡ 0) }
        ensures same { IfNone result (self.new ≡ self.old) }
    {
        let gone = self.lists.pop_of(pid)?;
        if gone.ends_group {
            self.index.take(&gone.from.group, &pid.node);
        }
        Some(gone)
    }

    /// Takes all rows of a node away, and gives them back.
    pub fn remove_node(&mut self, node: &NodeName) -> Option<NodeRows>
        ensures rest { self.new ≡ without_node node.now self.old }
        ensures gone { IfSome result (λ list. (list.node ≡ node.now)
            × (list.rows ≡ of_node node.now self.old)) }
        ensures none { IfNone result (of_node node.now self.old ≡ []) }
    {
        let gone = self.lists.remove_node(node)?;
        if self.lists.is_empty() {
            self.index.clear();
        } else {
            unname(&mut self.index, gone.rows(), node);
        }
        Some(gone)
    }

    /// Takes all rows away.
    pub fn clear(&mut self)
        ensures { self.new ≡ [] }
    {
        self.lists.clear();
        self.index.clear();
    }
}
