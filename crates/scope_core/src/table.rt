//! The table of one scope.
ghost use Rattle.std.specs.Prelude.{◌≡◌, ℕ, ◌+◌, ◌≤◌, ◌<◌, false, true, min, cond, IsTrue, IfOk, IfErr, OnErr, OnOk, List, length, All};
ghost use Rattle.dist_types.specs.declared.pid.Pid.{Pid};
ghost use Rattle.dist_types.specs.Listing.{same, same_pid, mentions, IsPidListing};
ghost use Rattle.dist_types.specs.Difference.{IsDifference};
ghost use Rattle.scope_core.specs.Table.{count_of, local_total, node_total, max_rows};
ghost use Rattle.scope_core.specs.Calls.{Counts, is_any_joined, no_count, count_after_join, count_after_leave, count_after_exit, count_after_drop, count_after_sync, count_after_add, count_after_take, are_counted, IsChange, IsJoinFault, IsLeaveFault, IsSyncFault, IsAddFault, IsTakeFault};

use crate::changes::{changes_joined, changes_left, changes_of, in_order, one_change, rows_in};
use crate::fault::TableFault;
use crate::incoming::{beyond, counted_rows};
use crate::indexed_rows::IndexedRows;
use crate::leaving::{all_gone, gone_of};
use crate::listings::Listings;
use dist_types::{Group, GroupChange, NodeName, OutOfMemory, Pid, Row};
use std::alloc::Global;
use std::marker::Model;

/// How often each process is in each group of one scope.
#[derive(Debug)]
pub struct ScopeTable {
    pub(crate) alloc: Global,
    pub(crate) own: NodeName,
    pub(crate) rows: IndexedRows,
    /// How many rows the own processes have, repeats included.
    pub(crate) own_rows: usize,
    /// What was answered of groups that didn't change since.
    pub(crate) listings: Listings,
}

impl Drop for ScopeTable {
    fn drop(self) {
        let ScopeTable {
            alloc: _,
            own: _,
            rows: _,
            own_rows: _,
            listings: _,
        } = self;
    }
}

impl Model for ScopeTable {
    ghost use Rattle.scope_core.specs.Table.{Table, IsHeld};

    ghost Value = { Table };

    ghost view = { λ table. record { own = table.own; rows = table.rows } };

    ghost invariant = { λ table. IsHeld table.own table.own_rows table.rows table.listings };
}

impl ScopeTable {
    /// A table with no rows, of the node with this name.
    pub fn new(alloc: Global, own: NodeName) -> ScopeTable
        ensures own { result.own ≡ own }
        ensures none { (g : List ℕ) (p : Pid) → count_of result g p ≡ 0 }
    {
        ScopeTable {
            alloc,
            own,
            rows: IndexedRows::new(alloc),
            own_rows: 0,
            listings: Listings::new(alloc),
        }
    }

    /// One more for each mention of a process, all of them of the own node, which has no more rows
    /// than `limit` then.
    pub fn join_local(
        &mut self,
        group: &Group,
        pids: &[Pid],
        limit: u32,
    ) -> Result<Vec<GroupChange>, TableFault>
        requires { All (λ p. p.node ≡ self.old.own) pids.now }
        ensures ok { OnOk result (Counts self.old self.new
            (count_after_join self.old group.now pids.now)) }
        ensures change { IfOk result (λ changes. IsChange self.old self.new changes.items) }
        ensures refused { IfErr result (IsJoinFault self.old pids.now limit) }
        ensures limits { OnOk result (local_total self.old + length pids.now ≤ limit) }
        ensures same { OnErr result (self.new ≡ self.old) }
    {
        if self.own_rows + pids.len() > limit as usize {
            return Err(TableFault::RowsFull);
        }
        let sorted = in_order(self.alloc, pids)?;
        let fresh = rows_in(self.alloc, group, &sorted)?;
        let counted = counted_rows(self.alloc, None, &fresh)?;
        let changes = one_change(self.alloc, group, Vec::new(self.alloc), sorted)?;
        self.rows.join(&self.own, counted, &changes, true)?;
        self.listings.forget_changed(&changes);
        self.own_rows += pids.len();
        Ok(changes)
    }

    /// One less for each mention of a process, as far as it is in the group. Answers what really
    /// left.
    pub fn leave_local(
        &mut self,
        group: &Group,
        pids: &[Pid],
    ) -> Result<Vec<GroupChange>, TableFault>
        ensures ok { OnOk result (Counts self.old self.new
            (count_after_leave self.old group.now pids.now)) }
        ensures change { IfOk result (λ changes. IsChange self.old self.new changes.items) }
        ensures refused { IfErr result (IsLeaveFault self.old group.now pids.now) }
        ensures only { OnOk result (IsTrue (is_any_joined self.old group.now pids.now)) }
        ensures same { OnErr result (self.new ≡ self.old) }
    {
        let left = self.gone(group, pids)?;
        if left.is_empty() {
            return Err(TableFault::NotJoined);
        }
        self.rows.few();
        let rows = rows_in(self.alloc, group, &left)?;
        let gone = counted_rows(self.alloc, None, &rows)?;
        let changes = one_change(self.alloc, group, left, Vec::new(self.alloc))?;
        self.rows.take_rows(&gone);
        self.listings.forget_changed(&changes);
        self.own_rows = self.rows.total_of(&self.own);
        Ok(changes)
    }

    /// Who leaves where these are to leave. Want of memory comes last: where nobody is in the
    /// group, that is the answer.
    fn gone(&self, group: &Group, pids: &[Pid]) -> Result<Vec<Pid>, TableFault>
        ensures value { IfOk result (λ gone.
            IsPidListing (λ p. min (mentions p pids.now) (count_of self.now group.now p))
            gone.items) }
        ensures refused { IfErr result (IsLeaveFault self.now group.now pids.now) }
    {
        match gone_of(self.alloc, &self.rows, group, pids) {
            Ok(left) => Ok(left),
            Err(_) => Err(if self.rows.is_any_in(group, pids) {
                TableFault::OutOfMemory
            } else {
                TableFault::NotJoined
            }),
        }
    }

    /// These are the rows of the peer's processes, no more than `limit`, in place of those that it
    /// had.
    #[tactic(auto, using(crate::proofs::Calls::alone_fit, crate::proofs::Between::picked_rises))]
    pub fn sync(
        &mut self,
        peer: &NodeName,
        rows: &[Row],
        limit: u32,
    ) -> Result<Vec<GroupChange>, TableFault>
        requires { All (λ r. r.pid.node ≡ peer.now) rows.now }
        ensures ok { OnOk result (Counts self.old self.new
            (count_after_sync self.old peer.now rows.now)) }
        ensures change { IfOk result (λ changes. IsChange self.old self.new changes.items) }
        ensures refused { IfErr result (IsSyncFault rows.now limit) }
        ensures limits { OnOk result (length rows.now ≤ limit) }
        ensures same { OnErr result (self.new ≡ self.old) }
    {
        // Where there are none to replace, they only join.
        if self.rows.total_of(peer) == 0 {
            return self.join_remote(peer, rows, limit);
        }
        if rows.len() > limit as usize {
            return Err(TableFault::RowsFull);
        }
        if self.rows.are_just(peer, rows) {
            return Ok(Vec::new(self.alloc));
        }
        let held = self.rows.in_order(self.alloc, peer)?;
        let counted = counted_rows(self.alloc, Some(&self.rows), rows)?;
        let left = beyond(self.alloc, &held, &counted)?;
        let joined = beyond(self.alloc, &counted, &held)?;
        let changes = changes_of(self.alloc, &left, &joined)?;
        if changes.is_empty() {
            return Ok(changes);
        }
        self.rows.replace(peer, counted, &changes)?;
        self.listings.forget_changed(&changes);
        self.own_rows -= share_of(&self.own, peer, self.own_rows);
        self.own_rows += share_of(&self.own, peer, rows.len());
        Ok(changes)
    }

    /// One more for each row, all of them of the peer's processes. The peer has no more rows than
    /// `limit` then.
    #[tactic(auto, using(crate::proofs::Calls::alone_fit))]
    pub fn join_remote(
        &mut self,
        peer: &NodeName,
        rows: &[Row],
        limit: u32,
    ) -> Result<Vec<GroupChange>, TableFault>
        requires { All (λ r. r.pid.node ≡ peer.now) rows.now }
        ensures ok { OnOk result (Counts self.old self.new (count_after_add self.old rows.now)) }
        ensures change { IfOk result (λ changes. IsChange self.old self.new changes.items) }
        ensures refused { IfErr result (IsAddFault self.old peer.now rows.now limit) }
        ensures limits { OnOk result (node_total self.old peer.now + length rows.now ≤ limit) }
        ensures same { OnErr result (self.new ≡ self.old) }
    {
        if self.rows.total_of(peer) + rows.len() > limit as usize {
            return Err(TableFault::RowsFull);
        }
        let counted = counted_rows(self.alloc, Some(&self.rows), rows)?;
        let changes = changes_joined(self.alloc, &counted)?;
        self.rows.join(peer, counted, &changes, false)?;
        self.listings.forget_changed(&changes);
        self.own_rows += share_of(&self.own, peer, rows.len());
        Ok(changes)
    }

    /// One less for each row, all of them of the peer's processes.
    pub fn leave_remote(
        &mut self,
        peer: &NodeName,
        rows: &[Row],
    ) -> Result<Vec<GroupChange>, TableFault>
        requires { All (λ r. r.pid.node ≡ peer.now) rows.now }
        ensures ok { OnOk result (Counts self.old self.new (count_after_take self.old rows.now)) }
        ensures change { IfOk result (λ changes. IsChange self.old self.new changes.items) }
        ensures refused { IfErr result (IsTakeFault self.old rows.now) }
        ensures only { OnOk result (IsTrue (are_counted self.old rows.now)) }
        ensures same { OnErr result (self.new ≡ self.old) }
    {
        if !self.rows.are_all_in(peer, rows) {
            return Err(TableFault::NotListed);
        }
        self.rows.few();
        let counted = counted_rows(self.alloc, Some(&self.rows), rows)?;
        let changes = changes_left(self.alloc, &counted)?;
        self.rows.take_listed(peer, rows, &counted);
        self.listings.forget_changed(&changes);
        self.own_rows -= share_of(&self.own, peer, rows.len());
        Ok(changes)
    }

    /// The process leaves all groups.
    pub fn exit(&mut self, pid: &Pid)
        ensures { Counts self.old self.new (count_after_exit self.old pid.now) }
    {
        if !self.leave_one(pid) {
            return;
        }
        // Where its node has no other process, many rows go at once.
        if self.rows.are_all_of(pid) {
            return self.drop_peer(&pid.node);
        }
        while self.leave_one(pid) {}
    }

    /// The process leaves one of its groups, if it is in any. Answers whether it is in others.
    fn leave_one(&mut self, pid: &Pid) -> bool
        ensures own { self.new.own ≡ self.old.own }
        ensures others { (g : List ℕ) (p : Pid) → same_pid p pid.now ≡ false
            → count_of self.new g p ≡ count_of self.old g p }
        ensures none { result ≡ false → (g : List ℕ) (p : Pid) → same_pid p pid.now ≡ true
            → count_of self.new g p ≡ 0 }
        ensures fewer { IsTrue result → length self.new.rows < length self.old.rows }
    {
        let Some(gone) = self.rows.pop_of(pid) else {
            return false;
        };
        self.listings.forget(&gone.from.group);
        self.own_rows -= share_of(&self.own, &pid.node, gone.from.count as usize);
        !gone.ends_process
    }

    /// What `exit` will change.
    pub fn exit_change(&self, pid: &Pid) -> Result<Vec<GroupChange>, OutOfMemory>
        ensures change { IfOk result (λ changes.
            IsDifference (count_of self.now) (count_after_exit self.now pid.now) changes.items) }
        ensures limits { local_total self.now ≤ max_rows }
    {
        let changes = self.rows.left_by(self.alloc, pid)?;
        Ok(changes)
    }

    /// The processes of another node leave all groups.
    #[tactic(auto, using(crate::proofs::Calls::own_left))]
    pub fn drop_peer(&mut self, peer: &NodeName)
        ensures { Counts self.old self.new (count_after_drop self.old peer.now) }
    {
        let Some(gone) = self.rows.remove_node(peer) else {
            return;
        };
        self.listings.forget_rows(gone.rows());
        self.own_rows -= share_of(&self.own, peer, self.own_rows);
    }

    /// What `drop_peer` will change.
    pub fn drop_change(&self, peer: &NodeName) -> Result<Vec<GroupChange>, OutOfMemory>
        ensures { IfOk result (λ changes.
            IsDifference (count_of self.now) (count_after_drop self.now peer.now) changes.items) }
    {
        let changes = self.rows.all_left(self.alloc, peer)?;
        Ok(changes)
    }

    /// All processes leave all groups.
    pub fn clear(&mut self)
        ensures { Counts self.old self.new no_count }
    {
        self.rows.clear();
        self.listings.clear();
        self.own_rows = 0;
    }

    /// Lets go of the listings that are kept, so that others find memory. It takes none.
    pub fn let_go(&mut self)
        ensures { self.new ≡ self.old }
    {
        self.listings.clear();
    }

    /// What `clear` will change.
    pub fn clear_change(&self) -> Result<Vec<GroupChange>, OutOfMemory>
        ensures { IfOk result (λ changes. IsDifference (count_of self.now) no_count changes.items) }
    {
        let changes = all_gone(self.alloc, &self.rows)?;
        Ok(changes)
    }
}

/// How many of so many rows of a peer's processes are own ones: all, where the peer is the own
/// node.
fn share_of(own: &NodeName, peer: &NodeName, rows: usize) -> usize
    ensures { result ≡ cond (same peer.now own.now) rows 0 }
{
    if *peer == *own { rows } else { 0 }
}
