//! What is asked of the table of one scope. No answer changes it.
ghost use Rattle.std.specs.Prelude.{◌≡◌, ◌≤◌, min, IfSome, IfOk, length, All};
ghost use Rattle.std.specs.Option.{IfNone};
ghost use Rattle.dist_types.specs.declared.pid.Pid.{Pid};
ghost use Rattle.dist_types.specs.Listing.{mentions, IsPidListing, IsRowListing, IsGroupListing};
ghost use Rattle.scope_core.specs.Table.{count_of, local_count, local_total, node_total, max_rows};
ghost use Rattle.scope_core.specs.Calls.{are_counted};

use crate::leaving::gone_of;
use crate::reads::{groups_of, rows_of};
use crate::table::ScopeTable;
use dist_types::{Group, NodeName, OutOfMemory, Pid, Row, Shared, TryClone};

impl ScopeTable {
    /// The processes of a group.
    pub fn members(&self, group: &Group) -> Result<Vec<Pid>, OutOfMemory>
        ensures { IfOk result (λ pids. IsPidListing (count_of self.now group.now) pids.items) }
    {
        let pids = self.rows.members(self.alloc, group)?;
        Ok(pids)
    }

    /// How often a process is in a group.
    pub fn count(&self, group: &Group, pid: &Pid) -> usize
        ensures { result ≡ count_of self.now group.now pid.now }
    {
        self.rows.count(group, pid) as usize
    }

    /// The processes of a group, in a list that is made once for all who ask until the group
    /// changes.
    pub fn listing(&mut self, group: &Group) -> Result<Shared<Pid>, OutOfMemory>
        ensures value { IfOk result (λ pids. IsPidListing (count_of self.old group.now) pids) }
        ensures same { self.new ≡ self.old }
    {
        if let Some(pids) = self.listings.get(group) {
            return pids.try_clone(self.alloc);
        }
        let pids = Shared::of(self.rows.members(self.alloc, group)?)?;
        // A group that doesn't exist isn't kept: whoever asks for many of those takes no memory.
        if !pids.as_slice().is_empty() {
            self.listings.keep(self.alloc, group, &pids)?;
        }
        Ok(pids)
    }

    /// A group's name as the table keeps it, where the group has a process, so that whoever has an
    /// equal one can share it.
    pub fn stored_group(&self, group: &Group) -> Option<&Group>
        ensures equal { IfSome result (λ stored. stored.now ≡ group.now) }
        ensures none { IfNone result ((p : Pid) → count_of self.now group.now p ≡ 0) }
    {
        self.rows.stored(group)
    }

    /// The own processes of a group.
    pub fn local_members(&self, group: &Group) -> Result<Vec<Pid>, OutOfMemory>
        ensures value { IfOk result (λ pids.
            IsPidListing (local_count self.now group.now) pids.items) }
        ensures limits { IfOk result (λ pids. length pids.items ≤ local_total self.now) }
    {
        let mut pids = Vec::new(self.alloc);
        self.rows.push_members(&mut pids, &self.own, group)?;
        Ok(pids)
    }

    /// The own processes that a leave of these takes from a group, each as often as it leaves.
    pub fn leaving(&self, group: &Group, pids: &[Pid]) -> Result<Vec<Pid>, OutOfMemory>
        requires { All (λ p. p.node ≡ self.now.own) pids.now }
        ensures value { IfOk result (λ gone.
            IsPidListing (λ p. min (mentions p pids.now) (local_count self.now group.now p))
            gone.items) }
        ensures limits { IfOk result (λ gone. length gone.items ≤ local_total self.now) }
    {
        let gone = gone_of(self.alloc, &self.rows, group, pids)?;
        Ok(gone)
    }

    /// The groups with a process.
    pub fn groups(&self) -> Result<Vec<Group>, OutOfMemory>
        ensures { IfOk result (λ groups. IsGroupListing (count_of self.now) groups.items) }
    {
        let groups = self.rows.groups(self.alloc)?;
        Ok(groups)
    }

    /// The groups with a process, in a list that is made once for all who ask until rows of the
    /// table change.
    pub fn group_listing(&mut self) -> Result<Shared<Group>, OutOfMemory>
        ensures value { IfOk result (λ groups. IsGroupListing (count_of self.old) groups) }
        ensures same { self.new ≡ self.old }
    {
        if let Some(groups) = self.listings.groups() {
            return groups.try_clone(self.alloc);
        }
        let groups = Shared::of(self.rows.groups(self.alloc)?)?;
        self.listings.keep_groups(groups.try_clone(self.alloc)?);
        Ok(groups)
    }

    /// The groups with an own process.
    pub fn local_groups(&self) -> Result<Vec<Group>, OutOfMemory>
        ensures { IfOk result (λ groups. IsGroupListing (local_count self.now) groups.items) }
    {
        let held = self.rows.in_order(self.alloc, &self.own)?;
        let groups = groups_of(self.alloc, &held)?;
        Ok(groups)
    }

    /// The rows of the own processes.
    pub fn local_rows(&self) -> Result<Vec<Row>, OutOfMemory>
        ensures value { IfOk result (λ rows. IsRowListing (local_count self.now) rows.items) }
        ensures limits { IfOk result (λ rows. length rows.items ≤ local_total self.now) }
    {
        let held = self.rows.in_order(self.alloc, &self.own)?;
        let rows = rows_of(self.alloc, &held)?;
        Ok(rows)
    }

    /// How many rows the own processes have, repeats included.
    pub fn own_total(&self) -> usize
        ensures total { result ≡ local_total self.now }
        ensures few { result ≤ max_rows }
    {
        self.own_rows
    }

    /// How many rows a node's processes have, repeats included.
    pub fn peer_total(&self, peer: &NodeName) -> usize
        ensures total { result ≡ node_total self.now peer.now }
        ensures few { result ≤ max_rows }
    {
        self.rows.total_of(peer)
    }

    /// Whether `leave_remote` would find these rows of the peer's processes. It takes no memory.
    pub fn has_rows(&mut self, peer: &NodeName, rows: &[Row]) -> bool
        requires { All (λ r. r.pid.node ≡ peer.now) rows.now }
        ensures value { result ≡ are_counted self.old rows.now }
        ensures same { self.new ≡ self.old }
    {
        self.rows.are_all_in(peer, rows)
    }
}
