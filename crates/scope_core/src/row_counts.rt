//! How often each row of a node is counted, in a hashed map.
ghost use Rattle.std.specs.Prelude.{◌≡◌, ◌++◌, ◌+◌, ◌-◌, ◌<◌, ◌∷◌, [], cond, not, take, length, true, false, IsTrue, IsSome, IfSome, IfOk, OnOk, OnErr, None, Some};
ghost use Rattle.std.specs.Option.{IfNone, option_map, unwrap_or};
ghost use Rattle.std.specs.List.{AllByRecursion, IsDistinct};
ghost use Rattle.std.specs.Map.{lookup, set_value, keys_of};
ghost use Rattle.dist_types.specs.Listing.{same_row, Rises};
ghost use Rattle.scope_core.specs.Table.{counted_cmp, max_rows};
ghost use Rattle.scope_core.specs.Added.{row_in};
ghost use Rattle.scope_core.specs.HashedRows.{NodeCounts, Writes, entries_in, has_row, row_at};
ghost use Rattle.scope_core.specs.LoweredRows.{once_more};

use crate::counted::{Counted, Membership};
use crate::node_row::{NodeRow, NodeRowKey};
use crate::process_key::ProcessKey;
use dist_types::{Group, NodeName, OutOfMemory, Pid, Row, TryClone};
use indexmap::IndexMap;
use indexmap::map::Entry;
use std::alloc::Global;
use std::marker::Model;

/// The rows of one node, each with a count. The node's name is kept once.
#[derive(Debug, Drop)]
pub struct RowCounts {
    alloc: Global,
    node: NodeName,
    counts: IndexMap<NodeRow, u32>,
}

impl Model for RowCounts {
    ghost use Rattle.scope_core.specs.HashedRows.{NodeCounts, rows_at};

    ghost Value = { NodeCounts };

    ghost view = { λ rows. record {
      node = rows.node;
      entries = rows_at rows.node rows.counts.entries;
    } };
}

impl RowCounts {
    /// Just these rows of the node, which are in order.
    pub fn of(alloc: Global, node: NodeName, rows: Vec<Counted>) -> Result<RowCounts, OutOfMemory>
        requires own { AllByRecursion (λ c. c.row.pid.node ≡ node) rows.items }
        requires rises { Rises counted_cmp rows.items }
        ensures { IfOk result (λ made. made ≡ record {
          node = node;
          entries = entries_in rows.items;
        }) }
    {
        let mut counts = IndexMap::with_capacity(alloc, rows.len())?;
        for Counted { row, count } in rows {
            let process = ProcessKey::of(&row.pid);
            let group = row.into_group();
            counts.insert(NodeRow { group, process }, count)?;
        }
        Ok(RowCounts {
            alloc,
            node,
            counts,
        })
    }

    /// The node.
    pub fn node(&self) -> &NodeName
        ensures { result.now ≡ self.now.node }
    {
        &self.node
    }

    /// How many rows there are.
    pub fn len(&self) -> usize
        ensures { result ≡ length self.now.entries }
    {
        self.counts.len()
    }

    /// How often a process of the node is in the group.
    pub fn get(&self, group: &Group, pid: &Pid) -> u32
        requires { pid.now.node ≡ self.now.node }
        ensures { result ≡ unwrap_or (lookup (same_row (row_in group.now pid.now))
            self.now.entries) 0 }
    {
        let at = NodeRowKey::of(group, pid);
        self.counts.get(at).copied().unwrap_or(0)
    }

    /// Puts a row of the node last, where it isn't there yet. Answers whether it wasn't.
    pub fn push_new(&mut self, row: &Row, count: u32) -> Result<bool, OutOfMemory>
        requires { row.now.pid.node ≡ self.old.node }
        ensures fresh { IfOk result (λ fresh. fresh ≡ not (has_row self.old.entries row.now)) }
        ensures ok { IfOk result (λ fresh. self.new ≡ record {
          node = self.old.node;
          entries = self.old.entries ++ cond fresh ((row.now, count) ∷ []) [];
        }) }
        ensures same { OnErr result (self.new ≡ self.old) }
        ensures written { IfOk result (λ fresh. IsTrue fresh
            → Writes row.now (Some count) self.old.entries self.new.entries) }
        ensures once { OnOk result (IsDistinct same_row (keys_of self.new.entries)) }
    {
        let group = row.group.try_clone(self.alloc)?;
        let process = ProcessKey::of(&row.pid);
        // By its entry, so that the row is hashed once.
        let Entry::Vacant(place) = self.counts.entry(NodeRow { group, process })? else {
            return Ok(false);
        };
        place.insert(count);
        Ok(true)
    }

    /// Takes the last row out.
    pub fn pop(&mut self) -> Option<NodeRow>
        ensures shorter { self.new ≡ record {
          node = self.old.node;
          entries = take (length self.old.entries - 1) self.old.entries;
        } }
        ensures last { IfSome result (λ row.
            has_row self.old.entries (row_at self.old.node row.group row.process) ≡ true) }
        ensures written { IfSome result (λ row.
            Writes (row_at self.old.node row.group row.process) None self.old.entries
            self.new.entries) }
        ensures once { IsDistinct same_row (keys_of self.new.entries) }
        ensures none { IfNone result (self.new ≡ self.old) }
    {
        let (row, _) = self.counts.pop()?;
        Some(row)
    }

    /// Takes a row of the node out. The last one takes its place.
    pub fn take(&mut self, group: &Group, pid: &Pid) -> Option<Membership>
        requires { pid.now.node ≡ self.old.node }
        ensures group { IfSome result (λ m. m.group ≡ group.now) }
        ensures count { option_map (λ m. m.count) result
            ≡ lookup (same_row (row_in group.now pid.now)) self.old.entries }
        ensures written { Writes (row_in group.now pid.now) None self.old.entries self.new.entries }
        ensures fewer { IfSome result (λ _. length self.new.entries + 1 ≡ length self.old.entries) }
        ensures none { IfNone result (self.new ≡ self.old) }
        ensures once { IsDistinct same_row (keys_of self.new.entries) }
        ensures node { self.new.node ≡ self.old.node }
    {
        let at = NodeRowKey::of(group, pid);
        let (row, count) = self.counts.swap_remove_entry(at)?;
        Some(Membership {
            group: row.group,
            count,
        })
    }

    /// Gives a row of the node that is there a count.
    pub fn set(&mut self, row: &Row, count: u32)
        requires own { row.now.pid.node ≡ self.old.node }
        requires there { has_row self.old.entries row.now ≡ true }
        ensures entries { self.new.entries ≡ set_value (same_row row.now) self.old.entries count }
        ensures written { Writes row.now (Some count) self.old.entries self.new.entries }
        ensures once { IsDistinct same_row (keys_of self.new.entries) }
        ensures node { self.new.node ≡ self.old.node }
    {
        let at = NodeRowKey::of(&row.group, &row.pid);
        let Some(place) = self.counts.get_mut(at) else {
            return;
        };
        *place = count;
    }

    /// Counts a row of the node once less. Answers whether it was counted.
    pub fn lower(&mut self, row: &Row) -> bool
        requires { row.now.pid.node ≡ self.old.node }
        ensures lowered { IsTrue result → self.old.entries ≡ once_more row.now self.new.entries }
        ensures there { IsTrue result → IsSome (lookup (same_row row.now) self.new.entries) }
        ensures none { result ≡ false → (self.new ≡ self.old)
            × (unwrap_or (lookup (same_row row.now) self.old.entries) 0 ≡ 0) }
        ensures node { self.new.node ≡ self.old.node }
    {
        let at = NodeRowKey::of(&row.group, &row.pid);
        let Some(count) = self.counts.get_mut(at) else {
            return false;
        };
        if *count == 0 {
            return false;
        }
        *count -= 1;
        true
    }

    /// Counts a row of the node once more, where it is there.
    pub fn raise(&mut self, row: &Row)
        requires own { row.now.pid.node ≡ self.old.node }
        requires few { IfSome (lookup (same_row row.now) self.old.entries) (λ n. n < max_rows) }
        ensures { self.new ≡ record {
          node = self.old.node;
          entries = once_more row.now self.old.entries;
        } }
    {
        let at = NodeRowKey::of(&row.group, &row.pid);
        let Some(count) = self.counts.get_mut(at) else {
            return;
        };
        *count += 1;
    }
}
