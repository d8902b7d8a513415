//! What was answered of groups, kept until they change.
ghost use Rattle.std.specs.Prelude.{◌≡◌, ℕ, List, None, Some, false, IsTrue, OnOk, OnErr, cond};
ghost use Rattle.std.specs.Option.{option_copied};
ghost use Rattle.dist_types.specs.Listing.{same};
ghost use Rattle.scope_core.specs.Kept.{kept_of, Forgets, AreListings};
ghost use Rattle.dist_types.specs.declared.pid.Pid.{Pid};
ghost use Rattle.scope_core.specs.Indexed.{has_members, is_named};

use crate::hashed_rows::HashedRows;
use dist_types::{Group, GroupChange, OutOfMemory, Pid, Shared, TryClone};
use indexmap::IndexMap;
use std::alloc::Global;
use std::marker::Model;

/// For some groups the list of their processes, and perhaps the list of the groups.
#[derive(Debug, Drop)]
pub struct Listings {
    kept: IndexMap<Group, Shared<Pid>>,
    groups: Option<Shared<Group>>,
}

impl Model for Listings {
    ghost use Rattle.scope_core.specs.Kept.{KeptLists};

    ghost Value = { KeptLists };

    ghost view = { λ listings. record { pids = listings.kept.entries; groups = listings.groups } };
}

impl Listings {
    /// No lists.
    pub fn new(alloc: Global) -> Listings
        ensures pids { (g : List ℕ) → kept_of result g ≡ None }
        ensures groups { result.groups ≡ None }
    {
        Listings {
            kept: IndexMap::new(alloc),
            groups: None,
        }
    }

    /// The list of a group, where it is kept.
    pub fn get(&self, group: &Group) -> Option<&Shared<Pid>>
        ensures { option_copied result ≡ kept_of self.now group.now }
    {
        self.kept.get(group)
    }

    /// The list of the groups, where it is kept.
    pub fn groups(&self) -> Option<&Shared<Group>>
        ensures { option_copied result ≡ self.now.groups }
    {
        self.groups.as_ref()
    }

    /// Keeps the list of a group.
    pub fn keep(
        &mut self,
        alloc: Global,
        group: &Group,
        pids: &Shared<Pid>,
    ) -> Result<(), OutOfMemory>
        ensures pids { OnOk result ((g : List ℕ) → kept_of self.new g
            ≡ cond (same group.now g) (Some pids.now) (kept_of self.old g)) }
        ensures groups { OnOk result (self.new.groups ≡ self.old.groups) }
        ensures same { OnErr result (self.new ≡ self.old) }
    {
        let group = group.try_clone(alloc)?;
        let pids = pids.try_clone(alloc)?;
        self.kept.insert(group, pids)?;
        Ok(())
    }

    /// Keeps the list of the groups.
    pub fn keep_groups(&mut self, groups: Shared<Group>)
        ensures pids { self.new.pids ≡ self.old.pids }
        ensures groups { self.new.groups ≡ Some groups }
    {
        self.groups = Some(groups);
    }

    /// Keeps no list of the group, nor of the groups.
    pub fn forget(&mut self, group: &Group)
        ensures { Forgets (λ g. same group.now g) self.old self.new }
    {
        self.kept.swap_remove(group);
        self.groups = None;
    }

    /// Whether no list is kept.
    fn is_empty(&self) -> bool
        ensures pids { IsTrue result → (g : List ℕ) → kept_of self.now g ≡ None }
        ensures groups { IsTrue result → self.now.groups ≡ None }
    {
        self.kept.is_empty() && self.groups.is_none()
    }

    /// Keeps no list of a group that changed, nor of the groups if one did.
    #[tactic(auto, using(crate::proofs::Kept::forgets_more))]
    pub fn forget_changed(&mut self, changes: &[GroupChange])
        ensures { Forgets (λ g. is_named g changes.now) self.old self.new }
    {
        if self.is_empty() {
            return;
        }
        for change in changes {
            self.forget(&change.group);
        }
    }

    /// Keeps no list of a group of these rows. What it keeps is right still where the other groups
    /// stay.
    pub fn forget_rows(&mut self, rows: &HashedRows)
        ensures { (before after : List ℕ → Pid → ℕ) → AreListings before self.old
            → ((g : List ℕ) → has_members g rows.now.node rows.now.rows ≡ false → (p : Pid)
            → before g p ≡ after g p) → AreListings after self.new }
    {
        for (group, _) in rows.groups().iter() {
            self.forget(group);
        }
    }

    /// Keeps no list.
    pub fn clear(&mut self)
        ensures pids { (g : List ℕ) → kept_of self.new g ≡ None }
        ensures groups { self.new.groups ≡ None }
    {
        self.kept.clear();
        self.groups = None;
    }
}
