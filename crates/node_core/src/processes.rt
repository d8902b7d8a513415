//! The processes of a node.
ghost use Rattle.std.specs.Prelude.{◌≡◌, ◌+◌, ◌<◌, ◌^◌, [], ℕ, true, false, cond, nat_le, nat_eq, length, OnOk, OnErr};
ghost use Rattle.node_core.specs.Processes.{max_living};
ghost use Rattle.node_core.specs.ScopeFacts.{is_number};

use indexmap::IndexSet;
use std::alloc::{AllocError, Global};
use std::marker::Model;

/// How many processes were spawned, and which live, by number.
#[derive(Drop)]
pub struct Processes {
    spawned: u64,
    live: IndexSet<u64>,
}

impl Model for Processes {
    ghost use Rattle.std.specs.Prelude.{nat_eq};
    ghost use Rattle.indexmap.specs.IndexSet.{IsUnique};
    ghost use Rattle.node_core.specs.Processes.{Spawned};

    ghost Value = { Spawned };

    ghost view = { λ p. record { spawned = p.spawned; live = p.live.keys } };

    ghost invariant = { λ p. IsUnique nat_eq p.live };
}

impl Processes {
    const MAX_LIVING: usize = 65_536;

    pub fn new(alloc: Global) -> Processes
        ensures { result ≡ record { spawned = 0; live = [] } }
    {
        Processes {
            spawned: 0,
            live: IndexSet::new(alloc),
        }
    }

    /// How many were spawned.
    pub fn spawned(&self) -> u64
        ensures { result ≡ self.now.spawned }
    {
        self.spawned
    }

    /// Whether no more may live.
    pub fn is_full(&self) -> bool
        ensures { result ≡ nat_le max_living (length self.now.live) }
    {
        self.live.len() >= Self::MAX_LIVING
    }

    pub fn is_live(&self, number: u64) -> bool
        ensures { result ≡ is_number number self.now.live }
    {
        self.live.contains(&number)
    }

    /// One more lives, with the next number.
    pub fn spawn(&mut self) -> Result<(), AllocError>
        requires { self.old.spawned + 1 < 2 ^ 64 }
        ensures spawned { OnOk result (self.new.spawned ≡ self.old.spawned + 1) }
        ensures live { OnOk result ((n : ℕ) → is_number n self.new.live
            ≡ cond (nat_eq (self.old.spawned + 1) n) true (is_number n self.old.live)) }
        ensures count { is_number (self.old.spawned + 1) self.old.live ≡ false
            → OnOk result (length self.new.live ≡ length self.old.live + 1) }
        ensures same { OnErr result (self.new ≡ self.old) }
    {
        self.live.insert(self.spawned + 1)?;
        self.spawned += 1;
        Ok(())
    }

    /// The process ends.
    pub fn exit(&mut self, number: u64)
        ensures spawned { self.new.spawned ≡ self.old.spawned }
        ensures live { (n : ℕ) → is_number n self.new.live
            ≡ cond (nat_eq number n) false (is_number n self.old.live) }
        ensures count { is_number number self.old.live ≡ true → length self.new.live + 1
            ≡ length self.old.live }
    {
        self.live.swap_remove(&number);
    }
}
