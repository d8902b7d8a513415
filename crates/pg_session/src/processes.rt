//! The processes of a connection.
ghost use Rattle.std.specs.Prelude.{◌≡◌, [], true, false, cond, IfSome, IfNone, OnOk, OnErr};
ghost use Rattle.dist_types.specs.Difference.{is_empty};
ghost use Rattle.std.specs.List.{list_all, list_any};
ghost use Rattle.dist_types.specs.declared.pid.Pid.{Pid};
ghost use Rattle.dist_types.specs.Listing.{same_pid};
ghost use Rattle.pg_session.specs.Processes.{has};

use dist_types::{OutOfMemory, Pid};
use indexmap::IndexSet;
use std::alloc::Global;
use std::marker::Model;

/// The processes that a connection has spawned, and that live.
#[derive(Drop)]
pub struct Processes {
    live: IndexSet<Pid>,
}

impl Model for Processes {
    ghost use Rattle.std.specs.Prelude.{List};
    ghost use Rattle.indexmap.specs.IndexSet.{IsUnique};
    ghost use Rattle.dist_types.specs.declared.pid.Pid.{Pid};
    ghost use Rattle.dist_types.specs.Listing.{same_pid};

    ghost Value = { List Pid };

    ghost view = { λ processes. processes.live.keys };

    ghost invariant = { λ processes. IsUnique same_pid processes.live };
}

impl Processes {
    pub fn new(alloc: Global) -> Processes
        ensures { result ≡ [] }
    {
        Processes {
            live: IndexSet::new(alloc),
        }
    }

    pub fn is_empty(&self) -> bool
        ensures { result ≡ is_empty self.now }
    {
        self.live.is_empty()
    }

    /// Whether all of these are among them.
    pub fn has_all(&self, pids: &[Pid]) -> bool
        ensures { result ≡ list_all (has self.now) pids.now }
    {
        pids.iter().all(|pid| self.has(pid))
    }

    /// Whether one of these is among them.
    pub fn has_any(&self, pids: &[Pid]) -> bool
        ensures { result ≡ list_any (has self.now) pids.now }
    {
        pids.iter().any(|pid| self.has(pid))
    }

    fn has(&self, pid: &Pid) -> bool
        ensures { result ≡ has self.now pid.now }
    {
        self.live.contains(pid)
    }

    /// Makes room for one more.
    pub fn reserve(&mut self) -> Result<(), OutOfMemory>
        ensures { self.new ≡ self.old }
    {
        self.live.reserve(1)?;
        Ok(())
    }

    pub fn add(&mut self, pid: Pid) -> Result<(), OutOfMemory>
        ensures ok { OnOk result ((q : Pid) → has self.new q
            ≡ cond (same_pid pid q) true (has self.old q)) }
        ensures same { OnErr result (self.new ≡ self.old) }
    {
        self.live.insert(pid)?;
        Ok(())
    }

    pub fn remove(&mut self, pid: &Pid)
        ensures { (q : Pid) → has self.new q ≡ cond (same_pid pid.now q) false (has self.old q) }
    {
        self.live.swap_remove(pid);
    }

    /// Takes one out, if there is one.
    pub fn take(&mut self) -> Option<Pid>
        ensures taken { IfSome result (λ pid. has self.old pid ≡ true) }
        ensures none { IfNone result ((self.old ≡ []) × (self.new ≡ self.old)) }
        ensures left { (q : Pid) → has self.new q ≡ true → has self.old q ≡ true }
    {
        self.live.pop()
    }

    pub fn clear(&mut self)
        ensures { self.new ≡ [] }
    {
        self.live.clear();
    }
}
