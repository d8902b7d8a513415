//! A node for many threads.
ghost use Rattle.std.specs.Prelude.{◌≡◌, ◌<◌, IfOk, IfErr, OnOk};
ghost use Rattle.handshake_frames.specs.Spelling.{IsVersion};
ghost use Rattle.node_threads.specs.Opened.{new_room, IsOpened, IsNewFault, HasBounds};

use crate::fault::NewFault;
use crate::pass::Pass;
use crate::shared::Shared;
use dist_types::OutOfMemory;
use node_core::{NodeCore, OpenFault};
use policy_audit::Opening;
use std::alloc::Global;
use std::sync::{Condvar, Mutex, MutexGuard, Wait};

/// A node for many threads.
#[derive(Drop)]
pub struct Node {
    /// Whoever takes this lock may read the node, and `apply` events to it.
    pub shared: Mutex<Shared>,
    /// Told of each `call`.
    pub moved: Condvar,
    /// Told of each `call` with news (`Shared::last_news`).
    pub news: Condvar,
    /// Told of each `call` that brings something for the link of a writer that rests.
    pub(crate) writers: Condvar,
}

impl Shared {
    /// What a new node has behind its lock, where it has seen nothing, with a pass for each seat,
    /// in the order of the seats. `BadSeats` where there are none or more than 256, then `BadLimit`
    /// where the opening allows no entry, and then `BadLinks` where its version of link messages is
    /// neither 1 nor 2.
    pub fn open(
        alloc: Global,
        opening: Opening,
        seats: u32,
    ) -> Result<(Shared, Vec<Pass>), NewFault>
        ensures ok { IfOk result (λ made. (made.0 ≡ new_room opening seats)
            × IsOpened seats made.1.items) }
        ensures bounds { OnOk result (HasBounds seats × (0 < opening.entries)) }
        ensures links { OnOk result (IsVersion opening.links) }
        ensures refused { IfErr result (λ fault. IsNewFault fault opening seats) }
    {
        if seats == 0 || seats > Node::MAX_SEATS {
            return Err(NewFault::BadSeats);
        }
        let core = match NodeCore::new(alloc, opening) {
            Ok(core) => core,
            Err(OpenFault::BadLimit) => return Err(NewFault::BadLimit),
            Err(OpenFault::BadLinks) => return Err(NewFault::BadLinks),
            Err(OpenFault::OutOfMemory) => return Err(NewFault::OutOfMemory),
        };
        let Ok(passes) = new_passes(alloc, seats) else {
            return Err(NewFault::OutOfMemory);
        };
        let Ok(shared) = Shared::new(alloc, core, seats) else {
            return Err(NewFault::OutOfMemory);
        };
        Ok((shared, passes))
    }
}

impl Node {
    pub const MAX_SEATS: u32 = 256;

    /// `Shared::open` behind a lock.
    pub fn new(alloc: Global, opening: Opening, seats: u32) -> Result<(Node, Vec<Pass>), NewFault>
        ensures ok { IfOk result (λ made. IsOpened seats made.1.items) }
        ensures bounds { OnOk result (HasBounds seats × (0 < opening.entries)) }
        ensures links { OnOk result (IsVersion opening.links) }
        ensures refused { IfErr result (λ fault. IsNewFault fault opening seats) }
    {
        let (shared, passes) = Shared::open(alloc, opening, seats)?;
        let node = Node {
            shared: Mutex::new(shared),
            moved: Condvar::new(),
            news: Condvar::new(),
            writers: Condvar::new(),
        };
        Ok((node, passes))
    }

    /// Gives the lock back, and wakes whom it concerns what was called under it: first those for
    /// whom a peer or a client waits.
    pub(crate) fn give_back(&self, shared: MutexGuard<'_, Shared>) {
        let calls_writers = shared.calls_writers();
        let has_news = shared.is_last_news();
        drop(shared);
        if calls_writers {
            self.writers.notify_all();
        }
        if has_news {
            self.news.notify_all();
        }
        self.moved.notify_all();
    }

    /// Wakes all who wait for the node, so that each looks at it, and at what has changed beside
    /// it.
    pub fn wake<R: Wait>(&self, rt: &R) {
        drop(self.shared.lock(rt));
        self.moved.notify_all();
        self.writers.notify_all();
        self.news.notify_all();
    }

    /// All writers are to hang up: a link couldn't be given up for want of memory.
    pub(crate) fn mark_stuck<R: Wait>(&self, rt: &R) {
        self.shared.lock(rt).set_stuck();
        self.wake(rt);
    }
}

/// A pass for each seat.
fn new_passes(alloc: Global, seats: u32) -> Result<Vec<Pass>, OutOfMemory>
    ensures { IfOk result (λ passes. IsOpened seats passes.items) }
{
    let mut passes = Vec::new(alloc);
    for seat in 0..seats {
        passes.push(Pass::new(alloc, seat))?;
    }
    Ok(passes)
}
