//! The peers to dial, which change while the node runs.
use crate::target::Target;
use dist_types::{NodeName, OutOfMemory};
use std::alloc::{AllocError, Global};
use std::sync::atomic::{AtomicU64, Ordering};
use std::sync::{Arc, Condvar, Mutex, Wait};

/// The most peers to dial.
const MOST: usize = 256;

/// A peer to dial, and its number among all that there were.
#[derive(Drop)]
struct Numbered {
    number: u64,
    target: Arc<Target>,
}

/// What lies behind the lock.
#[derive(Drop)]
struct State {
    /// Ascending by their numbers.
    targets: Vec<Numbered>,
    next: u64,
    /// The number of the first one that nobody connects for yet.
    unserved: u64,
}

/// Why a peer isn't dialled.
#[derive(Clone, Copy, Debug, PartialEq, Eq)]
pub enum NotAdded {
    /// There are as many as may be.
    Full,
    OutOfMemory,
}

/// The peers to dial.
pub struct Targets {
    state: Mutex<State>,
    /// Told of each that is added.
    added: Condvar,
    /// How often they have changed.
    changes: AtomicU64,
}

impl Drop for Targets {
    fn drop(self) {
        let Targets {
            state: _,
            added: _,
            changes: _,
        } = self;
    }
}

impl Targets {
    /// These at the beginning.
    pub fn of(alloc: Global, targets: Vec<Target>) -> Result<Targets, OutOfMemory> {
        let mut numbered = Vec::with_capacity(alloc, targets.len())?;
        let mut next = 0u64;
        for target in targets {
            let target = Arc::new(alloc, target)?;
            numbered.push(Numbered {
                number: next,
                target,
            })?;
            next = next.saturating_add(1);
        }
        Ok(Targets {
            state: Mutex::new(State {
                targets: numbered,
                next,
                unserved: 0,
            }),
            added: Condvar::new(),
            changes: AtomicU64::new(0),
        })
    }

    /// How often they have changed.
    pub fn changes(&self) -> u64 {
        self.changes.load(Ordering::SeqCst)
    }

    /// Adds a peer to dial, which takes the place of one of its name.
    pub fn add<R: Wait>(&self, rt: &R, alloc: Global, target: Target) -> Result<(), NotAdded> {
        let Ok(target) = Arc::new(alloc, target) else {
            return Err(NotAdded::OutOfMemory);
        };
        let mut state = self.state.lock(rt);
        let taken = place_of(&state, target.peer());
        if taken.is_none() && state.targets.len() >= MOST {
            return Err(NotAdded::Full);
        }
        let number = state.next;
        if state.targets.push(Numbered { number, target }).is_err() {
            return Err(NotAdded::OutOfMemory);
        }
        state.next = number.saturating_add(1);
        if let Some(place) = taken {
            end(rt, &mut state, place);
        }
        self.changes.fetch_add(1, Ordering::SeqCst);
        drop(state);
        self.added.notify_all();
        Ok(())
    }

    /// A peer is dialled no more: whether it was.
    pub fn remove<R: Wait>(&self, rt: &R, peer: &NodeName) -> bool {
        let mut state = self.state.lock(rt);
        let Some(place) = place_of(&state, peer) else {
            return false;
        };
        end(rt, &mut state, place);
        self.changes.fetch_add(1, Ordering::SeqCst);
        true
    }

    /// All, in the order in which they were added.
    pub fn all<R: Wait>(&self, rt: &R, alloc: Global) -> Result<Vec<Arc<Target>>, OutOfMemory> {
        let state = self.state.lock(rt);
        let mut targets = Vec::new(alloc);
        for numbered in state.targets.iter() {
            targets.push(Arc::try_clone(&numbered.target)?)?;
        }
        Ok(targets)
    }

    /// The first of those that were added from this number on, if there is one, and the number
    /// behind its own.
    pub fn next_from<R: Wait>(
        &self,
        rt: &R,
        first: u64,
    ) -> Result<Option<(Arc<Target>, u64)>, AllocError> {
        let state = self.state.lock(rt);
        for numbered in state.targets.iter() {
            if numbered.number >= first {
                let target = Arc::try_clone(&numbered.target)?;
                return Ok(Some((target, numbered.number.saturating_add(1))));
            }
        }
        Ok(None)
    }

    /// Nobody connects for the last one that was given out so.
    pub fn leave_unserved<R: Wait>(&self, rt: &R) {
        let mut state = self.state.lock(rt);
        state.unserved = state.unserved.saturating_sub(1);
    }

    /// Waits for a target that nobody connects for. Whoever has it does so from now on.
    pub fn next_unserved<R: Wait>(&self, rt: &R) -> Option<Arc<Target>> {
        let mut state = self.added.wait_while(rt, self.state.lock(rt), |state| {
            first_unserved(state).is_none()
        });
        let place = first_unserved(&state)?;
        let numbered = state.targets.get(place)?;
        let target = Arc::try_clone(&numbered.target).ok()?;
        let number = numbered.number;
        state.unserved = number.saturating_add(1);
        Some(target)
    }
}

fn first_unserved(state: &State) -> Option<usize> {
    state
        .targets
        .iter()
        .position(|numbered| numbered.number >= state.unserved)
}

fn place_of(state: &State, peer: &NodeName) -> Option<usize> {
    state
        .targets
        .iter()
        .position(|numbered| numbered.target.peer() == peer)
}

/// Ends the target at this place.
fn end<R: Wait>(rt: &R, state: &mut State, place: usize) {
    if place < state.targets.len() {
        let ended = state.targets.remove(place);
        ended.target.end(rt);
    }
}
