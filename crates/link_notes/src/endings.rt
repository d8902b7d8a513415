//! Why links have ended, as far as their sockets told it.
use crate::last_noted::LastNoted;
use dist_types::OutOfMemory;
use std::alloc::Global;
use std::sync::{Mutex, Wait};

/// Why a link has ended.
#[derive(Clone, Copy, Debug, PartialEq, Eq)]
pub enum Ending {
    /// Its connection was closed: by the peer, by this node, or on the way.
    Closed,
    /// Nothing has come for the time of a tick.
    Silent,
    /// A write has stood still for that long.
    Slow,
    /// A stock node has said what is no message, or more than is taken.
    Unreadable,
}

/// Why the last links of a life have ended. Its lock is the innermost one.
#[derive(Drop)]
pub struct Endings {
    last: Mutex<LastNoted<Ending>>,
}

impl Endings {
    pub(crate) fn new(alloc: Global) -> Result<Endings, OutOfMemory> {
        let last = Mutex::new(LastNoted::new(alloc)?);
        Ok(Endings { last })
    }

    /// Says why a link ends, before the node is told that it is lost. What was said first stays.
    pub fn note<R: Wait>(&self, rt: &R, link: u32, ending: Ending) {
        let mut last = self.last.lock(rt);
        if last.of(link).is_none() {
            last.note(link, ending);
        }
    }

    /// Why a link has ended: it was closed, where nothing else was said.
    pub fn of<R: Wait>(&self, rt: &R, link: u32) -> Ending {
        self.last.lock(rt).of(link).unwrap_or(Ending::Closed)
    }

    /// Forgets all, since a new life counts its links anew.
    pub(crate) fn clear<R: Wait>(&self, rt: &R) {
        self.last.lock(rt).clear();
    }
}
