//! What concerns every connection: that a peer came or went, or a scope stopped. One without
//! monitors is woken for that alone, and not at each change of rows.
use pg_session::{Roster, Seen};
use std::sync::Condvar;
use std::sync::atomic::{AtomicUsize, Ordering};

/// How far that is known.
#[derive(Drop)]
pub(crate) struct Notices {
    /// Told of each, with the node's lock.
    pub(crate) told: Condvar,
    /// How many entries of this life there were when the last one was found.
    last: AtomicUsize,
}

impl Notices {
    pub(crate) fn new() -> Notices {
        Notices {
            told: Condvar::new(),
            last: AtomicUsize::new(0),
        }
    }

    /// Tells of what the roster has found. The caller has the node's lock.
    pub(crate) fn note(&self, roster: &Roster) {
        let found = roster.last_notice();
        if found > self.last.swap(found, Ordering::SeqCst) {
            self.told.notify_all();
        }
    }

    /// Whether something was found that who has seen so much in this life hasn't seen.
    pub(crate) fn are_behind(&self, seen: Seen) -> bool {
        self.last.load(Ordering::SeqCst) > seen.entries()
    }
}
