//! The end of a node that leaves nothing undone: nobody is let in any more, what connections have
//! ends, and peers are told.
use crate::hub::Hub;
use std::sync::Wait;
use std::thread;
use std::time::{Clock, Duration};

/// The milliseconds between two looks whether all has been done.
const LOOK: u64 = 10;

/// How often it is looked at most.
const LOOKS: u32 = 1_000;

/// The milliseconds for what a writer has taken and not written yet.
const LAST_WRITE: u64 = 50;

impl Hub {
    /// Waits until no connection has a process.
    pub(crate) fn wait_until_left<R: Wait + Clock>(&self, rt: &R) {
        for _ in 0..LOOKS {
            if self.signals.is_quitting() || self.is_left(rt) {
                return;
            }
            thread::sleep(rt, Duration::from_millis(LOOK));
        }
    }

    /// Whether no connection has a process. One whose lock somebody has may have one.
    fn is_left<R: Wait>(&self, rt: &R) -> bool {
        let house = self.house.read(rt);
        house
            .sessions
            .iter()
            .all(|session| match session.try_lock() {
                Some(session) => !session.has_processes(),
                None => false,
            })
    }

    /// Waits until no frame waits for a link whose writer gets on.
    pub(crate) fn wait_until_told<R: Wait + Clock>(&self, rt: &R) {
        for _ in 0..LOOKS {
            if self.signals.is_quitting() || !self.has_frames(rt) {
                break;
            }
            thread::sleep(rt, Duration::from_millis(LOOK));
        }
        thread::sleep(rt, Duration::from_millis(LAST_WRITE));
    }

    fn has_frames<R: Wait>(&self, rt: &R) -> bool {
        let shared = self.node.shared.lock(rt);
        self.notes.writers.most_behind(rt, shared.core()) > 0
    }
}
