//! Those that wait for an answer, so that no connection goes first for long.
use std::sync::atomic::{AtomicU64, Ordering};
use std::sync::{Condvar, Mutex, Wait};

/// How many lines wait for their answers, for connections that let others go first.
#[derive(Drop)]
pub(crate) struct Crowd {
    /// How many lines have come, and how many of them have their answers.
    came: AtomicU64,
    answered: AtomicU64,
    /// How many connections let others go first.
    resting: AtomicU64,
    lock: Mutex<()>,
    moved: Condvar,
}

impl Crowd {
    pub(crate) fn new() -> Crowd {
        Crowd {
            came: AtomicU64::new(0),
            answered: AtomicU64::new(0),
            resting: AtomicU64::new(0),
            lock: Mutex::new(()),
            moved: Condvar::new(),
        }
    }

    /// A line waits for its answer.
    pub(crate) fn enter(&self) {
        self.came.fetch_add(1, Ordering::SeqCst);
    }

    /// A line has its answer.
    pub(crate) fn leave<R: Wait>(&self, rt: &R) {
        self.answered.fetch_add(1, Ordering::SeqCst);
        if self.resting.load(Ordering::SeqCst) != 0 {
            drop(self.lock.lock(rt));
            self.moved.notify_all();
        }
    }

    /// Waits until as many lines are answered as wait for an answer now.
    pub(crate) fn let_go_first<R: Wait>(&self, rt: &R) {
        let came = self.came.load(Ordering::SeqCst);
        if self.answered.load(Ordering::SeqCst) >= came {
            return;
        }
        self.resting.fetch_add(1, Ordering::SeqCst);
        let rested = self.moved.wait_while(rt, self.lock.lock(rt), |_| {
            self.answered.load(Ordering::SeqCst) < came
        });
        drop(rested);
        self.resting.fetch_sub(1, Ordering::SeqCst);
    }
}
