//! What the threads of a program say to each other without a lock: that it is to end, or this life
//! of its node. And what they count.
use node_threads::Shared;
use std::sync::atomic::{AtomicBool, AtomicU32, AtomicU64, Ordering};

/// What is to end, and what was counted. Who waits for it has to be woken by whoever says it.
#[derive(Drop)]
pub struct Signals {
    is_quitting: AtomicBool,
    /// Nobody is let in any more.
    is_draining: AtomicBool,
    /// Memory was wanting beside the node.
    is_wanting: AtomicBool,
    /// All links of this life are being ended, so that the next one can begin.
    is_turning: AtomicBool,
    /// How many lives the node has had.
    lives: AtomicU32,
    /// How many lines in a row of standard input couldn't be read for want of memory.
    lost_lines: AtomicU32,
    /// How many lines were told unasked.
    told: AtomicU64,
}

impl Signals {
    /// Of a program whose node has its first life.
    pub(crate) fn new() -> Signals {
        Signals {
            is_quitting: AtomicBool::new(false),
            is_draining: AtomicBool::new(false),
            is_wanting: AtomicBool::new(false),
            is_turning: AtomicBool::new(false),
            lives: AtomicU32::new(1),
            lost_lines: AtomicU32::new(0),
            told: AtomicU64::new(0),
        }
    }

    /// Whether the program is to end.
    pub fn is_quitting(&self) -> bool {
        self.is_quitting.load(Ordering::SeqCst)
    }

    pub(crate) fn quit(&self) {
        self.is_quitting.store(true, Ordering::SeqCst);
    }

    /// Whether nobody is let in any more, since the node is to end.
    pub fn is_draining(&self) -> bool {
        self.is_draining.load(Ordering::SeqCst)
    }

    pub(crate) fn drain(&self) {
        self.is_draining.store(true, Ordering::SeqCst);
    }

    /// Whether nobody is let in any more, or the program is to end.
    pub(crate) fn is_to_end(&self) -> bool {
        self.is_draining() || self.is_quitting()
    }

    /// Whether memory was wanting in this life.
    pub fn wants_memory(&self, shared: &Shared) -> bool {
        shared.wants_memory() || self.is_wanting.load(Ordering::SeqCst)
    }

    pub(crate) fn want_memory(&self) {
        self.is_wanting.store(true, Ordering::SeqCst);
    }

    /// A line couldn't be read for want of memory: whether the one before couldn't be read either.
    pub(crate) fn lose_line(&self) -> bool {
        self.lost_lines.fetch_add(1, Ordering::SeqCst) > 0
    }

    pub(crate) fn read_line(&self) {
        self.lost_lines.store(0, Ordering::SeqCst);
    }

    /// The links of this life are ended now. Unless the program is to end, the next life begins.
    pub fn end_links(&self) {
        self.is_turning.store(!self.is_quitting(), Ordering::SeqCst);
    }

    /// Whether the links of this life are being ended, so that the next one can begin.
    pub(crate) fn is_turning(&self) -> bool {
        self.is_turning.load(Ordering::SeqCst)
    }

    /// The next life has begun.
    pub(crate) fn begin_anew(&self) {
        self.lives.fetch_add(1, Ordering::SeqCst);
        self.is_turning.store(false, Ordering::SeqCst);
        self.is_wanting.store(false, Ordering::SeqCst);
        self.lost_lines.store(0, Ordering::SeqCst);
    }

    /// How many lives the node has had.
    pub(crate) fn lives(&self) -> u32 {
        self.lives.load(Ordering::SeqCst)
    }

    /// How many lines were told unasked.
    pub(crate) fn told(&self) -> u64 {
        self.told.load(Ordering::SeqCst)
    }

    /// Counts lines that are told unasked.
    pub(crate) fn count_told(&self, lines: &[u8]) {
        let told = lines.iter().filter(|byte| **byte == b'\n').count();
        if told > 0 {
            self.told.fetch_add(told as u64, Ordering::SeqCst);
        }
    }
}
