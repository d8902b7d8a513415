//! Memory that is kept for the turn to a new life.
use std::alloc::Global;
use std::sync::{Mutex, Wait};

/// How many bytes. So large a block the system gives and takes back at once; nothing is written
/// there.
const BYTES: usize = 41_943_040;

/// A block of memory that nobody uses until it is let go.
#[derive(Drop)]
pub struct Reserve {
    alloc: Global,
    block: Mutex<Vec<u8>>,
}

impl Reserve {
    pub fn new(alloc: Global) -> Reserve {
        Reserve {
            alloc,
            block: Mutex::new(Vec::new(alloc)),
        }
    }

    /// Takes the block, if it can be had now.
    pub fn take<R: Wait>(&self, rt: &R) {
        self.block.lock(rt).reserve(BYTES).ok();
    }

    /// Lets the block go.
    pub fn release<R: Wait>(&self, rt: &R) {
        *self.block.lock(rt) = Vec::new(self.alloc);
    }
}
