//! The last lines of the log, for who looks on.
use std::alloc::{AllocError, Global};
use std::collections::VecDeque;

/// How many are kept.
const KEPT: usize = 50;

/// How many bytes of each.
const LONGEST: usize = 400;

/// The last lines, the oldest first. To keep one takes no memory.
#[derive(Drop)]
pub(crate) struct Recent {
    /// Always as many as are kept; those that aren't written yet are empty.
    lines: VecDeque<Vec<u8>>,
}

impl Recent {
    pub(crate) fn new(alloc: Global) -> Result<Recent, AllocError> {
        let mut lines = VecDeque::with_capacity(alloc, KEPT)?;
        for _ in 0..KEPT {
            lines.push_back(Vec::with_capacity(alloc, LONGEST)?)?;
        }
        Ok(Recent { lines })
    }

    /// Keeps a line, or its beginning, in the place of the oldest one.
    pub(crate) fn keep(&mut self, line: &[u8]) {
        let Some(mut kept) = self.lines.pop_front() else {
            return;
        };
        kept.clear();
        // There is room for both.
        kept.extend_from_slice(&line[..line.len().min(LONGEST)])
            .ok();
        self.lines.push_back(kept).ok();
    }

    /// Copies of those that were written.
    pub(crate) fn copies(&self, alloc: Global) -> Result<Vec<Vec<u8>>, AllocError> {
        let mut copies = Vec::with_capacity(alloc, KEPT)?;
        for line in self.lines.iter() {
            if !line.is_empty() {
                copies.push(Vec::from_slice(alloc, line.as_slice())?)?;
            }
        }
        Ok(copies)
    }
}
