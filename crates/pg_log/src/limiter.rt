//! At most one line a second of each source.
use crate::decision::Source;
use std::alloc::{AllocError, Global};
use std::collections::VecDeque;
use std::time::{Duration, Instant};

/// Of how many sources it is known when they were logged last.
const KEPT: usize = 256;

/// The seconds between two lines of a source.
const BETWEEN: u64 = 1;

#[derive(Clone, Copy, Debug, Drop)]
struct Logged {
    source: Source,
    at: Instant,
    /// How many lines were left out since.
    left_out: u64,
}

/// When each source was logged last. To ask it takes no memory.
#[derive(Drop)]
pub(crate) struct Limiter {
    /// The one that was logged first at the head.
    last: VecDeque<Logged>,
}

impl Limiter {
    pub(crate) fn new(alloc: Global) -> Result<Limiter, AllocError> {
        Ok(Limiter {
            last: VecDeque::with_capacity(alloc, KEPT)?,
        })
    }

    /// Whether a line of the source is due now, and how many were left out before it.
    pub(crate) fn let_through(&mut self, source: Source, now: Instant) -> Option<u64> {
        let mut left_out = 0;
        if let Some(place) = self.last.iter().position(|logged| logged.source == source) {
            let logged = self.last.get_mut(place)?;
            if now.saturating_duration_since(logged.at) < Duration::from_secs(BETWEEN) {
                logged.left_out = logged.left_out.saturating_add(1);
                return None;
            }
            left_out = logged.left_out;
            self.last.remove(place);
        }
        if self.last.len() >= KEPT {
            self.last.pop_front();
        }
        let logged = Logged {
            source,
            at: now,
            left_out: 0,
        };
        // There is room for it.
        self.last.push_back(logged).ok();
        Some(left_out)
    }
}
