//! Pauses that grow.
use std::time::Duration;

/// The pause before the next try: doubled after each failure, from the second one on at least so
/// long, up to the longest one.
#[derive(Clone, Copy, Debug)]
pub(crate) struct Backoff {
    first: Duration,
    second: Duration,
    longest: Duration,
    next: Duration,
}

impl Backoff {
    pub(crate) fn of_millis(first: u64, second: u64, longest: u64) -> Backoff {
        Backoff {
            first: Duration::from_millis(first),
            second: Duration::from_millis(second),
            longest: Duration::from_millis(longest),
            next: Duration::from_millis(first),
        }
    }

    /// After a success.
    pub(crate) fn reset(&mut self) {
        self.next = self.first;
    }

    /// The pause after a failure.
    pub(crate) fn grow(&mut self) -> Duration {
        let pause = self.next;
        self.next = pause.saturating_mul(2).max(self.second).min(self.longest);
        pause
    }
}
