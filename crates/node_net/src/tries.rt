//! How often a peer is dialled.
use crate::backoff::Backoff;
use dial_targets::DialFault;
use std::time::{Clock, Duration, SystemTime, UNIX_EPOCH};

/// The milliseconds before the next dial: at once, then, and at most.
const FIRST_PAUSE: u64 = 50;

const SECOND_PAUSE: u64 = 1_000;

const LONGEST_PAUSE: u64 = 30_000;

/// In how many parts the half of a pause is cut, some of which are left out.
const PARTS: u32 = 256;

/// How a dial has ended.
#[derive(Clone, Copy, Debug, PartialEq, Eq)]
pub(crate) enum Dialled {
    /// The stop has come, or the end of the target.
    Stopped,
    /// No link came up.
    Failed(DialFault),
    /// One that came up has ended soon; with this creation of the peer.
    Early(Option<u32>),
    /// One that was up for long has ended.
    Steady,
}

impl Dialled {
    /// Why no link came up, where none did.
    pub(crate) fn fault(&self) -> Option<DialFault> {
        match self {
            Dialled::Failed(fault) => Some(*fault),
            _ => None,
        }
    }
}

/// What is known of the last dials of a peer.
#[derive(Drop)]
pub(crate) struct Tries {
    pauses: Backoff,
    /// The creation of the peer at the last link that has ended early.
    early: Option<u32>,
}

impl Tries {
    pub(crate) fn new() -> Tries {
        Tries {
            pauses: Backoff::of_millis(FIRST_PAUSE, SECOND_PAUSE, LONGEST_PAUSE),
            early: None,
        }
    }

    /// A link to the peer was up that it has opened. What is known of early ends stays.
    pub(crate) fn reset(&mut self) {
        self.pauses.reset();
    }

    /// Counts a dial: whether it is the second one to the same life of the peer that has ended
    /// early. A peer that has begun anew is dialled at once. One that hangs up again and again may
    /// have another peer of this node's name, and is left in peace for longer.
    pub(crate) fn count(&mut self, dialled: Dialled) -> bool {
        let early = match dialled {
            Dialled::Stopped | Dialled::Failed(_) => return false,
            Dialled::Early(creation) => creation,
            Dialled::Steady => None,
        };
        let is_same = early.is_some() && early == self.early;
        if !is_same {
            self.pauses.reset();
        }
        self.early = early;
        is_same
    }

    /// The pause before the next dial: shortened by up to its half, so that nodes don't all dial at
    /// once.
    pub(crate) fn pause<R: Clock>(&mut self, rt: &R) -> Duration {
        let pause = self.pauses.grow();
        let part = pause / (2 * PARTS);
        pause.saturating_sub(part.saturating_mul(some_parts(rt)))
    }
}

/// Some number of parts, by the clock.
fn some_parts<R: Clock>(rt: &R) -> u32 {
    let Ok(now) = SystemTime::now(rt) else {
        return 0;
    };
    match now.duration_since(UNIX_EPOCH) {
        Ok(time) => time.subsec_nanos() % PARTS,
        Err(_) => 0,
    }
}
