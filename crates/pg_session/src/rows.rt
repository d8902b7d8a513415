//! How many rows the processes of a connection have at most. No contract rests on it.
use crate::caller::Outcome;
use crate::processes::Processes;
use policy_audit::Event;

/// How many there are of these processes, of so many that were reckoned with.
pub fn rows_of(processes: &Processes, most: usize) -> usize {
    if processes.is_empty() { 0 } else { most }
}

/// How many rows there are at most before a call, and behind it where it is accepted.
#[derive(Clone, Copy)]
pub struct MoreOrFewer {
    before: usize,
    behind: usize,
}

impl MoreOrFewer {
    /// Those of an event. A leave that is accepted takes one row at least.
    pub fn of(before: usize, event: &Event) -> MoreOrFewer {
        let behind = match event {
            Event::Join(_, _, pids) => before.saturating_add(pids.as_slice().len()),
            Event::Leave(_, _, _) => before.saturating_sub(1),
            _ => before,
        };
        MoreOrFewer { before, behind }
    }

    /// How many there are at most behind a call that came to this.
    pub fn behind(self, outcome: &Outcome) -> usize {
        match outcome {
            Outcome::Refused(_) => self.before,
            _ => self.behind,
        }
    }
}
