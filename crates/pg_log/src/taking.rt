//! Connections that are taken one after another, and those that can't be.
use crate::decision::{Field, text};
use crate::journal::Log;
use log::Level;
use std::sync::Wait;
use std::time::{Clock, Duration};
use std::{io, thread};

/// The milliseconds of rest after a connection that couldn't be taken.
const REST: u64 = 100;

/// How connections of one kind are taken.
#[derive(Drop)]
pub struct Taking {
    kind: &'static str,
    /// None could be taken at the last time.
    has_failed: bool,
}

impl Taking {
    pub fn of(kind: &'static str) -> Taking {
        Taking {
            kind,
            has_failed: false,
        }
    }

    /// The connection that was taken. Where none could be, it rests, and says so for the first
    /// time.
    pub fn taken<R: Wait + Clock, T: Drop>(
        &mut self,
        rt: &R,
        log: &Log,
        accepted: io::Result<T>,
    ) -> Option<T> {
        match accepted {
            Ok(taken) => {
                self.has_failed = false;
                Some(taken)
            }
            Err(error) => {
                if !self.has_failed {
                    log.tell_untaken(rt, self.kind, &error);
                }
                self.has_failed = true;
                thread::sleep(rt, Duration::from_millis(REST));
                None
            }
        }
    }
}

impl Log {
    /// Logs that no connection of such a kind can be taken.
    pub fn tell_untaken<R: Wait + Clock>(&self, rt: &R, kind: &'static str, error: &io::Error) {
        if let Ok(reason) = format!(in self.alloc; "{error}") {
            let fields = untaken_fields(kind, reason.as_str());
            self.tell(rt, Level::Warn, "not_taken", &fields);
        }
    }
}

fn untaken_fields<'a>(kind: &'a str, reason: &'a str) -> [Field<'a>; 2] {
    [text("kind", kind), text("reason", reason)]
}
