//! The log.
use crate::decision::{Decision, Field, text};
use crate::format::{Format, put_json, put_text};
use crate::limiter::Limiter;
use crate::recent::Recent;
use jiff::Timestamp;
use log::{Level, LevelFilter};
use pg_streams::Warnings;
use std::alloc::{AllocError, Global};
use std::mem::replace;
use std::sync::{Arc, Mutex, Wait};
use std::time::{Clock, Instant};

/// How many bytes of a line need no further memory.
const ROOM: usize = 2_048;

/// What lies behind the lock.
#[derive(Drop)]
struct State {
    limiter: Limiter,
    recent: Recent,
    line: String,
    object: Vec<u8>,
}

/// Where decisions are logged, from which level on. To log one takes no memory, unless its line is
/// very long.
pub struct Log {
    pub(crate) alloc: Global,
    format: Format,
    level: LevelFilter,
    state: Mutex<State>,
    lines: Arc<Warnings>,
}

impl Drop for Log {
    fn drop(self) {
        let Log {
            alloc: _,
            format: _,
            level: _,
            state: _,
            lines: _,
        } = self;
    }
}

impl Log {
    pub fn new(
        alloc: Global,
        format: Format,
        level: LevelFilter,
        lines: Arc<Warnings>,
    ) -> Result<Log, AllocError> {
        let state = State {
            limiter: Limiter::new(alloc)?,
            recent: Recent::new(alloc)?,
            line: String::with_capacity(alloc, ROOM)?,
            object: Vec::with_capacity(alloc, ROOM)?,
        };
        Ok(Log {
            alloc,
            format,
            level,
            state: Mutex::new(state),
            lines,
        })
    }

    /// Whether decisions of this level are logged.
    pub fn has(&self, level: Level) -> bool {
        self.format != Format::Off && self.level.allows(level)
    }

    /// Logs a decision, unless its level isn't logged, or its source was in this second: then it is
    /// counted for the next line of that. Without memory for the line it is left out.
    pub fn say<R: Wait + Clock>(&self, rt: &R, decision: &Decision<'_>) {
        if !self.has(decision.level) {
            return;
        }
        let mut state = self.state.lock(rt);
        if let Some(left_out) = let_through(rt, &mut state.limiter, decision) {
            self.write(rt, &mut state, decision, left_out).ok();
        }
    }

    /// Copies of the last 50 lines, the oldest first, of each at most the first 400 bytes.
    pub fn recent<R: Wait>(&self, rt: &R, alloc: Global) -> Result<Vec<Vec<u8>>, AllocError> {
        self.state.lock(rt).recent.copies(alloc)
    }

    /// Logs a warning with its reason.
    pub fn warn<R: Wait + Clock>(&self, rt: &R, what: &'static str, reason: &str) {
        self.tell(rt, Level::Warn, what, &[text("reason", reason)]);
    }

    /// Logs a decision of the node's own.
    pub fn tell<R: Wait + Clock>(
        &self,
        rt: &R,
        level: Level,
        what: &'static str,
        fields: &[Field<'_>],
    ) {
        let decision = Decision {
            level,
            what,
            source: None,
            fields,
        };
        self.say(rt, &decision);
    }

    fn write<R: Wait + Clock>(
        &self,
        rt: &R,
        state: &mut State,
        decision: &Decision<'_>,
        left_out: u64,
    ) -> Result<(), AllocError> {
        let time = Timestamp::now(rt).unwrap_or(Timestamp::UNIX_EPOCH);
        state.line.clear();
        match self.format {
            Format::Text => {
                put_text(time, decision, left_out, &mut state.line)?;
                self.keep(rt, &mut state.recent, state.line.as_str());
            }
            Format::Json => {
                let mut object = replace(&mut state.object, Vec::new(self.alloc));
                object.clear();
                state.object = put_json(time, decision, left_out, &mut state.line, object)?;
                let line = str::from_utf8(state.object.as_slice()).unwrap_or("");
                self.keep(rt, &mut state.recent, line);
            }
            Format::Off => {}
        }
        Ok(())
    }

    fn keep<R: Wait>(&self, rt: &R, recent: &mut Recent, line: &str) {
        recent.keep(line.as_bytes());
        self.lines.say(rt, line);
    }
}

/// Whether the line of a decision is due, and how many were left out before it. Without a clock it
/// is.
fn let_through<R: Clock>(rt: &R, limiter: &mut Limiter, decision: &Decision<'_>) -> Option<u64> {
    match (decision.source, Instant::now(rt)) {
        (Some(source), Ok(now)) => limiter.let_through(source, now),
        _ => Some(0),
    }
}
