//! What the program says on standard error. Nothing can end a write there, so a thread of its own
//! writes, and nobody waits for it.
use std::alloc::{AllocError, Global};
use std::mem::swap;
use std::sync::{Condvar, CondvarTimeouts, Mutex, Wait};
use std::time::{Clock, Duration};

/// How many bytes of lines may wait. Further lines are left out.
const ROOM: usize = 65_536;

/// The milliseconds at the end for what isn't written yet.
const PATIENCE: u64 = 500;

#[derive(Drop)]
struct State {
    waiting: String,
    is_writing: bool,
}

impl State {
    fn is_busy(&self) -> bool {
        self.is_writing || !self.waiting.is_empty()
    }
}

/// Lines on the way from who says something to the thread that writes it. To say something takes no
/// memory.
pub struct Warnings {
    state: Mutex<State>,
    moved: Condvar,
}

impl Drop for Warnings {
    fn drop(self) {
        let Warnings { state: _, moved: _ } = self;
    }
}

impl Warnings {
    pub fn new(alloc: Global) -> Result<Warnings, AllocError> {
        let state = State {
            waiting: String::with_capacity(alloc, ROOM)?,
            is_writing: false,
        };
        Ok(Warnings {
            state: Mutex::new(state),
            moved: Condvar::new(),
        })
    }

    /// Says a line, where there is room for it.
    pub fn say<R: Wait>(&self, rt: &R, line: &str) {
        let mut state = self.state.lock(rt);
        if state.waiting.len().saturating_add(line.len()) < ROOM {
            state.waiting.push_str(line).ok();
            state.waiting.push('\n').ok();
        }
        drop(state);
        self.moved.notify_all();
    }

    /// Takes all that waits, once there is something.
    fn take<R: Wait>(&self, rt: &R, lines: &mut String) {
        lines.clear();
        let mut state = self
            .moved
            .wait_while(rt, self.state.lock(rt), |state| state.waiting.is_empty());
        swap(&mut state.waiting, lines);
        state.is_writing = true;
    }

    fn has_written<R: Wait>(&self, rt: &R) {
        self.state.lock(rt).is_writing = false;
        self.moved.notify_all();
    }

    /// Waits until all is written, but not for long.
    pub fn finish<R: Wait + Clock>(&self, rt: &R) {
        let time = Duration::from_millis(PATIENCE);
        let state = self.state.lock(rt);
        let (state, _) = self
            .moved
            .wait_timeout_while(rt, state, time, |state| state.is_busy());
        drop(state);
    }
}

/// Writes to standard error what is said. It never ends.
pub fn write_warnings<R: Wait + Eprint>(rt: &R, alloc: Global, warnings: &Warnings) {
    let Ok(mut lines) = String::with_capacity(alloc, ROOM) else {
        return;
    };
    for _ in rt.forever() {
        warnings.take(rt, &mut lines);
        // There is nobody to be told where standard error is closed.
        rt.eprint(lines.as_str()).ok();
        warnings.has_written(rt);
    }
}
