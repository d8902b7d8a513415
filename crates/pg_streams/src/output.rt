//! Standard output. Nothing can end a write to it, so a thread of its own writes, and the run
//! doesn't wait for that for ever.
use anyhow::{Error, Result, anyhow};
use std::alloc::Global;
use std::io::{self, Write};
use std::mem::swap;
use std::sync::{Condvar, CondvarTimeouts, Mutex, Wait};
use std::time::{Clock, Duration};

/// From so many bytes on that wait, further ones wait outside.
const ENOUGH: usize = 65_536;

/// The milliseconds at the end for what isn't written yet.
const PATIENCE: u64 = 500;

#[derive(Drop)]
struct State {
    waiting: Vec<u8>,
    is_writing: bool,
    has_ended: bool,
    /// Whether the end waits until all is written.
    is_patient: bool,
    fault: Option<io::Error>,
}

impl State {
    fn is_open(&self) -> bool {
        !self.has_ended && self.fault.is_none()
    }

    fn is_busy(&self) -> bool {
        self.fault.is_none() && (self.is_writing || !self.waiting.is_empty())
    }
}

/// Bytes on the way from who tells something to the thread that writes it.
pub struct OutputQueue {
    state: Mutex<State>,
    moved: Condvar,
    /// Whether a fault ends the program.
    pub is_needed: bool,
}

impl Drop for OutputQueue {
    fn drop(self) {
        let OutputQueue {
            state: _,
            moved: _,
            is_needed: _,
        } = self;
    }
}

impl OutputQueue {
    pub fn new(alloc: Global, is_needed: bool) -> OutputQueue {
        let state = State {
            waiting: Vec::new(alloc),
            is_writing: false,
            has_ended: false,
            is_patient: false,
            fault: None,
        };
        OutputQueue {
            state: Mutex::new(state),
            moved: Condvar::new(),
            is_needed,
        }
    }

    /// Puts bytes in, once there is room. After the end or a fault they are let go.
    pub fn put<R: Wait>(&self, rt: &R, bytes: &[u8]) -> io::Result<()> {
        let mut state = self.moved.wait_while(rt, self.state.lock(rt), |state| {
            state.waiting.len() >= ENOUGH && state.is_open()
        });
        if state.is_open() {
            state.waiting.extend_from_slice(bytes)?;
        }
        drop(state);
        self.moved.notify_all();
        Ok(())
    }

    /// Takes all that waits, once there is something: whether there was.
    fn take<R: Wait>(&self, rt: &R, bytes: &mut Vec<u8>) -> bool {
        let mut state = self.moved.wait_while(rt, self.state.lock(rt), |state| {
            state.waiting.is_empty() && !state.has_ended
        });
        bytes.clear();
        swap(&mut state.waiting, bytes);
        state.is_writing = !bytes.is_empty();
        state.is_writing
    }

    /// What became of the bytes that were taken.
    fn note<R: Wait>(&self, rt: &R, written: io::Result<()>) {
        let mut state = self.state.lock(rt);
        state.is_writing = false;
        if let Err(error) = written {
            state.fault = Some(error);
        }
        drop(state);
        self.moved.notify_all();
    }

    /// The end is to wait until all is written.
    pub fn be_patient<R: Wait>(&self, rt: &R) {
        self.state.lock(rt).is_patient = true;
    }

    /// Nothing more goes in.
    pub fn end<R: Wait>(&self, rt: &R) {
        self.state.lock(rt).has_ended = true;
        self.moved.notify_all();
    }

    /// Waits for a fault, or for the end.
    pub fn wait_for_fault<R: Wait>(&self, rt: &R) -> Option<Error> {
        let state = self
            .moved
            .wait_while(rt, self.state.lock(rt), |state| state.is_open());
        fault_of(&state)
    }

    /// Waits until all is written, but not for long unless it is to be patient. An error, where a
    /// fault ends the program.
    pub fn finish<R: Wait + Clock>(&self, rt: &R) -> Result<()> {
        self.end(rt);
        match self.last_fault(rt) {
            Some(fault) if self.is_needed => Err(fault),
            _ => Ok(()),
        }
    }

    fn last_fault<R: Wait + Clock>(&self, rt: &R) -> Option<Error> {
        let state = self.state.lock(rt);
        if state.is_patient {
            let state = self.moved.wait_while(rt, state, |state| state.is_busy());
            return fault_of(&state);
        }
        let time = Duration::from_millis(PATIENCE);
        let (state, _) = self
            .moved
            .wait_timeout_while(rt, state, time, |state| state.is_busy());
        fault_of(&state)
    }
}

fn fault_of(state: &State) -> Option<Error> {
    let error = state.fault.as_ref()?;
    Some(anyhow!("standard output: {error}"))
}

/// Writes to standard output what is put in, until the end or a fault.
pub fn write_output<R: Wait + Print>(rt: &R, alloc: Global, output: &OutputQueue) {
    let mut bytes = Vec::new(alloc);
    for _ in rt.forever() {
        if !output.take(rt, &mut bytes) {
            return;
        }
        let written = io::writer(rt).write_all(bytes.as_slice());
        let has_failed = written.is_err();
        if bytes.capacity() > ENOUGH {
            bytes.clear();
            bytes.shrink_to_fit();
        }
        output.note(rt, written);
        if has_failed {
            return;
        }
    }
    unreachable!()
}

/// Standard output, to be written to by any thread.
#[derive(Drop)]
pub struct QueuedOutput<'a, R: Wait> {
    pub rt: &'a R,
    pub output: &'a OutputQueue,
}

impl<R: Wait> Write for QueuedOutput<'_, R> {
    fn write(&mut self, bytes: &[u8]) -> io::Result<usize> {
        self.output.put(self.rt, bytes)?;
        Ok(bytes.len())
    }

    fn flush(&mut self) -> io::Result<()> {
        Ok(())
    }
}
