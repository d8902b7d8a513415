//! How the thread that talks with the node tells the one that waits what has come. Nothing can end
//! a connect or a read in time, so that thread isn't joined.
use crate::fault::Fault;
use anyhow::anyhow;
use std::sync::{Condvar, CondvarTimeouts, Mutex, Wait};
use std::time::{Clock, Duration};

/// The status of the program, or its fault.
pub type Outcome = Result<u8, Fault>;

#[derive(Drop)]
struct State {
    is_answered: bool,
    outcome: Option<Outcome>,
}

/// Between the thread that talks with the node and the one that waits: that it was answered, and
/// how it has ended.
pub struct Bell {
    state: Mutex<State>,
    moved: Condvar,
}

impl Drop for Bell {
    fn drop(self) {
        let Bell { state: _, moved: _ } = self;
    }
}

impl Bell {
    pub fn new() -> Bell {
        Bell {
            state: Mutex::new(State {
                is_answered: false,
                outcome: None,
            }),
            moved: Condvar::new(),
        }
    }

    /// The answer has come, and more is to come.
    pub fn answer<R: Wait>(&self, rt: &R) {
        self.state.lock(rt).is_answered = true;
        self.moved.notify_all();
    }

    /// The program ends. What is said later isn't heard.
    pub fn end<R: Wait>(&self, rt: &R, outcome: Outcome) {
        let mut state = self.state.lock(rt);
        if state.outcome.is_none() {
            state.outcome = Some(outcome);
        }
        drop(state);
        self.moved.notify_all();
    }

    /// Waits for the answer, or for the end, but no longer than this.
    pub fn wait_for_answer<R: Wait + Clock>(&self, rt: &R, patience: Duration) {
        let state = self.state.lock(rt);
        let (mut state, _) = self.moved.wait_timeout_while(rt, state, patience, |state| {
            !state.is_answered && state.outcome.is_none()
        });
        if !state.is_answered && state.outcome.is_none() {
            let millis = patience.as_millis();
            let late = Fault::of_node(anyhow!("no answer within {millis} ms"));
            state.outcome = Some(Err(late));
        }
    }

    /// Waits for the end.
    pub fn wait_for_end<R: Wait>(&self, rt: &R) -> Outcome {
        let mut state = self
            .moved
            .wait_while(rt, self.state.lock(rt), |state| state.outcome.is_none());
        state.outcome.take().unwrap_or(Ok(0))
    }
}
