//! What the run shares with the threads of the standard streams.
use anyhow::{Error, Result};
use command_line::OUT_OF_MEMORY;
use pg_streams::{LineQueue, OutputQueue, Streams, Warnings};
use std::alloc::{AllocError, Global};
use std::process::ExitCode;
use std::sync::{Arc, Wait};
use std::time::Clock;

/// What the run shares with the threads of the standard streams.
#[derive(Drop)]
pub struct Queues {
    pub lines: Arc<LineQueue>,
    pub output: Arc<OutputQueue>,
    pub warnings: Arc<Warnings>,
}

impl Queues {
    /// The same queues, for the run and for the threads.
    pub fn two(alloc: Global, is_output_needed: bool) -> Result<(Queues, Queues), AllocError> {
        let queues = Queues {
            lines: Arc::new(alloc, LineQueue::new(alloc)?)?,
            output: Arc::new(alloc, OutputQueue::new(alloc, is_output_needed))?,
            warnings: Arc::new(alloc, Warnings::new(alloc)?)?,
        };
        let theirs = queues.try_clone()?;
        Ok((queues, theirs))
    }

    fn try_clone(&self) -> Result<Queues, AllocError> {
        Ok(Queues {
            lines: Arc::try_clone(&self.lines)?,
            output: Arc::try_clone(&self.output)?,
            warnings: Arc::try_clone(&self.warnings)?,
        })
    }

    pub fn streams(&self) -> Streams<'_> {
        Streams {
            lines: &self.lines,
            output: &self.output,
        }
    }

    /// The status of a run that has ended so, once what it told is written, or nobody has read it
    /// for some time.
    pub fn finish<R: Wait + Clock>(&self, rt: &R, alloc: Global, ended: Result<()>) -> ExitCode {
        let written = self.output.finish(rt);
        let status = match ended.and(written) {
            Ok(()) => ExitCode::SUCCESS,
            Err(reason) => {
                self.say(rt, alloc, &reason);
                ExitCode::from(1)
            }
        };
        self.warnings.finish(rt);
        status
    }

    /// Says the reason for which a run has ended.
    fn say<R: Wait>(&self, rt: &R, alloc: Global, reason: &Error) {
        match format!(in alloc; "error: {reason}") {
            Ok(text) => self.warnings.say(rt, text.as_str()),
            Err(_) => self.warnings.say(rt, OUT_OF_MEMORY),
        }
    }
}
