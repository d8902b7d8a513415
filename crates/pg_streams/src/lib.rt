//! Lines that come in, and what goes out on standard output and standard error, where nothing can
//! end a read or a write: threads of their own make those, and nobody waits for them for long.
#![tactic(auto)]

mod hearing;
mod lines;
mod output;
mod warnings;

pub use hearing::{Hearable, Hearers, hear_out, is_at_end};
pub use lines::{LineQueue, Lines, Next, QueuedLines, ReadLines, is_too_long, read_input};
pub use output::{OutputQueue, QueuedOutput, write_output};
pub use warnings::{Warnings, write_warnings};

/// Standard input and output.
#[derive(Clone, Copy, Drop)]
pub struct Streams<'a> {
    pub lines: &'a LineQueue,
    pub output: &'a OutputQueue,
}

impl Streams<'_> {
    /// Nothing more is read from the one or put into the other.
    pub fn end<R: std::sync::Wait>(&self, rt: &R) {
        self.lines.end(rt);
        self.output.end(rt);
    }
}
