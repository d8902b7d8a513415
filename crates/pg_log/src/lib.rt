//! The log of what a node decides: one line a decision, on standard error, as text or as JSON.
#![tactic(auto)]

mod decision;
mod format;
mod journal;
mod limiter;
mod recent;
mod taking;

pub use decision::{Decision, Field, Source, Value, number, text};
pub use format::{Format, FormatFault};
pub use journal::Log;
pub use log::{Level, LevelFilter};
pub use taking::Taking;
