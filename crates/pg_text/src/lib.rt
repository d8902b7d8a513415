//! The commands of a node as lines of text, and its answers as lines.
#![tactic(auto)]

mod answers;
mod argument;
mod arguments;
mod asked;
mod command;
mod diagnosis;
mod down_reason;
mod event_kind;
mod link_commands;
mod node_commands;
mod printed;
mod query_commands;
mod values;
mod words;

pub use answers::{put_accepted, put_entry, put_found, put_step, put_unanswered};
pub use argument::Argument;
pub use arguments::{both, each, first, named, only};
pub use asked::{moved_pids, query_of, speaks_for_link};
pub use command::{Command, LineFault, nothing, parse};
pub use diagnosis::{Diagnosis, FORMS, Reason, diagnose};
pub use down_reason::DownReason;
pub use event_kind::kind;
pub use printed::{
    Printed, put_bytes, put_each, put_number, put_numbered_line, put_told, put_word,
};
pub use values::{cut, long_number, number};
pub use words::{first_word, is_quiet, next_word, only_word, without_feed};
