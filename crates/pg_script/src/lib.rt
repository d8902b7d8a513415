//! Scripts on one node: each line is read, asked, and answered by the written policy.
#![tactic(auto)]

mod console;
mod keeping;
mod laws;
mod script;

pub use console::Console;
pub use keeping::{KeepFault, Keeper, Unkept, play_keeping};
pub use laws::text_without_lack;
pub use script::{RunFault, TURNS, play, read_line, run, send, tell_fault};
