//! The audit of a node as lines of JSON, one an entry, and how it is read and played again.
#![tactic(auto)]

mod archived;
mod asked;
mod events;
mod laws;
mod life;
mod lines;
mod reading;
mod replay;
mod scanning;
mod verdicts;

pub use asked::{Asked, Told};
pub use laws::no_cookie_told;
pub use life::Life;
pub use lines::{put_entries, put_entry, put_life};
pub use reading::{Line, LineFault, Scratch, read_line};
pub use replay::{Replay, ReplayFault};
