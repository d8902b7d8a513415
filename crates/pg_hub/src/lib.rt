//! What all threads of a node share: the node behind its lock, the seats of its connections, and
//! who is told what of both.
#![tactic(auto)]

mod answering;
mod archiving;
mod asked;
mod brake;
mod changing;
mod crowd;
mod draining;
mod following;
mod hub;
mod keeping;
mod logging;
mod lost;
mod memory;
mod notices;
mod promises;
mod readers;
mod reporting;
mod seating;
mod signals;
mod stock;
mod telling;
mod viewing;
mod views;

pub use brake::{LetThrough, Promise};
pub use hub::{House, Hub, HubSettings, is_nearly_full};
pub use keeping::Keeping;
pub use memory::Memory;
pub use readers::Readers;
pub use signals::Signals;
