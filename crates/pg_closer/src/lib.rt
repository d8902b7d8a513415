//! What is done behind a node at work, by one thread and so in order: entries that it keeps no more
//! go to its archive, and lives that have ended are closed.
#![tactic(auto)]

mod archived;
mod closing;
mod ended_life;
mod page_queue;
mod recorder;
mod reserve;
mod tasks;

pub use archived::Archived;
pub use closing::{Closer, not_closed};
pub use ended_life::EndedLife;
pub use page_queue::PageQueue;
pub use recorder::{ArchivePlace, Recorder};
