//! A node over HTTP, for who looks on: its metrics, its health, its status, and a page.
#![tactic(auto)]

mod answers;
mod entrance;
mod host;
mod looker;
mod refusing;
mod serving;
mod visitors;

pub use entrance::PageEntrance;
pub use serving::start_pages;
