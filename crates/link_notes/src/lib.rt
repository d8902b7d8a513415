//! What the links of a node tell beside it: why they have ended, where they lead to, and which
//! writers get on.
#![tactic(auto)]

mod addresses;
mod edges;
mod endings;
mod last_noted;
mod notes;
mod writers;

pub use addresses::Addresses;
pub use edges::{Edges, REASONS};
pub use endings::{Ending, Endings};
pub use notes::Notes;
pub use writers::Writers;
