//! What a life of a node is told before anything else, so that it admits whom it should: what the
//! command line says, or what the last life was told and what ran in it.
#![tactic(auto)]

mod saying;
mod settings;

pub use saying::say_all;
pub use settings::{given, held};
