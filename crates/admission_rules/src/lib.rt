//! Whom a node admits: its cookie and those of its peers, the names that it allows, whether it is
//! hidden, and the version of link messages that it knows.
#![tactic(auto)]

mod admission;
mod allow_list;
mod fault;
mod laws;
mod name_bytes;

pub use admission::Admission;
pub use fault::{AllowFault, CookieFault};
pub use laws::{cookies_after, names_after};
