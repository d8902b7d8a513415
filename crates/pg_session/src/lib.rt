//! The seat of a connection to a node: what its lines ask for and are answered, what it has of the
//! node, and what it is told unasked.
#![tactic(auto)]

mod answered;
mod caller;
mod kind;
mod laws;
mod leaving;
mod looking;
mod news;
mod notice;
mod processes;
mod reading;
mod request;
mod rights;
mod roster;
mod rows;
mod session;
mod stake;
mod stops;
mod surroundings;
mod watch;
mod watched;

pub use answered::{Answered, Next};
pub use caller::{Caller, Lack};
pub use laws::untouched_tells_nothing;
pub use news::{LostLinks, Seen};
pub use rights::Rights;
pub use roster::Roster;
pub use session::Session;
pub use surroundings::{Change, Report, Surroundings};
