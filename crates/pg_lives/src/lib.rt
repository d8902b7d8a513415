//! The lives of a node: each serves links until its audit has come to the last of its numbers, or
//! memory is wanting; the next one takes its place behind the same lock, and it is closed behind
//! that.
#![tactic(auto)]

mod keeper;
mod life;
mod lives;
mod threads;
mod turn;
mod warnings;

pub use keeper::keep_on;
pub use life::Site;
pub use lives::{finish, live_on};
pub use turn::LifeMaker;
