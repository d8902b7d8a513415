//! A node at work, as its connections see it: what they ask it, and the streams of those of its
//! control sockets.
#![tactic(auto)]

mod asked;
mod clients;

pub use asked::Asked;
pub use clients::{Clients, Stream};
