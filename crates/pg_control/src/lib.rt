//! The connections of a node: its control socket, and the operator at its standard streams.
#![tactic(auto)]

mod connection;
mod control;
mod door;
mod operator;
mod refusing;

pub use control::start_control;
pub use door::{Door, DoorPlace};
pub use operator::{Operator, start_operator};
