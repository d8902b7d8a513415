//! What is said to EPMD, the port mapper of Erlang's nodes, and what it answers (Distribution
//! Protocol, "EPMD Protocol").
#![tactic(auto)]

mod alive;
mod client;
mod fault;
mod head;
mod laws;
mod name_halves;
mod port;

pub use alive::{Alive, NodeKind, alive_answer, put_alive};
pub use client::{AskFault, ask_port, register};
pub use fault::EpmdFault;
pub use laws::round_trips;
pub use name_halves::halves;
pub use port::{PortAnswer, port_answer, port_of, put_port_please};
