//! One node for many threads: a lock around it, a pass for each caller that keeps what it called,
//! and the two workers of a link.
#![tactic(auto)]

mod accepting;
mod call;
mod close;
mod cutter;
mod ends;
mod fault;
mod laws;
mod let_go;
mod node;
mod opening;
mod pass;
mod reading;
mod resting;
mod retreat;
mod serving;
mod shared;
mod work;
mod writing;

pub use accepting::{AcceptEnd, Accepted, Door, accept_links};
pub use close::{CloseFault, CloseRule, Closed, Unsettled};
pub use ends::{Gate, LinkOut, OpenGate, ReadEnd, WriteEnd};
pub use fault::{CallFault, NewFault};
pub use laws::whole_passes;
pub use node::Node;
pub use pass::{Call, Pass};
pub use reading::read_link;
pub use retreat::{Retreat, RetreatStep};
pub use serving::{Connection, Pair, ServedLink, serve_link};
pub use shared::Shared;
pub use writing::write_link;
