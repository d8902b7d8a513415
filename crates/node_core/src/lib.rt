//! One node: calls and frames in, answers and owed frames out, and an audit of both.
#![tactic(auto)]

mod admitting;
mod awaiting;
mod beside;
mod changes;
mod discovering;
mod entering;
mod fault;
mod forgetting;
mod frames;
mod gathering;
mod handshaking;
mod hearing;
mod kept;
mod laws;
mod link;
mod link_peers;
mod link_state;
mod linking;
mod links;
mod membership;
mod messaging;
mod monitoring;
mod node;
mod peer_rows;
mod processes;
mod queries;
mod readers;
mod running;
mod scoping;
mod sharing;
mod slow;
mod telling;
mod waiting;

pub use awaiting::{Awaiting, FrameKind};
pub use fault::{CoreFault, OpenFault};
pub use laws::stepped;
pub use links::MAX_LINKS;
pub use node::NodeCore;
pub use queries::Query;
