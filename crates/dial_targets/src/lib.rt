//! The peers that a node dials, where they are and how that goes, and the limits of time of its
//! links.
#![tactic(auto)]

mod connector;
mod dial_fault;
mod epmd_place;
mod limits;
mod peer_kind;
mod target;
mod targets;

pub use connector::Stops;
pub use dial_fault::DialFault;
pub use limits::{Limits, Looks};
pub use peer_kind::PeerKind;
pub use target::{EpmdUse, Target, TargetFault, Tried, is_place};
pub use targets::{NotAdded, Targets};
