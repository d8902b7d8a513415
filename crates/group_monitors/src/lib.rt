//! Monitors of groups and scopes, and what each has not told yet.
#![tactic(auto)]

mod fault;
mod laws;
mod monitor;
mod monitors;
mod told;

pub use fault::{NoMonitor, UpdatesFault};
pub use laws::{
    fetches_tell_the_listing, follows_the_policy, found_after, since_the_place, tells_the_listing,
    told_from_kept,
};
pub use monitors::Monitors;
