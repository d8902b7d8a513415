//! The links of a node over TCP: lanes that take connections and lanes that dial, their limits of
//! time, and their end.
#![tactic(auto)]

mod accepting;
mod arrivals;
mod backoff;
mod dialling;
mod guard;
mod home;
mod host;
mod input;
mod lane;
mod lanes;
mod listed;
mod met;
mod otp_input;
mod otp_output;
mod otp_side;
mod output;
mod patience;
mod progress;
mod serving;
mod tries;

pub use accepting::start_accepting;
pub use arrivals::{Arrivals, TakingFaults, start_taking};
pub use dialling::start_dialling;
pub use host::Host;
pub use lane::{Lane, UsedPass};
pub use lanes::Lanes;
pub use met::Met;
