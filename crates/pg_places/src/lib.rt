//! Where a node is reached, and where it goes: its addresses, its control sockets, its name at
//! EPMD, and the threads that connect to peers.
#![tactic(auto)]

mod connecting;
mod otp_place;
mod places;
mod queues;
mod untaken;

pub use connecting::start_connecting;
pub use otp_place::{OtpPlace, open_otp, start_registering};
pub use places::{Places, open_places};
pub use queues::Queues;
pub use untaken::UntakenPeers;
