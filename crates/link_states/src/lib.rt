//! The states of both ends of the distribution handshake, version 6, each a type of its own
//! (Distribution Protocol, Distribution Handshake).
#![tactic(auto)]

mod await_ack;
mod await_answer;
mod await_challenge;
mod await_name;
mod await_reply;
mod await_status;
mod frames;
mod handshake_body;
mod laws;
mod peer;
mod pending;
mod refusal;
mod state_rule;
mod stopped;
mod up;

pub use await_ack::AwaitAck;
pub use await_answer::AwaitAnswer;
pub use await_challenge::AwaitChallenge;
pub use await_name::{AwaitName, Named};
pub use await_reply::AwaitReply;
pub use await_status::AwaitStatus;
pub use frames::Bodies;
pub use handshake_body::HandshakeBody;
pub use laws::ends_agree;
pub use pending::{Names, OtherLinks, Pending};
pub use state_rule::StateRule;
pub use stopped::Stopped;
pub use up::Up;
