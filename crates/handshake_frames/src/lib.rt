//! The five frames of the distribution handshake, version 6, as values and as bytes (Distribution
//! Protocol, Distribution Handshake).
#![tactic(auto)]

mod body_so_far;
mod counted;
mod decoding;
mod encoding;
mod fault;
mod frame;
mod held;
mod laws;
mod reader;
mod status;
mod version;

pub use body_so_far::BodySoFar;
pub use counted::counted_at;
pub use decoding::{decode_ack, decode_challenge, decode_name, decode_reply, decode_status};
pub use encoding::encode;
pub use fault::BadFrame;
pub use frame::{AckFrame, ChallengeFrame, HsFrame, NameFrame, ReplyFrame, StatusWord};
pub use laws::{any_cut, one_frame, readers, round_trip};
pub use reader::{Fed, HsReader};
