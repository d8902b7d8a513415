//! A link with a stock node of Erlang/OTP, as bytes on both sides: the frames of its handshake, and
//! behind that its bodies as messages of a link between nodes of this program, and back.
#![tactic(auto)]

mod asking;
mod fault;
mod flags;
mod frames;
mod hearing;
mod inward;
mod link;
mod long;
mod piece;
mod runs;
mod sending;
mod table;
mod taking;
mod waiting;

pub use asking::Healing;
pub use fault::LinkFault;
pub use flags::{is_stock, offered};
pub use frames::{own_frame, peer_frame};
pub use hearing::{cut_heard, hear_body};
pub use inward::Inward;
pub use link::{LinkKind, OtpLink};
pub use long::may_skip;
pub use piece::{Piece, cut};
pub use table::Table;
pub use taking::Taken;
