//! The five messages between linked nodes, as values and as bytes, and the reader that cuts a
//! stream into them.
#![tactic(auto)]

mod begun;
mod cutting;
mod decoding;
mod encoding;
mod fault;
mod fields;
mod front;
mod held;
mod laws;
mod length_bytes;
mod message;
mod part;
mod part_decoding;
mod part_encoding;
mod part_laws;
mod parts;
mod reader;

pub use begun::Begun;
pub use cutting::encode_parts;
pub use decoding::decode;
pub use encoding::encode;
pub use fault::{FeedFault, MessageFault};
pub use laws::{any_cut, fits_a_reader, one_message, one_spelling, readers, round_trip, too_long};
pub use message::{Message, Rows};
pub use part::{Message2, PartKind};
pub use part_decoding::decode_v2;
pub use part_encoding::{encode_part, encode_v2};
pub use part_laws::{
    fits_a_reader_in_parts, one_message2, parts_make_the_message, readers2, whole_is_one_part,
};
pub use parts::{Parts, Undo};
pub use reader::LinkReader;
