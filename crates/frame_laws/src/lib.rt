//! Laws of one node's history: what it owed to a link, handed out, and said there of its own rows.
#![tactic(auto)]

mod laws;

pub use laws::{
    begun_in_parts, frames_say, given_came, handed_in_order, heard_accepts, heard_is_said, hellos,
    honest, kept_is_said, moments_stand, one_version, one_view, owed_rows, said_once_up,
    sources_rise, stated_after, told_in_order, who_is_heard,
};
