//! The words that every other crate speaks of: names, texts, flags, processes and rows.
#![tactic(auto)]

mod body;
mod change;
mod cookie;
mod fault;
mod fields;
mod flags;
mod group;
mod items;
mod laws;
mod node_name;
mod pid;
mod row;
mod scope;
mod shared;
mod text;

pub use body::Body;
pub use change::{GroupChange, Pids};
pub use cookie::Cookie;
pub use fault::{OutOfMemory, TextFault};
pub use fields::{after_kind, bytes_at, u16_at, u32_at, u64_at};
pub use flags::Flags;
pub use group::Group;
pub use items::{Items, TryClone, copies_of};
pub use laws::{
    equal_values, limits_compute, listing_of_named, one_fault, one_listing, order_of_pids,
    order_of_rows, order_of_texts,
};
pub use node_name::NodeName;
pub use pid::Pid;
pub use row::{MAX_ROWS, Row};
pub use scope::Scope;
pub use shared::Shared;
