//! What the command line of a node says: its name and secret, its peers, where it is reached, and
//! what limits it.
#![tactic(auto)]

mod arguments;
mod config;
mod cookies;
mod faces;
mod fault;
mod options;
mod rows;
mod stock;
mod usual;
mod words;

pub use arguments::command;
pub use config::with_config;
pub use faces::{Faces, SocketFile};
pub use fault::Fault;
pub use options::{LogOptions, Options, read_options};
pub use stock::OtpOptions;
