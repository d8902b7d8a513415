//! Files that a command line names: how a line names one, and which may hold a secret.
#![tactic(auto)]

mod secrets;
mod shown;

pub use secrets::{IS_OPEN, SecretFault, cookie_in, is_open, read_cookie};
pub use shown::ShownPath;
