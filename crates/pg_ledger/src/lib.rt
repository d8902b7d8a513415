//! What the audit of a life has said so far that operators are shown: links, scopes, names,
//! refusals, counts, and names that two nodes have.
#![tactic(auto)]

mod account;
mod census;
mod chronicle;
mod ledger;
mod refusals;
mod twins;

pub use account::Account;
pub use census::{Census, RuleTimes};
pub use chronicle::{Chronicle, Happening};
pub use ledger::{KnownLinks, Ledger, Look, UpLink};
pub use refusals::{Refusal, Refusals};
pub use twins::Twins;
