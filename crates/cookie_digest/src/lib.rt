//! The digest by which two nodes show that they share a cookie, the challenge that it answers, and
//! where challenges come from.
#![tactic(auto)]

mod answer;
mod challenge;
mod source;

pub use answer::digest;
pub use challenge::{Challenge, Proof, Spent};
pub use source::ChallengeSource;
