//! What the lines of a node say to who reads them: which are answers, what became of what was
//! asked, and their text as JSON.
#![tactic(auto)]

mod objects;
mod said;
mod words;

pub use objects::{JsonFault, json_of};
pub use said::Said;
