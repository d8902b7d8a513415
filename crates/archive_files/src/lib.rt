//! The files of a node's archive: each entry's line once, in order, whole; over as many files as
//! there are to be.
#![tactic(auto)]

mod archive;
mod files;
mod line;
mod lines;
mod name;
mod opening;
mod store;
mod tail;

pub use archive::Archive;
pub use files::ArchiveFiles;
pub use line::{Line, Mark};
pub use lines::Lines;
pub use opening::{Opened, fault, open};
pub use store::Store;
pub use tail::torn;
