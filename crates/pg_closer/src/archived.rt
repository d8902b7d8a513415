//! A node whose entries go to an archive.
use pg_log::Log;
use policy_audit::Page;
use std::sync::Wait;
use std::time::Clock;

/// A node at work, as what is done behind it sees it.
pub trait Archived {
    fn log(&self) -> &Log;

    /// Takes pages out of the node that it keeps no more, and puts them behind these: the creation
    /// of the life that they are of.
    fn hand_out<R: Wait + Clock>(&self, rt: &R, pages: &mut Vec<Page>) -> u32;

    /// So many entries are in the archive, and so many were to be and aren't.
    fn note_archived(&self, archived: u64, lost: u64);

    /// How often the archive was to be opened anew.
    fn reopens(&self) -> u32;

    /// Memory was wanting beside the node.
    fn want_memory<R: Wait>(&self, rt: &R);

    /// The program is to end.
    fn quit<R: Wait>(&self, rt: &R);
}
