//! The signals of a node, as far as they are answered (Distribution Protocol, "Protocol messages").
use crate::meaning::Said;
use dist_types::Pid;

/// What a body tells. Parts that are only handed back are terms as they were read.
#[derive(Debug, Drop)]
pub enum Signal<'a> {
    /// A message of `pg` to a process.
    Said(Pid, Said),
    /// A message of `pg` to the process that has this name.
    Named(&'a [u8], Said),
    /// Another message to the process that has this name.
    Asked(&'a [u8], &'a [u8]),
    /// A process watches another, by this reference.
    Monitor(&'a [u8], &'a [u8], &'a [u8]),
    /// It watches no longer.
    Demonitor(&'a [u8], &'a [u8], &'a [u8]),
    /// A process that another one watched has ended.
    MonitorExit(&'a [u8], &'a [u8]),
    /// A process ties its end to that of another.
    Link(&'a [u8], &'a [u8]),
    /// It doesn't any longer: an identifier, and the two.
    Unlink(&'a [u8], &'a [u8], &'a [u8]),
    /// What isn't answered.
    Other,
}
