//! Who is asked: a node at work.
use crate::clients::Clients;
use dist_types::OutOfMemory;
use pg_log::Log;
use pg_session::{Next, Seen};
use std::alloc::Global;
use std::sync::Wait;
use std::sync::atomic::AtomicBool;
use std::time::Clock;

/// A node at work, as its connections see it. Each has a seat, at which its lines are answered and
/// it is told what happens.
pub trait Asked {
    fn alloc(&self) -> Global;

    fn log(&self) -> &Log;

    /// The streams of those that came to a control socket.
    fn clients(&self) -> &Clients;

    /// Takes a seat that nobody has, if there is one, with so many others, and memory for it, and
    /// somebody may be let in. Behind it stands of what its connection needn't be told.
    fn enter<R: Wait>(&self, rt: &R, others: usize) -> Option<(usize, Seen)>;

    /// Gives a seat back, once what its connection had has ended.
    fn leave<R: Wait + Clock>(&self, rt: &R, seat: usize);

    /// Adds the answer to a line of a seat, for which there is room.
    fn answer<R: Wait + Clock>(
        &self,
        rt: &R,
        seat: usize,
        line: &[u8],
        out: &mut Vec<u8>,
    ) -> Result<Next, OutOfMemory>;

    /// Waits until as many lines are answered as wait for their answers now.
    fn let_go_first<R: Wait>(&self, rt: &R);

    /// Waits until more has happened than the connection of the seat has seen, or it or the program
    /// is to end: whether to go on.
    fn wait_for_news<R: Wait>(
        &self,
        rt: &R,
        seat: usize,
        seen: Seen,
        has_ended: &AtomicBool,
    ) -> bool;

    /// Adds the news for a seat. None where there is no such seat.
    fn tell<R: Wait + Clock>(
        &self,
        rt: &R,
        seat: usize,
        out: &mut Vec<u8>,
    ) -> Result<Option<Seen>, OutOfMemory>;

    /// Whether the connection of the seat is to end since it doesn't read. Nothing more is kept for
    /// it then.
    fn gives_up(&self, seat: usize) -> bool;

    /// Waits while there is no room for a call.
    fn wait_for_room<R: Wait>(&self, rt: &R);

    /// Memory was wanting for a connection.
    fn want_memory<R: Wait>(&self, rt: &R);

    /// A line of a seat couldn't be read for want of memory.
    fn lose_line<R: Wait>(&self, rt: &R, seat: usize);

    /// Has all look whether anything is to do.
    fn wake<R: Wait>(&self, rt: &R);

    /// Lets nobody in any more, and ends what all but the connection of this seat have of the node.
    fn drain<R: Wait + Clock>(&self, rt: &R, seat: usize);

    /// Whether nobody is let in any more, since the node is to end.
    fn is_draining(&self) -> bool;

    /// The program is to end.
    fn quit<R: Wait>(&self, rt: &R);

    /// Whether the program is to end.
    fn is_quitting(&self) -> bool;
}
