//! The connections that are served, as whoever ends the program has them.
use pg_streams::Hearers;
use std::alloc::Global;
use std::net::{Shutdown, TcpStream};
use std::sync::{Arc, Mutex, Wait};

/// The stream of a connection, which its thread shares with whoever ends the program.
pub type Visitor = Arc<TcpStream, Global>;

/// The most connections at once.
const MOST: usize = 16;

#[derive(Drop)]
struct Streams {
    /// Each with its number.
    open: Vec<(u64, Visitor)>,
    next: u64,
    are_ended: bool,
}

/// The connections that are served, until the end, and how many others are heard out.
#[derive(Drop)]
pub struct Visitors {
    streams: Mutex<Streams>,
    pub hearers: Hearers,
}

impl Visitors {
    pub fn new(alloc: Global) -> Visitors {
        Visitors {
            streams: Mutex::new(Streams {
                open: Vec::new(alloc),
                next: 0,
                are_ended: false,
            }),
            hearers: Hearers::new(),
        }
    }

    /// Adds a connection, unless there are as many as may be: its number.
    pub fn add<R: Wait>(&self, rt: &R, visitor: &Visitor) -> Option<u64> {
        let copy = Arc::try_clone(visitor).ok()?;
        let mut streams = self.streams.lock(rt);
        if streams.are_ended || streams.open.len() >= MOST {
            return None;
        }
        let number = streams.next;
        streams.open.push((number, copy)).ok()?;
        streams.next = number.wrapping_add(1);
        Some(number)
    }

    pub fn remove<R: Wait>(&self, rt: &R, number: u64) {
        let mut streams = self.streams.lock(rt);
        streams.open.retain(|(known, _)| *known != number);
    }

    /// Ends all connections, whatever their own threads wait for.
    pub fn end_all<R: Wait>(&self, rt: &R) {
        let mut streams = self.streams.lock(rt);
        streams.are_ended = true;
        for (_, visitor) in streams.open.iter() {
            // One that can't be shut has ended already.
            visitor.shutdown(Shutdown::Both).ok();
        }
    }
}
