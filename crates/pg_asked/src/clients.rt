//! The clients of the control socket, as whoever ends the program has them.
use pg_streams::Hearers;
use std::alloc::{AllocError, Global};
use std::net::Shutdown;
use std::os::unix::net::UnixStream;
use std::sync::{Arc, Mutex, Wait};

/// The stream of a client, which the threads that serve it share with whoever ends the program.
pub type Stream = Arc<UnixStream, Global>;

/// The streams of the clients that are served, and how many others are heard out.
#[derive(Drop)]
pub struct Clients {
    streams: Mutex<Streams>,
    pub hearers: Hearers,
}

#[derive(Drop)]
struct Streams {
    /// Those of all clients that are served, each with its seat.
    open: Vec<(usize, Stream)>,
    are_ended: bool,
}

impl Clients {
    pub fn new(alloc: Global) -> Clients {
        Clients {
            streams: Mutex::new(Streams {
                open: Vec::new(alloc),
                are_ended: false,
            }),
            hearers: Hearers::new(),
        }
    }

    /// Adds the stream of a client that is served: whether it could be. After the end it can't.
    pub fn add<R: Wait>(&self, rt: &R, seat: usize, stream: &Stream) -> bool {
        let Ok(copy) = Arc::try_clone(stream) else {
            return false;
        };
        let mut streams = self.streams.lock(rt);
        !streams.are_ended && streams.open.push((seat, copy)).is_ok()
    }

    pub fn remove<R: Wait>(&self, rt: &R, seat: usize) {
        let mut streams = self.streams.lock(rt);
        streams.open.retain(|(taken, _)| *taken != seat);
    }

    /// The seats of all clients that are served, ascending.
    pub fn seats<R: Wait>(&self, rt: &R, alloc: Global) -> Result<Vec<usize>, AllocError> {
        let streams = self.streams.lock(rt);
        let mut seats = Vec::with_capacity(alloc, streams.open.len())?;
        for (seat, _) in streams.open.iter() {
            seats.push(*seat)?;
        }
        drop(streams);
        seats.sort_unstable();
        Ok(seats)
    }

    /// Ends all connections, whatever their own threads wait for.
    pub fn end_all<R: Wait>(&self, rt: &R) {
        let mut streams = self.streams.lock(rt);
        streams.are_ended = true;
        for (_, stream) in streams.open.iter() {
            // One that can't be shut has ended already.
            stream.shutdown(Shutdown::Both).ok();
        }
    }

    /// Ends the connection of a seat, whatever its own threads wait for: whether there is a stream
    /// of it.
    pub fn end<R: Wait>(&self, rt: &R, seat: usize) -> bool {
        let streams = self.streams.lock(rt);
        let mut is_found = false;
        for (taken, stream) in streams.open.iter() {
            if *taken == seat {
                is_found = true;
                // One that can't be shut has ended already.
                stream.shutdown(Shutdown::Both).ok();
            }
        }
        is_found
    }

    /// Ends all connections but that of a seat, whatever their own threads wait for.
    pub fn end_others<R: Wait>(&self, rt: &R, seat: usize) {
        let streams = self.streams.lock(rt);
        for (taken, stream) in streams.open.iter() {
            if *taken != seat {
                // One that can't be shut has ended already.
                stream.shutdown(Shutdown::Both).ok();
            }
        }
    }
}
