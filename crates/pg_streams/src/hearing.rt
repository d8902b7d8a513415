//! What somebody still says whose connection is to end: a socket that is closed with unread bytes
//! takes the last answer from who wrote them.
use std::io::{self, Read};
use std::net::TcpStream;
use std::os::unix::net::UnixStream;
use std::sync::atomic::{AtomicUsize, Ordering};
use std::time::{Clock, Duration, Instant};

/// The milliseconds for which somebody is heard out at most.
const HEARING: u64 = 300;

/// The most threads that hear somebody out at once.
const MOST: usize = 8;

/// How many bytes are read at a time.
const PIECE: usize = 4_096;

/// A connection whose reads may have a limit of time.
pub trait Hearable {
    fn limit(&self, time: Duration) -> io::Result<()>;

    fn hear(&self, piece: &mut [u8]) -> io::Result<usize>;
}

impl Hearable for TcpStream {
    fn limit(&self, time: Duration) -> io::Result<()> {
        self.set_read_timeout(Some(time))
    }

    fn hear(&self, piece: &mut [u8]) -> io::Result<usize> {
        let mut reader = self;
        reader.read(piece)
    }
}

impl Hearable for UnixStream {
    fn limit(&self, time: Duration) -> io::Result<()> {
        self.set_read_timeout(Some(time))
    }

    fn hear(&self, piece: &mut [u8]) -> io::Result<usize> {
        let mut reader = self;
        reader.read(piece)
    }
}

/// Reads until the other end is silent for good, or for as long as it is heard out.
pub fn hear_out<R: Clock, S: Hearable>(rt: &R, stream: &S) -> io::Result<()> {
    let start = Instant::now(rt)?;
    let limit = Duration::from_millis(HEARING);
    for _ in 0..u64::MAX {
        let left = limit.saturating_sub(start.elapsed(rt)?);
        if left.is_zero() {
            return Ok(());
        }
        stream.limit(left)?;
        if is_at_end(stream)? {
            return Ok(());
        }
    }
    Ok(())
}

/// Reads once: whether nothing more comes.
pub fn is_at_end<S: Hearable>(stream: &S) -> io::Result<bool> {
    let mut piece = [0u8; PIECE];
    Ok(stream.hear(&mut piece)? == 0)
}

/// The threads that hear out who isn't served.
#[derive(Drop)]
pub struct Hearers {
    count: AtomicUsize,
}

impl Hearers {
    pub fn new() -> Hearers {
        Hearers {
            count: AtomicUsize::new(0),
        }
    }

    /// Counts one more: whether there may be one.
    pub fn add(&self) -> bool {
        if self.count.fetch_add(1, Ordering::SeqCst) < MOST {
            return true;
        }
        self.remove();
        false
    }

    pub fn remove(&self) {
        self.count.fetch_sub(1, Ordering::SeqCst);
    }
}
