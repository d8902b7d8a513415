//! A reader that gives a byte a read, and a writer that takes a byte a write, each until it fails.
ghost use Rattle.std.specs.Prelude.{◌≡◌, true};

use dist_types::OutOfMemory;
use node_threads::LinkOut;
use std::alloc::Global;
use std::io::{self, Error, ErrorKind, Read, Write};

/// Gives these bytes, one a read, and fails in place of the one at that place.
#[derive(Drop)]
pub struct Giving<'a> {
    pub bytes: &'a [u8],
    pub at: usize,
    pub fails_at: usize,
}

impl Read for Giving<'_> {
    fn read(&mut self, buf: &mut [u8]) -> io::Result<usize> {
        if self.at == self.fails_at {
            return Err(Error::from(ErrorKind::ConnectionReset));
        }
        let (Some(byte), Some(place)) = (self.bytes.get(self.at), buf.first_mut()) else {
            return Ok(0);
        };
        *place = *byte;
        self.at += 1;
        Ok(1)
    }
}

/// Takes a byte a write, and fails once it has so many.
#[derive(Drop)]
pub struct Taking {
    pub taken: Vec<u8>,
    pub fails_at: usize,
    /// How many writes came behind the failed one.
    pub late: u32,
    has_failed: bool,
    pub is_hung_up: bool,
}

impl Taking {
    pub fn new(alloc: Global, fails_at: usize) -> Result<Taking, OutOfMemory> {
        Ok(Taking {
            taken: Vec::with_capacity(alloc, fails_at)?,
            fails_at,
            late: 0,
            has_failed: false,
            is_hung_up: false,
        })
    }
}

impl Write for Taking {
    fn write(&mut self, buf: &[u8]) -> io::Result<usize> {
        if self.has_failed {
            self.late = self.late.saturating_add(1);
        }
        let Some(byte) = buf.first() else {
            return Ok(0);
        };
        if self.taken.len() >= self.fails_at || self.taken.push(*byte).is_err() {
            self.has_failed = true;
            return Err(Error::from(ErrorKind::BrokenPipe));
        }
        Ok(1)
    }

    fn flush(&mut self) -> io::Result<()> {
        Ok(())
    }
}

impl LinkOut for Taking {
    ghost is_hung_up = { λ taking. taking.is_hung_up ≡ true };

    fn hang_up(&mut self) {
        self.is_hung_up = true;
    }
}
