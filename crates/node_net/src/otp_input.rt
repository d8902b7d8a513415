//! What comes of a link with a stock node of Erlang/OTP, as the node takes it.
ghost use Rattle.std.specs.Prelude.{◌≤◌, length, vec_len};

use crate::input::LinkInput;
use crate::listed::Listed;
use crate::otp_side::{OtpSide, end_by};
use otp_link::{Inward, Taken};
use std::io::{self, ErrorKind, Read};
use std::sync::Wait;
use std::time::{Clock, Instant};

/// The most bytes of a read.
const PIECE: usize = 4_096;

/// What the reader of a link with a stock node reads from: frames of the handshake, then messages
/// of links. What one body of the peer comes to is handed in before the next one is looked at.
#[derive(Drop)]
pub(crate) struct OtpInput<'a, R: Wait + Clock> {
    input: LinkInput<'a, R>,
    side: &'a OtpSide<'a>,
    start: Instant,
    inward: Inward,
    /// What is handed in of the last body, and how much of it was.
    handed: Vec<u8>,
    given: usize,
    ghost within: { given ≤ vec_len handed },
}

impl<'a, R: Wait + Clock> OtpInput<'a, R> {
    pub(crate) fn begin(
        input: LinkInput<'a, R>,
        side: &'a OtpSide<'a>,
        start: Instant,
    ) -> OtpInput<'a, R> {
        let alloc = side.alloc;
        OtpInput {
            input,
            side,
            start,
            inward: Inward::new(alloc),
            handed: Vec::new(alloc),
            given: 0,
        }
    }

    /// Hands in what is ready: how many bytes.
    fn give(&mut self, buf: &mut [u8]) -> usize
        ensures { result ≤ length buf.old }
    {
        let left = &self.handed[self.given..];
        let count = left.len().min(buf.len());
        buf[..count].copy_from_slice(&left[..count]);
        self.given += count;
        count
    }

    /// Looks at the next frame or body that has come, if there is a whole one: whether there was.
    fn turn(&mut self) -> io::Result<bool> {
        let at = self.input.at;
        let now = self.start.elapsed(at.rt)?;
        let listed = Listed { at };
        let mut link = self.side.link.lock(at.rt);
        let taken = link.take(self.inward.front(), &listed, now);
        self.side.count(at.rt, at.lanes.edges(), &link);
        drop(link);
        let taken = match taken {
            Ok(Some(taken)) => taken,
            Ok(None) => return Ok(false),
            Err(fault) => return Err(end_by(at, fault)),
        };
        self.settle(taken)?;
        Ok(true)
    }

    fn settle(&mut self, taken: Taken) -> io::Result<()> {
        let Taken { used, handed, owed } = taken;
        self.inward.use_up(used);
        self.given = 0;
        self.handed = handed;
        self.answer(&owed)
    }

    /// Sends bodies to the peer, if there are any.
    fn answer(&self, bodies: &[u8]) -> io::Result<()> {
        if bodies.is_empty() {
            return Ok(());
        }
        self.input.outlet.send(self.input.at, bodies)
    }

    /// Reads what comes, and asks the peer again where that is due: whether the stream goes on.
    fn fill(&mut self) -> io::Result<bool> {
        let mut piece = [0u8; PIECE];
        let read = self.input.read(&mut piece);
        self.ask()?;
        let count = read?;
        if self.inward.push(&piece[..count]).is_err() {
            return Err(io::Error::from(ErrorKind::OutOfMemory));
        }
        Ok(count > 0)
    }

    fn ask(&self) -> io::Result<()> {
        let at = self.input.at;
        let now = self.start.elapsed(at.rt)?;
        // (its lock isn't held in the write)
        let asked = self.side.link.lock(at.rt).ask(now);
        match asked {
            Ok(bodies) => self.answer(&bodies),
            Err(_) => Err(io::Error::from(ErrorKind::OutOfMemory)),
        }
    }
}

impl<R: Wait + Clock> Read for OtpInput<'_, R> {
    fn read(&mut self, buf: &mut [u8]) -> io::Result<usize> {
        for _ in self.input.at.rt.forever() {
            if self.given < self.handed.len() {
                return Ok(self.give(buf));
            }
            if !self.turn()? && !self.fill()? {
                return Ok(0);
            }
        }
        unreachable!()
    }
}
