//! Writes to a peer that may not read. While one stands still it is seen from time to time whether
//! the node has the link still.
use crate::lanes::Lanes;
use link_notes::Ending;
use node_threads::Node;
use std::io::{self, ErrorKind, Write};
use std::net::TcpStream;
use std::sync::Wait;
use std::time::{Clock, Duration, Instant};

/// The milliseconds between two looks while a write stands still.
const LOOK: u64 = 50;

/// After so many milliseconds without a byte nobody waits for the writer any more.
const STILL: u64 = 1_000;

/// A link that is served, and where.
#[derive(Drop)]
pub(crate) struct HostedLink<'a, R: Wait + Clock> {
    pub(crate) rt: &'a R,
    pub(crate) node: &'a Node,
    pub(crate) lanes: &'a Lanes<'a>,
    pub(crate) link: u32,
}

impl<R: Wait + Clock> HostedLink<'_, R> {
    /// How many frames wait for the link, while the node has it.
    pub(crate) fn waiting(&self) -> Option<usize> {
        self.node.shared.lock(self.rt).core().waiting(self.link)
    }

    /// Notes why the link ends, before the node is told that it is lost.
    pub(crate) fn note(&self, ending: Ending) {
        self.lanes.note(self.rt, self.link, ending);
    }

    /// Writes all of these bytes, however long that takes. An error where nothing goes out for the
    /// time of a tick, which is noted, and soon after the node has given the link up: a peer that
    /// doesn't read would hold the stream open.
    pub(crate) fn write_all(&self, mut stream: &TcpStream, bytes: &[u8]) -> io::Result<()> {
        let mut left = bytes;
        let mut stop = Standstill::begin(self.rt)?;
        for _ in self.rt.forever() {
            if left.is_empty() {
                return Ok(());
            }
            match stream.write(left) {
                Ok(0) => return Err(io::Error::from(ErrorKind::WriteZero)),
                Ok(count) => {
                    (_, left) = left.split_at(count);
                    stop.end(self)?;
                }
                Err(error) if error.kind() == ErrorKind::Interrupted => {}
                Err(error) if error.kind() == ErrorKind::WouldBlock => stop.go_on(self)?,
                Err(error) => return Err(error),
            }
        }
        unreachable!()
    }
}

/// How often a write is to come back where it stands still.
pub(crate) fn look(tick: Duration) -> Duration {
    Duration::from_millis(LOOK).min(tick)
}

/// For how long nothing has gone out.
struct Standstill {
    since: Instant,
    is_noted: bool,
}

impl Drop for Standstill {
    fn drop(self) {
        let Standstill {
            since: _,
            is_noted: _,
        } = self;
    }
}

impl Standstill {
    fn begin<R: Clock>(rt: &R) -> io::Result<Standstill> {
        Ok(Standstill {
            since: Instant::now(rt)?,
            is_noted: false,
        })
    }

    /// Something has gone out.
    fn end<R: Wait + Clock>(&mut self, at: &HostedLink<'_, R>) -> io::Result<()> {
        if self.is_noted {
            at.lanes.note_writer(at.rt, at.link, false);
        }
        *self = Standstill::begin(at.rt)?;
        Ok(())
    }

    /// Nothing could go out again. An error where that lasts too long, or the node has the link no
    /// more.
    fn go_on<R: Wait + Clock>(&mut self, at: &HostedLink<'_, R>) -> io::Result<()> {
        let lasted = self.since.elapsed(at.rt)?;
        if lasted >= at.lanes.limits().tick {
            at.note(Ending::Slow);
            return Err(io::Error::from(ErrorKind::WouldBlock));
        }
        if at.waiting().is_none() {
            return Err(io::Error::from(ErrorKind::NotConnected));
        }
        if !self.is_noted && lasted >= Duration::from_millis(STILL) {
            self.is_noted = true;
            at.lanes.note_writer(at.rt, at.link, true);
            at.node.wake(at.rt);
        }
        Ok(())
    }
}
