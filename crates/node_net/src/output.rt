//! What goes out on a link: frames by its writer, and ticks by its reader.
use crate::patience::{HostedLink, look};
use dial_targets::Limits;
use node_threads::LinkOut;
use std::io::{self, Write};
use std::net::{Shutdown, TcpStream};
use std::sync::atomic::{AtomicBool, Ordering};
use std::sync::{Mutex, Wait};
use std::thread;
use std::time::{Clock, Duration, Instant};

/// A message without a body, which says that this end lives (Distribution Protocol, Protocol
/// between Connected Nodes).
const TICK: [u8; 4] = [0; 4];

/// How the acknowledgement begins, behind its length: the last frame that an end owes to a
/// handshake that it hasn't begun, and the first one of its batch.
const ACK: [u8; 3] = [0, 17, b'a'];

/// The way out of a link, shared by both directions.
#[derive(Drop)]
pub(crate) struct Outlet<'a> {
    stream: &'a TcpStream,
    pulse: Duration,
    /// Whether messages may go out: nothing of the handshake is owed any more.
    is_up: AtomicBool,
    /// When something was written last. The lock is held for a whole batch of frames, or a tick.
    written: Mutex<Instant>,
}

impl<'a> Outlet<'a> {
    /// Of a connection without a link. Its writes come back soon where they stand still.
    pub(crate) fn new<R: Clock>(
        rt: &R,
        stream: &'a TcpStream,
        limits: Limits,
    ) -> io::Result<Outlet<'a>> {
        stream.set_nodelay(true)?;
        stream.set_write_timeout(Some(look(limits.tick)))?;
        Ok(Outlet {
            stream,
            pulse: limits.pulse(),
            is_up: AtomicBool::new(false),
            written: Mutex::new(Instant::now(rt)?),
        })
    }

    /// A link that this end has dialled is up. Nothing waits here for a write that is under way.
    pub(crate) fn has_come_up(&self) {
        self.is_up.store(true, Ordering::SeqCst);
    }

    /// Whether the link has come up.
    pub(crate) fn was_up(&self) -> bool {
        self.is_up.load(Ordering::SeqCst)
    }

    /// Writes a batch of frames.
    pub(crate) fn send<R: Wait + Clock>(
        &self,
        at: &HostedLink<'_, R>,
        batch: &[u8],
    ) -> io::Result<()> {
        let mut written = self.written.lock(at.rt);
        at.write_all(self.stream, batch)?;
        *written = Instant::now(at.rt)?;
        if batch.starts_with(&ACK) {
            self.has_come_up();
        }
        Ok(())
    }

    /// Writes a tick, where nothing has gone out for a pulse. During a write none is needed.
    pub(crate) fn tick<R: Wait + Clock>(&self, at: &HostedLink<'_, R>) -> io::Result<()> {
        let Some(mut written) = self.written.try_lock() else {
            return Ok(());
        };
        if self.was_up() && written.elapsed(at.rt)? >= self.pulse {
            at.write_all(self.stream, &TICK)?;
            *written = Instant::now(at.rt)?;
        }
        Ok(())
    }
}

/// Whether there is more than one message, each behind its length.
fn are_several(batch: &[u8]) -> bool {
    match batch.split_first_chunk() {
        Some((length, rest)) => rest.len() > u32::from_be_bytes(*length) as usize,
        None => false,
    }
}

/// What the writer of a link writes to.
#[derive(Drop)]
pub(crate) struct LinkOutput<'a, R: Wait + Clock> {
    pub(crate) at: &'a HostedLink<'a, R>,
    outlet: &'a Outlet<'a>,
}

impl<'a, R: Wait + Clock> LinkOutput<'a, R> {
    pub(crate) fn begin(at: &'a HostedLink<'a, R>, outlet: &'a Outlet<'a>) -> LinkOutput<'a, R> {
        at.lanes.enter_writer(at.rt, at.link);
        LinkOutput { at, outlet }
    }
}

impl<R: Wait + Clock> Write for LinkOutput<'_, R> {
    /// Writes all. Where several messages had gathered, others may run before the next write.
    fn write(&mut self, buf: &[u8]) -> io::Result<usize> {
        self.outlet.send(self.at, buf)?;
        if are_several(buf) {
            thread::yield_now();
        }
        Ok(buf.len())
    }

    fn flush(&mut self) -> io::Result<()> {
        Ok(())
    }
}

impl<R: Wait + Clock> LinkOut for LinkOutput<'_, R> {
    fn hang_up(&mut self) {
        self.at.lanes.leave_writer(self.at.rt, self.at.link);
        // A socket that can't be shut down has ended already.
        self.outlet.stream.shutdown(Shutdown::Both).ok();
    }
}
