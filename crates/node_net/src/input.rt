//! What comes of a link, within its limits of time.
use crate::guard::ReflectionGuard;
use crate::output::Outlet;
use crate::patience::HostedLink;
use crate::progress::Progress;
use dial_targets::Looks;
use dist_types::{Flags, after_kind, u16_at, u64_at};
use link_notes::Ending;
use otp_link::is_stock;
use std::io::{self, ErrorKind, Read};
use std::net::TcpStream;
use std::sync::Wait;
use std::time::{Clock, Duration, Instant};

/// After so many bytes of a handshake no more are read: a whole one has some hundreds, and the
/// audit keeps what came.
const LONGEST_HANDSHAKE: usize = 1_024;

/// How far a link is.
#[derive(Drop)]
pub(crate) enum Stage {
    /// Begun then, and so many bytes have come; a link that this node has dialled is guarded.
    Handshake(Instant, usize, Option<ReflectionGuard>),
    /// Nothing has come for so many pulses.
    Up(u32),
}

/// What the reader of a link reads from. Until the link is up all reads together have the time of a
/// handshake; then each waits for a pulse, and the link is lost after eight of them without a byte.
#[derive(Drop)]
pub(crate) struct LinkInput<'a, R: Wait + Clock> {
    pub(crate) at: &'a HostedLink<'a, R>,
    pub(crate) stream: &'a TcpStream,
    pub(crate) outlet: &'a Outlet<'a>,
    pub(crate) progress: &'a Progress,
    pub(crate) stage: Stage,
    pub(crate) looks: Looks,
    /// The peer has opened the link, where nodes of this program do.
    pub(crate) is_native: bool,
}

impl<R: Wait + Clock> LinkInput<'_, R> {
    /// Sets how long the next read may wait.
    fn limit(&mut self) -> io::Result<()> {
        let Stage::Handshake(start, heard, guard) = &self.stage else {
            return Ok(());
        };
        if self.progress.is_up() {
            if guard.is_some() {
                self.outlet.has_come_up();
            }
            self.stage = Stage::Up(0);
            return self.stream.set_read_timeout(Some(self.looks.time));
        }
        if *heard > LONGEST_HANDSHAKE {
            return Err(io::Error::from(ErrorKind::InvalidData));
        }
        let HostedLink { rt, lanes, .. } = *self.at;
        let left = lanes.limits().setup.saturating_sub(start.elapsed(rt)?);
        if left.is_zero() {
            return Err(io::Error::from(ErrorKind::TimedOut));
        }
        self.stream.set_read_timeout(Some(left))
    }

    /// Looks at what has come, before it is handed in.
    fn look(&mut self, piece: &[u8]) -> io::Result<()> {
        match &mut self.stage {
            Stage::Handshake(_, heard, guard) => {
                if self.is_native && *heard == 0 {
                    look_for_stock(self.at, piece);
                }
                *heard = heard.saturating_add(piece.len());
                match guard {
                    Some(guard) => guard.look(self.at.rt, self.at.lanes, piece),
                    None => Ok(()),
                }
            }
            Stage::Up(silent) => {
                *silent = 0;
                Ok(())
            }
        }
    }

    /// Nothing has come in time: the read is to be tried again, until that is too often.
    fn wait_on(&mut self) -> ErrorKind {
        match &mut self.stage {
            Stage::Up(silent) if *silent < self.looks.most.saturating_sub(1) => {
                *silent += 1;
                ErrorKind::Interrupted
            }
            Stage::Up(_) => {
                self.at.note(Ending::Silent);
                ErrorKind::TimedOut
            }
            Stage::Handshake(..) => ErrorKind::TimedOut,
        }
    }
}

/// Counts a stock node that has connected where nodes of this program do: the flags of the Name
/// that begins here behind its length tell it (Distribution Protocol, Distribution Handshake). That
/// is all that is looked at of it beside the node.
fn look_for_stock<R: Wait + Clock>(at: &HostedLink<'_, R>, piece: &[u8]) {
    if let Some((_, body)) = u16_at(piece)
        && let Some(rest) = after_kind(b'N', body)
        && let Some((flags, _)) = u64_at(rest)
        && is_stock(Flags(flags))
    {
        at.lanes.counts().stock_node();
        at.node.wake(at.rt);
    }
}

impl<R: Wait + Clock> Read for LinkInput<'_, R> {
    fn read(&mut self, buf: &mut [u8]) -> io::Result<usize> {
        self.limit()?;
        let mut stream = self.stream;
        let read = stream.read(buf);
        self.outlet.tick(self.at)?;
        match read {
            Ok(count) => {
                self.look(&buf[..count])?;
                Ok(count)
            }
            Err(error) if error.kind() == ErrorKind::WouldBlock => {
                Err(io::Error::from(self.wait_on()))
            }
            Err(error) => Err(error),
        }
    }
}
