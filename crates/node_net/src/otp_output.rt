//! What goes out on a link with a stock node of Erlang/OTP, of what the node gives.
use crate::otp_side::{OtpSide, end_by};
use crate::output::LinkOutput;
use node_threads::LinkOut;
use std::io::{self, Write};
use std::sync::Wait;
use std::time::Clock;

/// What the writer of a link with a stock node writes to: whole frames and messages at a time.
#[derive(Drop)]
pub(crate) struct OtpOutput<'a, R: Wait + Clock> {
    output: LinkOutput<'a, R>,
    side: &'a OtpSide<'a>,
}

impl<'a, R: Wait + Clock> OtpOutput<'a, R> {
    pub(crate) fn begin(output: LinkOutput<'a, R>, side: &'a OtpSide<'a>) -> OtpOutput<'a, R> {
        OtpOutput { output, side }
    }

    /// What the peer is sent of these frames and messages.
    fn said(&self, batch: &[u8]) -> io::Result<Vec<u8>> {
        let at = self.output.at;
        let edges = at.lanes.edges();
        let mut link = self.side.link.lock(at.rt);
        let mut life = edges.life(at.rt);
        let said = link.send(batch, &mut life);
        if edges.note_refused_atoms(life.refused()) {
            at.node.wake(at.rt);
        }
        drop(life);
        self.side.count(at.rt, edges, &link);
        drop(link);
        match said {
            Ok(bytes) => Ok(bytes),
            Err(fault) => Err(end_by(at, fault)),
        }
    }
}

impl<R: Wait + Clock> Write for OtpOutput<'_, R> {
    fn write(&mut self, buf: &[u8]) -> io::Result<usize> {
        let bytes = self.said(buf)?;
        if !bytes.is_empty() {
            self.output.write_all(&bytes)?;
        }
        Ok(buf.len())
    }

    fn flush(&mut self) -> io::Result<()> {
        Ok(())
    }
}

impl<R: Wait + Clock> LinkOut for OtpOutput<'_, R> {
    fn hang_up(&mut self) {
        self.output.hang_up();
    }
}
