//! A connection to EPMD.
ghost use Rattle.std.specs.Prelude.{◌≤◌, length, IfOk};

use crate::alive::{Alive, alive_answer, put_alive};
use crate::fault::EpmdFault;
use crate::port::{port_answer, port_of, put_port_please};
use std::alloc::Global;
use std::io::{self, ErrorKind, Read, Write};
use std::net::TcpStream;
use std::time::{Clock, Duration, Instant};
use thiserror::Error;

/// The most bytes of an answer that are read.
const MOST: usize = 1_024;

/// The bytes of an answer to ALIVE2_REQ.
const ANSWER: usize = 6;

/// Why EPMD can't be asked, or has no answer that helps.
#[derive(Clone, Copy, Debug, PartialEq, Eq, Drop, Error)]
pub enum AskFault {
    #[error("{0}")]
    Answer(EpmdFault),
    /// The connection has failed.
    #[error("the connection to EPMD has failed")]
    Stream(ErrorKind),
}

impl From<EpmdFault> for AskFault {
    fn from(fault: EpmdFault) -> AskFault {
        AskFault::Answer(fault)
    }
}

impl From<io::Error> for AskFault {
    fn from(error: io::Error) -> AskFault {
        AskFault::Stream(error.kind())
    }
}

/// Registers a node over a connection that was just made: the creation that EPMD gives, within this
/// time. The node is registered while the connection lasts.
pub fn register<R: Clock>(
    rt: &R,
    alloc: Global,
    stream: &TcpStream,
    alive: &Alive<'_>,
    time: Duration,
) -> Result<u32, AskFault> {
    let mut request = Vec::new(alloc);
    put_alive(alive, &mut request)?;
    let mut bytes = [0; ANSWER];
    let count = ask(rt, stream, request.as_slice(), &mut bytes, time)?;
    let creation = alive_answer(&bytes[..count])?;
    Ok(creation)
}

/// Asks for the port of a node, by its name up to the `@`, over a connection that was just made,
/// within this time.
pub fn ask_port<R: Clock>(
    rt: &R,
    alloc: Global,
    stream: &TcpStream,
    name: &[u8],
    time: Duration,
) -> Result<u16, AskFault> {
    let mut request = Vec::new(alloc);
    put_port_please(name, &mut request)?;
    let mut bytes = [0; MOST];
    let count = ask(rt, stream, request.as_slice(), &mut bytes, time)?;
    let answer = port_answer(&bytes[..count])?;
    let port = port_of(&answer, name)?;
    Ok(port)
}

/// Writes a request, and reads its answer: how many bytes have come.
fn ask<R: Clock>(
    rt: &R,
    stream: &TcpStream,
    request: &[u8],
    bytes: &mut [u8],
    time: Duration,
) -> io::Result<usize>
    ensures { IfOk result (λ count. count ≤ length bytes.old) }
{
    let begun = Instant::now(rt)?;
    stream.set_write_timeout(Some(time))?;
    let mut stream = stream;
    stream.write_all(request)?;
    let limited = Limited {
        rt,
        stream,
        begun,
        time,
    };
    read_some(&limited, bytes)
}

/// A connection whose reads all together have this time. One byte now and then doesn't lengthen it.
#[derive(Drop)]
struct Limited<'a, R: Clock> {
    rt: &'a R,
    stream: &'a TcpStream,
    begun: Instant,
    time: Duration,
}

impl<R: Clock> Limited<'_, R> {
    /// Sets how long the next read may wait.
    fn limit(&self) -> io::Result<()> {
        let left = self.time.saturating_sub(self.begun.elapsed(self.rt)?);
        if left.is_zero() {
            return Err(io::Error::from(ErrorKind::TimedOut));
        }
        self.stream.set_read_timeout(Some(left))
    }
}

/// Reads until the bytes are full, or the stream ends: how many have come. A refused request has a
/// short answer, behind which the stream ends.
fn read_some<R: Clock>(limited: &Limited<'_, R>, bytes: &mut [u8]) -> io::Result<usize>
    ensures { IfOk result (λ count. count ≤ length bytes.old) }
{
    let mut stream = limited.stream;
    let mut count = 0;
    for _ in 0..MOST {
        if count == bytes.len() {
            break;
        }
        limited.limit()?;
        match stream.read(&mut bytes[count..]) {
            Ok(0) => break,
            Ok(more) => count += more,
            Err(error) if error.kind() == ErrorKind::Interrupted => {}
            Err(error) => return Err(error),
        }
    }
    Ok(count)
}
