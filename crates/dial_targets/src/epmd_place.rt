//! Where a node is that EPMD at its host is asked for.
use crate::dial_fault::DialFault;
use dist_types::{NodeName, OutOfMemory};
use epmd::{AskFault, EpmdFault, ask_port, halves};
use std::alloc::Global;
use std::io::ErrorKind;
use std::net::{Net, TcpListener, TcpStream, ToSocketAddrs};
use std::time::{Clock, Duration};

/// EPMD at the host of a node, and the node's name there.
#[derive(Debug, Drop)]
pub(crate) struct EpmdPlace {
    alloc: Global,
    /// That behind the `@` of the node's name.
    host: String,
    /// That before it.
    name: String,
    /// That of EPMD.
    port: u16,
}

impl EpmdPlace {
    /// That of this node, of whose host EPMD is asked at this port.
    pub(crate) fn of(
        alloc: Global,
        peer: &NodeName,
        port: u16,
    ) -> Result<Option<EpmdPlace>, OutOfMemory> {
        let Some((name, host)) = halves(peer.as_bytes()) else {
            return Ok(None);
        };
        Ok(Some(EpmdPlace {
            alloc,
            host: text(alloc, host)?,
            name: text(alloc, name)?,
            port,
        }))
    }

    /// As it is shown.
    pub(crate) fn shown(&self) -> Result<String, OutOfMemory> {
        let (host, port) = (self.host.as_str(), self.port);
        Ok(format!(in self.alloc; "epmd@{host}:{port}")?)
    }

    /// Connects to the node, whose port EPMD is asked for first. Each step has this time.
    pub(crate) fn connect<R>(&self, rt: &R, time: Duration) -> Result<TcpStream, DialFault>
    where
        R: Net<Listener = TcpListener, Stream = TcpStream> + Clock,
    {
        let stream = self.connect_to_epmd(rt, time)?;
        match ask_port(rt, self.alloc, &stream, self.name.as_bytes(), time) {
            Ok(port) => self.connect_at(rt, port, time),
            Err(fault) => Err(told_of(fault)),
        }
    }

    /// Connects to EPMD, which isn't there where nobody answers.
    fn connect_to_epmd<R>(&self, rt: &R, time: Duration) -> Result<TcpStream, DialFault>
    where
        R: Net<Listener = TcpListener, Stream = TcpStream>,
    {
        match self.connect_at(rt, self.port, time) {
            Err(DialFault::Refused | DialFault::Timeout | DialFault::Unreachable) => {
                Err(DialFault::NoEpmd)
            }
            connected => connected,
        }
    }

    fn connect_at<R>(&self, rt: &R, port: u16, time: Duration) -> Result<TcpStream, DialFault>
    where
        R: Net<Listener = TcpListener, Stream = TcpStream>,
    {
        let host = self.host.as_str();
        match format!(in self.alloc; "{host}:{port}") {
            Ok(place) => connect(rt, place.as_str(), time),
            Err(_) => Err(DialFault::System),
        }
    }
}

/// Why EPMD couldn't be asked, or what it has answered.
fn told_of(fault: AskFault) -> DialFault {
    match fault {
        AskFault::Answer(EpmdFault::Refused) => DialFault::Unregistered,
        AskFault::Answer(EpmdFault::OutOfMemory) | AskFault::Stream(ErrorKind::OutOfMemory) => {
            DialFault::System
        }
        _ => DialFault::NoEpmd,
    }
}

/// Connects to the first address of HOST:PORT that answers. Else it is told what the first one
/// said, since resolvers put addresses last to which no way leads.
pub(crate) fn connect<R>(rt: &R, place: &str, time: Duration) -> Result<TcpStream, DialFault>
where
    R: Net<Listener = TcpListener, Stream = TcpStream>,
{
    let addrs = match place.to_socket_addrs(rt) {
        Ok(addrs) => addrs,
        Err(error) => return Err(DialFault::of_look_up(&error)),
    };
    let mut first = None;
    for addr in addrs {
        match TcpStream::connect_timeout(rt, &addr, time) {
            Ok(stream) => return Ok(stream),
            Err(error) => first = first.or(Some(DialFault::of(error.kind()))),
        }
    }
    Err(first.unwrap_or(DialFault::NoHost))
}

/// A part of a node's name, which is of ASCII.
fn text(alloc: Global, bytes: &[u8]) -> Result<String, OutOfMemory> {
    Ok(String::from_str(alloc, str::from_utf8(bytes).unwrap_or(""))?)
}
