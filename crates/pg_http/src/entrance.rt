//! The address where who looks on connects.
use crate::visitors::Visitors;
use anyhow::{Result, anyhow};
use std::alloc::Global;
use std::hash::RandomState;
use std::io;
use std::net::{Net, Shutdown, SocketAddr, TcpListener, TcpStream};
use std::os::fd::OwnedFd;
use std::random::RandomSource;
use std::sync::Wait;

/// The address where who looks on connects, and the connections there.
#[derive(Drop)]
pub struct PageEntrance {
    pub(crate) alloc: Global,
    pub(crate) listener: TcpListener,
    /// The same socket, as what can be shut. It is made at once, since later there may be no
    /// descriptor for it.
    handle: TcpStream,
    /// Whether this machine alone reaches it.
    pub(crate) is_here: bool,
    pub(crate) visitors: Visitors,
    /// Of the maps of headers: who asks chooses their names.
    pub(crate) keys: RandomState,
}

impl PageEntrance {
    pub fn open<R>(
        rt: &R,
        alloc: Global,
        place: &str,
        words: &impl RandomSource,
    ) -> Result<PageEntrance>
    where
        R: Net<Listener = TcpListener, Stream = TcpStream>,
    {
        let opened = open(rt, alloc, place, words);
        opened.map_err(|error| anyhow!("--http: {place:.60}: {error}"))
    }

    /// Where it is.
    pub fn address(&self) -> io::Result<SocketAddr> {
        self.listener.local_addr()
    }

    /// Wakes who waits for a connection, now and later, and ends all that there are.
    pub fn shut<R: Wait>(&self, rt: &R) {
        // One that can't be shut has failed already.
        self.handle.shutdown(Shutdown::Both).ok();
        self.visitors.end_all(rt);
    }
}

fn open<R>(
    rt: &R,
    alloc: Global,
    place: &str,
    words: &impl RandomSource,
) -> io::Result<PageEntrance>
where
    R: Net<Listener = TcpListener, Stream = TcpStream>,
{
    let listener = TcpListener::bind(rt, place)?;
    let handle = TcpStream::from(OwnedFd::from(listener.try_clone()?));
    let is_here = listener.local_addr()?.ip().is_loopback();
    Ok(PageEntrance {
        alloc,
        listener,
        is_here,
        handle,
        visitors: Visitors::new(alloc),
        keys: RandomState::new(words)?,
    })
}
