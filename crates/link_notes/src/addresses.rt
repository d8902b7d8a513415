//! Where the other ends of links are.
use crate::last_noted::LastNoted;
use dist_types::OutOfMemory;
use std::alloc::Global;
use std::net::SocketAddr;
use std::sync::{Mutex, Wait};

/// Where the other ends of the last links of a life are. Its lock is an innermost one.
#[derive(Drop)]
pub struct Addresses {
    last: Mutex<LastNoted<SocketAddr>>,
}

impl Addresses {
    pub(crate) fn new(alloc: Global) -> Result<Addresses, OutOfMemory> {
        let last = Mutex::new(LastNoted::new(alloc)?);
        Ok(Addresses { last })
    }

    /// Notes where the other end of a link is. The oldest makes room.
    pub fn note<R: Wait>(&self, rt: &R, link: u32, address: SocketAddr) {
        self.last.lock(rt).note(link, address);
    }

    /// Where the other end of a link is, if it is one of the last.
    pub fn of<R: Wait>(&self, rt: &R, link: u32) -> Option<SocketAddr> {
        self.last.lock(rt).of(link)
    }

    /// Forgets all, since a new life counts its links anew.
    pub(crate) fn clear<R: Wait>(&self, rt: &R) {
        self.last.lock(rt).clear();
    }
}
