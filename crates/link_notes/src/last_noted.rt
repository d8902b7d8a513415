//! What was noted of the last links.
use dist_types::OutOfMemory;
use std::alloc::Global;
use std::collections::VecDeque;

/// Of how many links it is kept.
const KEPT: usize = 256;

#[derive(Clone, Copy, Debug, Drop)]
struct Noted<T: Copy> {
    link: u32,
    what: T,
}

/// What was noted of the last links, the oldest first. All memory for it is taken at the start, so
/// that nothing is lost for want of it.
#[derive(Drop)]
pub(crate) struct LastNoted<T: Copy> {
    noted: VecDeque<Noted<T>>,
}

impl<T: Copy> LastNoted<T> {
    pub(crate) fn new(alloc: Global) -> Result<LastNoted<T>, OutOfMemory> {
        let noted = VecDeque::with_capacity(alloc, KEPT)?;
        Ok(LastNoted { noted })
    }

    /// What was noted of a link, if it is one of the last.
    pub(crate) fn of(&self, link: u32) -> Option<T> {
        for noted in self.noted.iter() {
            if noted.link == link {
                return Some(noted.what);
            }
        }
        None
    }

    /// Notes it of a link. The oldest makes room.
    pub(crate) fn note(&mut self, link: u32, what: T) {
        if self.noted.len() >= KEPT {
            self.noted.pop_front();
        }
        self.noted.push_back(Noted { link, what }).ok();
    }

    /// Forgets all.
    pub(crate) fn clear(&mut self) {
        self.noted.clear();
    }
}
