//! Seats that are taken by connections, and given back.
use crate::brake::Promise;
use crate::hub::Hub;
use dist_types::OutOfMemory;
use pg_session::Seen;
use std::sync::Wait;

impl Hub {
    pub(crate) fn try_enter<R: Wait>(
        &self,
        rt: &R,
        others: usize,
    ) -> Result<Option<(usize, Seen)>, OutOfMemory> {
        let house = self.house.read(rt);
        let mut left = others;
        for (seat, session) in house.sessions.iter().enumerate() {
            // A seat whose lock somebody has is taken.
            if let Some(mut session) = session.try_lock() {
                if !session.is_open() && left > 0 {
                    left -= 1;
                } else if !session.is_open() {
                    let mut roster = self.roster.lock(rt);
                    let shared = self.node.shared.lock(rt);
                    let seen = session.open(self.alloc, shared.core(), &mut roster)?;
                    self.readers.enter(seat, seen.entries());
                    return Ok(Some((seat, seen)));
                }
            }
        }
        Ok(None)
    }

    pub(crate) fn promise_of_an_end<R: Wait>(&self, rt: &R, seat: usize) -> Option<Promise> {
        let house = self.house.read(rt);
        let session = house.sessions.get(seat)?.lock(rt);
        let shared = self.node.shared.lock(rt);
        Some(Promise::of_an_end(&session, shared.core()))
    }

    /// Ends one thing that a connection had. The lock is free behind each, so that others are
    /// answered meanwhile.
    pub(crate) fn leave_one<R: Wait>(&self, rt: &R, seat: usize) -> bool {
        let house = self.house.read(rt);
        let Some(session) = house.sessions.get(seat) else {
            return false;
        };
        let mut session = session.lock(rt);
        let calls = session.calls();
        let had_one = session.leave_one(rt, self.alloc, &self.node);
        let was_made = session.calls() > calls;
        if had_one && !was_made && !self.node.shared.lock(rt).core().is_full() {
            // What can't be ended for want of memory ends with this life.
            self.want_memory(rt);
        }
        had_one
    }
}
