//! What connections are told unasked. Standard output, which can't be ended, goes on where others
//! end.
use crate::asked::OPERATOR;
use crate::hub::Hub;
use crate::lost::Lost;
use dist_types::OutOfMemory;
use pg_session::{Seen, Session};
use pg_text::put_word;
use std::sync::Wait;
use std::time::Clock;

/// What a connection is told that hasn't read for too long.
const BEHIND: &str = "! behind\n";

impl Hub {
    /// Adds the news for a session, that of this seat.
    pub(crate) fn tell_session<R: Wait + Clock>(
        &self,
        rt: &R,
        seat: usize,
        session: &mut Session,
        out: &mut Vec<u8>,
    ) -> Result<Seen, OutOfMemory> {
        if seat == OPERATOR && self.readers.is_behind(seat) {
            self.begin_again(rt, seat, session, out)?;
        }
        let lost = Lost {
            rt,
            links: self.link_notes(),
        };
        session.tell(rt, &self.node, &lost, self.keeping.stale(), out)
    }

    /// Adds that a connection hasn't read for too long. Its monitors end, and it is told what
    /// happens from now on: of what it has missed the node may keep nothing.
    fn begin_again<R: Wait>(
        &self,
        rt: &R,
        seat: usize,
        session: &mut Session,
        out: &mut Vec<u8>,
    ) -> Result<(), OutOfMemory> {
        session.put_restart(out)?;
        put_word(BEHIND, out)?;
        for _ in 0..u64::MAX {
            if !session.leave_monitor(rt, &self.node) {
                break;
            }
        }
        let mut roster = self.roster.lock(rt);
        let shared = self.node.shared.lock(rt);
        let seen = session.open(self.alloc, shared.core(), &mut roster)?;
        self.readers.enter(seat, seen.entries());
        Ok(())
    }

    /// There was no memory for the news of a seat. Its connection ends; where it can't, this life
    /// does.
    pub(crate) fn lack_news<R: Wait>(&self, rt: &R, seat: usize) {
        if seat == OPERATOR {
            self.want_memory(rt);
        } else {
            self.node.shared.lock(rt).let_go();
        }
    }
}
