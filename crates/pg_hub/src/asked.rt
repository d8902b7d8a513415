//! The node as its connections see it. A call that meets a full audit, or no memory, is answered by
//! the next life.
use crate::hub::Hub;
use dist_types::OutOfMemory;
use pg_asked::{Asked, Clients};
use pg_log::{Level, Log};
use pg_session::{Next, Seen};
use std::alloc::Global;
use std::sync::Wait;
use std::sync::atomic::{AtomicBool, Ordering};
use std::time::Clock;

/// The seat of standard input and output.
pub(crate) const OPERATOR: usize = 0;

impl Asked for Hub {
    fn alloc(&self) -> Global {
        self.alloc
    }

    fn log(&self) -> &Log {
        &self.log
    }

    fn clients(&self) -> &Clients {
        &self.clients
    }

    fn enter<R: Wait>(&self, rt: &R, others: usize) -> Option<(usize, Seen)> {
        if self.signals.is_draining() {
            return None;
        }
        for _ in 0..2 {
            if let Ok(entered) = self.try_enter(rt, others) {
                return entered;
            }
            self.node.shared.lock(rt).let_go();
        }
        self.want_memory(rt);
        None
    }

    fn leave<R: Wait + Clock>(&self, rt: &R, seat: usize) {
        self.readers.leave(seat);
        for _ in rt.forever() {
            self.wait_for_room(rt);
            let Some(promise) = self.promise_of_an_end(rt, seat) else {
                return;
            };
            let call = self.let_through(rt, seat, promise);
            let had_one = !self.signals.is_quitting() && self.leave_one(rt, seat);
            self.has_called(rt, call);
            if !had_one {
                return;
            }
        }
        unreachable!()
    }

    fn answer<R: Wait + Clock>(
        &self,
        rt: &R,
        seat: usize,
        line: &[u8],
        out: &mut Vec<u8>,
    ) -> Result<Next, OutOfMemory> {
        let promise = self.promise_of_line(rt, seat, line);
        let call = self.let_through(rt, seat, promise);
        // From here to its answer a line waits for no client.
        self.crowd.enter();
        let answered = self.answer_line(rt, seat, line, out);
        self.crowd.leave(rt);
        self.has_called(rt, call);
        answered
    }

    fn let_go_first<R: Wait>(&self, rt: &R) {
        self.crowd.let_go_first(rt);
    }

    // Much that is no news counts, too: who has been told of it needs its entries no more.
    fn wait_for_news<R: Wait>(
        &self,
        rt: &R,
        seat: usize,
        seen: Seen,
        has_ended: &AtomicBool,
    ) -> bool {
        let watches = self.readers.has_monitors(seat);
        let told = if watches {
            &self.node.news
        } else {
            &self.notices.told
        };
        let shared = told.wait_while(rt, self.node.shared.lock(rt), |shared| {
            self.may_rest(seat, watches, seen, shared) && !has_ended.load(Ordering::SeqCst)
        });
        drop(shared);
        !self.signals.is_quitting() && !has_ended.load(Ordering::SeqCst)
    }

    fn tell<R: Wait + Clock>(
        &self,
        rt: &R,
        seat: usize,
        out: &mut Vec<u8>,
    ) -> Result<Option<Seen>, OutOfMemory> {
        self.follow(rt);
        let house = self.house.read(rt);
        let Some(session) = house.sessions.get(seat) else {
            return Ok(None);
        };
        let mut session = session.lock(rt);
        self.readers.begin_to_ask(seat);
        match self.tell_session(rt, seat, &mut session, out) {
            Ok(seen) => {
                self.readers.note(seat, seen.entries(), session.monitors());
                self.signals.count_told(out.as_slice());
                Ok(Some(seen))
            }
            Err(OutOfMemory) => {
                drop(session);
                self.lack_news(rt, seat);
                Err(OutOfMemory)
            }
        }
    }

    // Standard output can't be ended: it is told when it is read again.
    fn gives_up(&self, seat: usize) -> bool {
        let gives_up = seat != OPERATOR && self.readers.is_behind(seat);
        if gives_up {
            self.readers.leave(seat);
        }
        gives_up
    }

    fn wait_for_room<R: Wait>(&self, rt: &R) {
        let shared = self
            .node
            .moved
            .wait_while(rt, self.node.shared.lock(rt), |shared| {
                self.is_ending(shared) && !self.signals.is_quitting()
            });
        drop(shared);
    }

    fn want_memory<R: Wait>(&self, rt: &R) {
        Hub::want_memory(self, rt);
    }

    fn lose_line<R: Wait>(&self, rt: &R, seat: usize) {
        self.node.shared.lock(rt).let_go();
        if seat == OPERATOR && self.signals.lose_line() {
            self.want_memory(rt);
        }
    }

    fn wake<R: Wait>(&self, rt: &R) {
        Hub::wake(self, rt);
    }

    fn drain<R: Wait + Clock>(&self, rt: &R, seat: usize) {
        self.signals.drain();
        self.log.tell(rt, Level::Info, "draining", &[]);
        self.clients.end_others(rt, seat);
        self.wake(rt);
        self.leave(rt, seat);
        self.leave(rt, OPERATOR);
        self.wait_until_left(rt);
        self.wait_until_told(rt);
    }

    fn is_draining(&self) -> bool {
        self.signals.is_draining()
    }

    fn quit<R: Wait>(&self, rt: &R) {
        Hub::quit(self, rt);
    }

    fn is_quitting(&self) -> bool {
        self.signals.is_quitting()
    }
}
