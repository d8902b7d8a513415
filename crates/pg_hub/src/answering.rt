//! What connections are answered, and when they are told.
use crate::asked::OPERATOR;
use crate::hub::Hub;
use crate::reporting::Reporting;
use dist_types::OutOfMemory;
use node_threads::Shared;
use pg_asked::Asked;
use pg_session::{Lack, Next, Seen, Session};
use pg_text::{first_word, put_word};
use std::sync::Wait;
use std::time::Clock;

/// What a query is answered for which the node finds no memory.
const UNREAD: &[u8] = b"memory\n";

/// What a line is answered for whose answer there is no memory.
const UNANSWERED: &str = "fault out of memory\n";

/// The commands of calls by which a client changes more than its monitors.
const CHANGES: [&str; 10] = [
    "allow",
    "cookie",
    "cookie_for",
    "disconnect",
    "exit",
    "join",
    "leave",
    "spawn",
    "start",
    "stop",
];

/// What has become of a line. But for an answer nothing is added.
#[derive(Clone, Copy)]
enum Tried {
    Answered(Next),
    /// That was wanting for its call, which wasn't made.
    Lacks(Lack),
    /// There is no memory for its answer, and it has left nothing behind.
    Unanswered,
    /// There is no memory for the answer to a call that was made.
    Lost,
}

impl Hub {
    /// Adds the answer to a line of a seat, for which there is room. A call that meets a full
    /// audit, or no memory, is answered by the next life. Clients end no life by what only reads.
    pub(crate) fn answer_line<R: Wait + Clock>(
        &self,
        rt: &R,
        seat: usize,
        line: &[u8],
        out: &mut Vec<u8>,
    ) -> Result<Next, OutOfMemory> {
        let mut has_let_go = false;
        for _ in rt.forever() {
            match self.try_answer(rt, seat, line, out) {
                Tried::Answered(next) => return Ok(next),
                Tried::Lacks(Lack::Room) => {}
                // A call that found no memory has had the node let go what it can.
                Tried::Lacks(Lack::Memory) if !has_to_be_made(seat, line) => {
                    return self.give_no_answer(rt, out);
                }
                Tried::Unanswered if has_let_go && !has_to_be_made(seat, line) => {
                    return self.give_no_answer(rt, out);
                }
                Tried::Lacks(Lack::Memory) | Tried::Unanswered if has_let_go => {
                    self.want_memory(rt);
                }
                Tried::Lacks(Lack::Memory) | Tried::Unanswered => {
                    self.node.shared.lock(rt).let_go();
                    has_let_go = true;
                }
                Tried::Lost => {
                    // A process may have been spawned that nobody knows of: it ends with this life.
                    self.want_memory(rt);
                    return Err(OutOfMemory);
                }
            }
            self.wait_for_room(rt);
        }
        unreachable!()
    }

    /// Adds that there is no memory for an answer. Where there is none for that either, the next
    /// life is to begin.
    fn give_no_answer<R: Wait>(&self, rt: &R, out: &mut Vec<u8>) -> Result<Next, OutOfMemory> {
        let added = put_word(UNANSWERED, out);
        if added.is_err() {
            self.want_memory(rt);
        }
        added?;
        Ok(Next::Line)
    }

    /// Answers a line in this life, unless something is wanting for it.
    fn try_answer<R: Wait + Clock>(
        &self,
        rt: &R,
        seat: usize,
        line: &[u8],
        out: &mut Vec<u8>,
    ) -> Tried {
        self.signals.read_line();
        let house = self.house.read(rt);
        let Some(session) = house.sessions.get(seat) else {
            return Tried::Answered(Next::Line);
        };
        let mut session = session.lock(rt);
        let start = out.len();
        if session.put_restart(out).is_err() {
            out.truncate(start);
            return Tried::Unanswered;
        }
        let start = out.len();
        let tried = self.ask_session(rt, seat, &mut session, line, out);
        match tried {
            Tried::Answered(_) => {}
            _ => out.truncate(start),
        }
        tried
    }

    /// The same, of a session that has been told of this life.
    fn ask_session<R: Wait + Clock>(
        &self,
        rt: &R,
        seat: usize,
        session: &mut Session,
        line: &[u8],
        out: &mut Vec<u8>,
    ) -> Tried {
        let start = out.len();
        let (calls, monitors) = (session.calls(), session.monitors());
        let surroundings = Reporting {
            rt,
            hub: self,
            line,
        };
        let answered = session.answer(rt, &self.node, &surroundings, line, out);
        let Ok(answered) = answered else {
            return self.take_back(rt, session, calls, monitors);
        };
        self.begin_to_watch(rt, seat, session);
        if self.signals.is_quitting() {
            return Tried::Answered(answered.next);
        }
        match answered.lack {
            Some(lack) => Tried::Lacks(lack),
            None if out.get(start..) == Some(UNREAD) => Tried::Unanswered,
            None => Tried::Answered(answered.next),
        }
    }

    /// What has become of a line for whose answer there is no memory, of a session that had made so
    /// many calls and had so many monitors. A monitor that it has begun is ended.
    fn take_back<R: Wait>(
        &self,
        rt: &R,
        session: &mut Session,
        calls: usize,
        monitors: usize,
    ) -> Tried {
        let made = session.calls();
        if made == calls {
            return Tried::Unanswered;
        }
        if session.monitors() > monitors
            && session.leave_monitor(rt, &self.node)
            && session.calls() > made
        {
            return Tried::Unanswered;
        }
        Tried::Lost
    }

    /// Whether nothing is to be told at a seat that has seen so much, by who has monitors or has
    /// none.
    pub(crate) fn may_rest(&self, seat: usize, watches: bool, seen: Seen, shared: &Shared) -> bool {
        let is_told = if watches {
            !seen.is_behind(shared)
        } else {
            seen.is_of(shared) && !self.notices.are_behind(seen) && !self.readers.has_monitors(seat)
        };
        is_told
            && !seen.lags(shared, self.keeping.rest() as usize)
            && !self.readers.is_to_ask(seat)
            && !self.signals.is_quitting()
    }

    /// Has a connection that has its first monitors wait for news from now on.
    fn begin_to_watch<R: Wait>(&self, rt: &R, seat: usize, session: &Session) {
        if self.readers.begins_to_watch(seat, session.monitors()) {
            drop(self.node.shared.lock(rt));
            self.notices.told.notify_all();
        }
    }
}

/// Whether the next life has to make the call of a line, be there memory to read it or not. By what
/// a client only reads or watches it ends no life.
fn has_to_be_made(seat: usize, line: &[u8]) -> bool {
    let (word, _) = first_word(line);
    seat == OPERATOR || CHANGES.iter().any(|command| command.as_bytes() == word)
}
