//! One connection: a thread answers its lines, and another tells its news.
use dist_types::OutOfMemory;
use pg_asked::Asked;
use pg_session::{Next, Rights, Seen};
use pg_streams::{self, Lines, is_too_long};
use pg_text::put_word;
use std::io::{self, ErrorKind, Write};
use std::sync::atomic::{AtomicBool, Ordering};
use std::sync::{Mutex, Wait};
use std::time::Clock;

/// Behind how many lines in a row a connection lets others go first.
const IN_A_ROW: u32 = 16;

/// How many bytes of room a connection keeps for its next line and its next answer: others need the
/// memory, too.
const KEPT: usize = 65_536;

/// The line that ends the program at once.
const QUIT: &str = "quit";

/// What both threads of a connection share.
#[derive(Drop)]
pub struct Desk<'a, N> {
    pub node: &'a N,
    pub seat: usize,
    rights: Rights,
    /// Held for a whole answer, or for all that there is to tell, so that neither stands inside the
    /// other.
    printing: Mutex<()>,
    has_ended: AtomicBool,
}

impl<'a, N: Asked> Desk<'a, N> {
    pub fn new(node: &'a N, seat: usize, rights: Rights) -> Desk<'a, N> {
        Desk {
            node,
            seat,
            rights,
            printing: Mutex::new(()),
            has_ended: AtomicBool::new(false),
        }
    }

    /// There are no further lines, and nothing is to be told any more.
    pub fn end<R: Wait>(&self, rt: &R) {
        self.has_ended.store(true, Ordering::SeqCst);
        self.node.wake(rt);
    }

    /// Answers lines until there are no more, or one ends the program.
    pub fn answer_all<R: Wait + Clock, L: Lines, W: Write>(
        &self,
        rt: &R,
        lines: &mut L,
        writer: &mut W,
    ) -> io::Result<()> {
        let mut line = Vec::new(self.node.alloc());
        let mut out = Vec::new(self.node.alloc());
        self.answer_each(rt, lines, writer, &mut line, &mut out)
    }

    /// The same, with room for a line and for an answer.
    fn answer_each<R: Wait + Clock, L: Lines, W: Write>(
        &self,
        rt: &R,
        lines: &mut L,
        writer: &mut W,
        line: &mut Vec<u8>,
        out: &mut Vec<u8>,
    ) -> io::Result<()> {
        for _ in rt.forever() {
            for _ in 0..IN_A_ROW {
                if self.node.is_quitting() {
                    return Ok(());
                }
                let asked = match lines.next(line) {
                    pg_streams::Next::Line => Some(line.as_slice()),
                    pg_streams::Next::LostLine => None,
                    pg_streams::Next::End => return Ok(()),
                };
                if self.node.is_draining() {
                    self.hear(rt, asked);
                } else {
                    self.answer_one(rt, asked, out, writer)?;
                }
                trim(line);
                trim(out);
            }
            self.node.let_go_first(rt);
        }
        unreachable!()
    }

    /// Hears a line while the node drains, when none is answered: `quit` ends it at once, as a
    /// signal does.
    fn hear<R: Wait>(&self, rt: &R, line: Option<&[u8]>) {
        let is_quit = matches!(line, Some(line) if line == QUIT.as_bytes());
        if is_quit && matches!(self.rights, Rights::All) {
            self.node.quit(rt);
        }
    }

    /// Answers a line, which may end the program, or one that was lost.
    fn answer_one<R: Wait + Clock, W: Write>(
        &self,
        rt: &R,
        line: Option<&[u8]>,
        out: &mut Vec<u8>,
        writer: &mut W,
    ) -> io::Result<()> {
        let node = self.node;
        node.wait_for_room(rt);
        let printing = self.printing.lock(rt);
        out.clear();
        let next = self.answer(rt, line, out)?;
        if next == Next::Drain {
            node.drain(rt, self.seat);
        }
        let sent = send(writer, out.as_slice());
        drop(printing);
        // Also where the answer can't be written: who has asked for it may be gone.
        if next == Next::Drain || next == Next::Quit {
            node.quit(rt);
        }
        sent
    }

    /// Adds the answer to a line. Without memory for it that is the answer, and then the call may
    /// have been made.
    fn answer<R: Wait + Clock>(
        &self,
        rt: &R,
        line: Option<&[u8]>,
        out: &mut Vec<u8>,
    ) -> io::Result<Next> {
        let fault = match line {
            Some(line) if is_too_long(line) => "fault the line is too long\n",
            Some(line) => {
                if let Ok(next) = self.answer_allowed(rt, line, out) {
                    return Ok(next);
                }
                out.clear();
                "fault out of memory\n"
            }
            None => {
                self.node.lose_line(rt, self.seat);
                "fault out of memory\n"
            }
        };
        match put_word(fault, out) {
            Ok(()) => Ok(Next::Line),
            Err(_) => Err(io::Error::from(ErrorKind::OutOfMemory)),
        }
    }

    /// Adds the answer to a line, if the connection may ask for that.
    fn answer_allowed<R: Wait + Clock>(
        &self,
        rt: &R,
        line: &[u8],
        out: &mut Vec<u8>,
    ) -> Result<Next, OutOfMemory> {
        // Where all is let through a line needn't be read for that.
        let may_ask = match self.rights {
            Rights::All => true,
            Rights::Reads => self.rights.allow(self.node.alloc(), line)?,
        };
        if may_ask {
            return self.node.answer(rt, self.seat, line, out);
        }
        put_word("fault this socket takes reads and monitors alone\n", out)?;
        Ok(Next::Line)
    }

    /// Tells news until the connection or the program ends.
    pub fn tell_all<R: Wait + Clock, W: Write>(
        &self,
        rt: &R,
        seen: Seen,
        writer: &mut W,
    ) -> io::Result<()> {
        let mut out = Vec::new(self.node.alloc());
        self.tell_each(rt, seen, writer, &mut out)
    }

    /// The same, with room for a piece of news.
    fn tell_each<R: Wait + Clock, W: Write>(
        &self,
        rt: &R,
        mut seen: Seen,
        writer: &mut W,
        out: &mut Vec<u8>,
    ) -> io::Result<()> {
        for _ in rt.forever() {
            if !self
                .node
                .wait_for_news(rt, self.seat, seen, &self.has_ended)
            {
                return Ok(());
            }
            let printing = self.printing.lock(rt);
            out.clear();
            if self.node.gives_up(self.seat) {
                return give_up(out, writer);
            }
            match self.node.tell(rt, self.seat, out) {
                Ok(Some(now)) => seen = now,
                Ok(None) => return Ok(()),
                Err(_) => return Err(io::Error::from(ErrorKind::OutOfMemory)),
            }
            send(writer, out.as_slice())?;
            drop(printing);
            trim(out);
        }
        unreachable!()
    }
}

/// Tells a connection that hasn't read for long that it is ended.
fn give_up<W: Write>(out: &mut Vec<u8>, writer: &mut W) -> io::Result<()> {
    match put_word("! behind\n", out) {
        Ok(()) => send(writer, out.as_slice()),
        Err(_) => Err(io::Error::from(ErrorKind::OutOfMemory)),
    }
}

/// Lets go of the room of bytes that aren't needed any more, where it is much.
fn trim(bytes: &mut Vec<u8>) {
    if bytes.capacity() > KEPT {
        bytes.clear();
        bytes.shrink_to_fit();
    }
}

fn send<W: Write>(writer: &mut W, bytes: &[u8]) -> io::Result<()> {
    if bytes.is_empty() {
        return Ok(());
    }
    writer.write_all(bytes)?;
    writer.flush()
}
