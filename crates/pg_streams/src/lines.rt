//! Lines of commands, from a socket or from standard input.
use std::alloc::{AllocError, Global};
use std::collections::VecDeque;
use std::io::{self, BufRead, BufReader, ErrorKind};
use std::sync::{Condvar, Mutex, Wait};

/// The most bytes of a line.
const LONGEST: usize = 4_194_304;

/// The most lines of standard input that are read and not answered yet.
const WAITING: usize = 64;

/// Whether a line was too long to be kept whole.
pub fn is_too_long(line: &[u8]) -> bool {
    line.len() > LONGEST
}

/// What comes next.
#[derive(Clone, Copy, Debug, PartialEq, Eq)]
pub enum Next {
    Line,
    /// A line for which there was no memory.
    LostLine,
    End,
}

/// Reads the next line over the last, without its line feed. Of one that is too long the end is
/// left out.
pub fn read_line<B: BufRead>(reader: &mut B, line: &mut Vec<u8>) -> io::Result<Next> {
    line.clear();
    let mut is_lost = false;
    for _ in 0..u64::MAX {
        let (used, is_whole) = match reader.fill_buf() {
            Ok(bytes) => {
                let (part, used) = part_of_line(bytes);
                is_lost = is_lost || !has_room(line, part);
                (used, used > part.len())
            }
            Err(error) if error.kind() == ErrorKind::Interrupted => continue,
            Err(error) => return Err(error),
        };
        reader.consume(used);
        if is_whole || used == 0 {
            return Ok(if is_lost {
                Next::LostLine
            } else if is_whole || !line.is_empty() {
                Next::Line
            } else {
                Next::End
            });
        }
    }
    Ok(Next::End)
}

/// What these bytes have of a line, and how many of them are used up with its line feed, if that is
/// there.
fn part_of_line(bytes: &[u8]) -> (&[u8], usize) {
    for (end, byte) in bytes.iter().enumerate() {
        if *byte == b'\n' {
            return (&bytes[..end], end + 1);
        }
    }
    (bytes, bytes.len())
}

/// Adds bytes to a line that isn't too long already: whether there was memory for them. Without,
/// the line is let go.
fn has_room(line: &mut Vec<u8>, bytes: &[u8]) -> bool {
    if is_too_long(line.as_slice()) || line.extend_from_slice(bytes).is_ok() {
        return true;
    }
    line.clear();
    line.shrink_to_fit();
    false
}

/// Where lines come from.
pub trait Lines {
    /// Puts the next line over the last, if one comes.
    fn next(&mut self, line: &mut Vec<u8>) -> Next;
}

/// Lines of what can be read. After a fault there are no more.
#[derive(Drop)]
pub struct ReadLines<B: BufRead + Drop> {
    pub reader: B,
}

impl<B: BufRead + Drop> Lines for ReadLines<B> {
    fn next(&mut self, line: &mut Vec<u8>) -> Next {
        read_line(&mut self.reader, line).unwrap_or(Next::End)
    }
}

#[derive(Drop)]
struct Queue {
    /// Each line; none in the place of one that was lost for want of memory.
    lines: VecDeque<Option<Vec<u8>>>,
    has_ended: bool,
}

/// Lines on the way from the thread that reads standard input, which nothing can end, to the one
/// that answers them.
pub struct LineQueue {
    queue: Mutex<Queue>,
    moved: Condvar,
}

impl Drop for LineQueue {
    fn drop(self) {
        let LineQueue { queue: _, moved: _ } = self;
    }
}

impl LineQueue {
    pub fn new(alloc: Global) -> Result<LineQueue, AllocError> {
        let queue = Queue {
            lines: VecDeque::with_capacity(alloc, WAITING)?,
            has_ended: false,
        };
        Ok(LineQueue {
            queue: Mutex::new(queue),
            moved: Condvar::new(),
        })
    }

    /// No further line goes in; those that are in still come out.
    pub fn end<R: Wait>(&self, rt: &R) {
        self.queue.lock(rt).has_ended = true;
        self.moved.notify_all();
    }

    /// Puts a line in, once there is room: whether lines are still wanted.
    fn put<R: Wait>(&self, rt: &R, line: Option<Vec<u8>>) -> bool {
        let mut queue = self.moved.wait_while(rt, self.queue.lock(rt), |queue| {
            queue.lines.len() >= WAITING && !queue.has_ended
        });
        // There is room for as many lines as may wait.
        let is_in = !queue.has_ended && queue.lines.push_back(line).is_ok();
        drop(queue);
        self.moved.notify_all();
        is_in
    }

    /// Takes the next line out, once there is one; none after the end.
    fn take<R: Wait>(&self, rt: &R) -> Option<Option<Vec<u8>>> {
        let mut queue = self.moved.wait_while(rt, self.queue.lock(rt), |queue| {
            queue.lines.is_empty() && !queue.has_ended
        });
        let line = queue.lines.pop_front();
        drop(queue);
        self.moved.notify_all();
        line
    }
}

/// Reads standard input to its end.
pub fn read_input<R: Wait + Input>(rt: &R, alloc: Global, lines: &LineQueue) {
    // A fault ends it as its end does.
    read_all(rt, alloc, lines).ok();
    lines.end(rt);
}

fn read_all<R: Wait + Input>(rt: &R, alloc: Global, lines: &LineQueue) -> io::Result<()> {
    let mut reader = BufReader::new(alloc, rt.reader())?;
    for _ in rt.forever() {
        let mut line = Vec::new(alloc);
        let came = match read_line(&mut reader, &mut line)? {
            Next::Line => Some(line),
            Next::LostLine => None,
            Next::End => return Ok(()),
        };
        if !lines.put(rt, came) {
            return Ok(());
        }
    }
    unreachable!()
}

/// Lines that come out of a queue.
#[derive(Drop)]
pub struct QueuedLines<'a, R: Wait> {
    pub rt: &'a R,
    pub lines: &'a LineQueue,
}

impl<R: Wait> Lines for QueuedLines<'_, R> {
    fn next(&mut self, line: &mut Vec<u8>) -> Next {
        match self.lines.take(self.rt) {
            Some(Some(next)) => {
                *line = next;
                Next::Line
            }
            Some(None) => Next::LostLine,
            None => Next::End,
        }
    }
}
