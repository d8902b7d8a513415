//! A connection to the node.
use crate::errand::Show;
use crate::fault::Fault;
use anyhow::anyhow;
use named_files::ShownPath;
use pg_answers::{Said, json_of};
use std::alloc::Global;
use std::io::{self, BufRead, BufReader, Write};
use std::mem::replace;
use std::net::Net;
use std::os::unix::net::UnixStream;

/// A connection to the node, and where its lines are shown.
#[derive(Drop)]
pub struct Talk<'a, R: Print> {
    rt: &'a R,
    alloc: Global,
    stream: &'a UnixStream,
    lines: BufReader<&'a UnixStream>,
    /// The last line that came, without its line feed.
    pub line: Vec<u8>,
    show: Show,
}

/// Connects to the control socket at this path.
pub fn connect<R: Net>(rt: &R, path: &str) -> Result<UnixStream, Fault> {
    match UnixStream::connect(rt, path) {
        Ok(stream) => Ok(stream),
        Err(error) => Err(Fault::of_node(anyhow!("{}: {error}", ShownPath(path)))),
    }
}

impl<'a, R: Print> Talk<'a, R> {
    pub fn new(
        rt: &'a R,
        alloc: Global,
        stream: &'a UnixStream,
        show: Show,
    ) -> Result<Talk<'a, R>, Fault> {
        let Ok(lines) = BufReader::new(alloc, stream) else {
            return Err(Fault::of_memory());
        };
        Ok(Talk {
            rt,
            alloc,
            stream,
            lines,
            line: Vec::new(alloc),
            show,
        })
    }

    /// Says a line, which ends with its line feed, and waits for its answer.
    pub fn ask(&mut self, line: &str) -> Result<Said, Fault> {
        let mut writer = self.stream;
        // Who refuses a client has hung up, and its last words can still be read.
        writer.write_all(line.as_bytes()).ok();
        for _ in 0..u64::MAX {
            let said = self.next()?;
            if said != Said::News {
                return Ok(said);
            }
        }
        Err(Fault::of_end())
    }

    /// The next line. One that comes unasked is shown, where it is to be.
    pub fn next(&mut self) -> Result<Said, Fault> {
        self.line.clear();
        match self.lines.read_until(b'\n', &mut self.line) {
            Ok(_) if self.line.pop() == Some(b'\n') => {}
            Ok(_) => return Err(Fault::of_end()),
            Err(error) if error.kind() == io::ErrorKind::OutOfMemory => {
                return Err(Fault::of_memory());
            }
            Err(_) => return Err(Fault::of_end()),
        }
        let said = Said::of(self.line.as_slice());
        if said == Said::News && self.show.follows {
            self.print()?;
        }
        Ok(said)
    }

    /// The last line, which is let go here.
    pub fn take_line(&mut self) -> Vec<u8> {
        replace(&mut self.line, Vec::new(self.alloc))
    }

    /// Shows the last line, which stays as it came.
    pub fn print(&self) -> Result<(), Fault> {
        let shown = self.shown()?;
        match self.put_out(shown.as_slice()) {
            Ok(()) => Ok(()),
            Err(error) => Err(Fault::of_output(error)),
        }
    }

    /// The last line as it is shown, with its line feed.
    fn shown(&self) -> Result<Vec<u8>, Fault> {
        let line = self.line.as_slice();
        let mut shown = if self.show.is_json {
            match json_of(self.alloc, line) {
                Ok(text) => text,
                Err(fault) => return Err(Fault::of(anyhow!("{fault}"))),
            }
        } else {
            line.to_vec(self.alloc)?
        };
        shown.push(b'\n')?;
        Ok(shown)
    }

    fn put_out(&self, bytes: &[u8]) -> io::Result<()> {
        let mut writer = io::writer(self.rt);
        writer.write_all(bytes)?;
        writer.flush()
    }
}
