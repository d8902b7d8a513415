//! The archive of a run: a line for each entry that the node has handed out, and at the end for
//! those that are left.
use dist_types::OutOfMemory;
use pg_archive::{Life, put_entry, put_life};
use pg_script::{Keeper, Unkept};
use policy_audit::{Entry, Opening};
use std::alloc::Global;
use std::io::{self, ErrorKind, Write};

/// How many bytes are gathered for one write.
const PIECE: usize = 65_536;

/// The archive, or none, where entries are only let go.
#[derive(Drop)]
pub struct Archive<W: Write + Drop> {
    file: Option<W>,
    /// What isn't written yet.
    lines: Vec<u8>,
    /// Why an entry couldn't be taken.
    fault: Option<io::Error>,
}

impl<W: Write + Drop> Archive<W> {
    /// An archive that begins with the line of a life.
    pub fn begin(
        alloc: Global,
        file: Option<W>,
        opening: &Opening,
    ) -> Result<Archive<W>, OutOfMemory> {
        let lines = first_line(alloc, opening)?;
        Ok(Archive {
            file,
            lines,
            fault: None,
        })
    }

    /// Writes what is left. An error where that, or an entry before, couldn't be written.
    pub fn end(self) -> io::Result<()> {
        let Archive { file, lines, fault } = self;
        if let Some(error) = fault {
            return Err(error);
        }
        match file {
            Some(mut file) => write_lines(&mut file, lines.as_slice()),
            None => Ok(()),
        }
    }

    fn add(&mut self, alloc: Global, entry: &Entry) -> io::Result<()> {
        let Some(file) = &mut self.file else {
            return Ok(());
        };
        if put_entry(alloc, &mut self.lines, entry).is_err() {
            return Err(io::Error::from(ErrorKind::OutOfMemory));
        }
        if self.lines.len() >= PIECE {
            write_lines(file, self.lines.as_slice())?;
            self.lines.clear();
        }
        Ok(())
    }
}

/// The line of the life that begins so.
fn first_line(alloc: Global, opening: &Opening) -> Result<Vec<u8>, OutOfMemory> {
    let life = Life::of(alloc, opening)?;
    let mut line = Vec::new(alloc);
    put_life(alloc, &mut line, &life)?;
    Ok(line)
}

fn write_lines<W: Write>(file: &mut W, lines: &[u8]) -> io::Result<()> {
    file.write_all(lines)?;
    file.flush()
}

impl<W: Write + Drop> Keeper for Archive<W> {
    fn keep(&mut self, alloc: Global, entry: &Entry) -> Result<(), Unkept> {
        match self.add(alloc, entry) {
            Ok(()) => Ok(()),
            Err(error) => {
                self.fault = Some(error);
                Err(Unkept)
            }
        }
    }
}
