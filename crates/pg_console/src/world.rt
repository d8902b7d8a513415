//! Scripts of world steps: several nodes and their wires.
use pg_script::{RunFault, TURNS, read_line, send, tell_fault};
use pg_text::without_feed;
use std::alloc::Global;
use std::io::{BufRead, Write};
use world_script::{Lab, LabFault};

/// Why a script of world steps did not end with its last line.
#[derive(Clone, Copy)]
pub enum Stop {
    Run(RunFault),
    /// The node of this line has the name of an earlier one.
    SameName(u64),
}

impl From<RunFault> for Stop {
    fn from(fault: RunFault) -> Stop {
        Stop::Run(fault)
    }
}

/// Plays a script of world steps: one answer line for each line, up to the first that can't be
/// read, which is left in `line`. Each answer is written and flushed before the next line is read.
pub fn play_world<R: BufRead, W: Write>(
    alloc: Global,
    reader: &mut R,
    line: &mut Vec<u8>,
    writer: &mut W,
) -> Result<(), Stop> {
    let mut lab = Lab::new(alloc);
    play_lines(&mut lab, &mut Vec::new(alloc), reader, line, writer)
}

fn play_lines<R: BufRead, W: Write>(
    lab: &mut Lab,
    out: &mut Vec<u8>,
    reader: &mut R,
    line: &mut Vec<u8>,
    writer: &mut W,
) -> Result<(), Stop> {
    for turn in 0..TURNS {
        if !read_line(line, reader)? {
            return Ok(());
        }
        answer_line(turn + 1, without_feed(line.as_slice()), lab, out, writer)?;
    }
    Err(Stop::Run(RunFault::Read))
}

/// Writes the answer to the line of this number, or that it can't be read.
fn answer_line<W: Write>(
    number: u64,
    line: &[u8],
    lab: &mut Lab,
    out: &mut Vec<u8>,
    writer: &mut W,
) -> Result<(), Stop> {
    out.clear();
    match lab.answer(line, out) {
        Ok(()) => Ok(send(out.as_slice(), writer)?),
        Err(LabFault::Script) => Err(Stop::Run(tell_fault(number, out, writer))),
        Err(LabFault::SameName) => Err(Stop::SameName(number)),
        Err(LabFault::Memory) => Err(Stop::Run(RunFault::Memory)),
    }
}
