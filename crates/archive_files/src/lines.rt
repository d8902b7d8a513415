//! Lines that wait for a file.
ghost use Rattle.std.specs.Prelude.{◌≡◌, ◌+◌, ◌≤◌, ◌<◌, false, [], ◌∷◌, ◌++◌, ◌^◌, OnOk, OnErr, IfOk, length, map, drop, if◌then◌else◌};
ghost use Rattle.std.specs.Option.{option_copied};
ghost use Rattle.archive_files.specs.Waiting.{entries_among, text_of_entry, first_of, text_of_life, part_of, piece_of, rest_of};

use crate::line::Line;
use dist_types::OutOfMemory;
use pg_archive::Life;
use policy_audit::Entry;
use std::alloc::Global;
use std::collections::VecDeque;
use std::marker::Model;

/// Lines on the way to a file, in their order. Of the first one some bytes may be in the file
/// already.
#[derive(Drop)]
pub struct Lines {
    lines: VecDeque<Line>,
    /// How many bytes of the first one are in the file.
    begun: usize,
}

impl Model for Lines {
    ghost use Rattle.archive_files.specs.Waiting.{Waiting, IsWithin};

    ghost Value = { Waiting };

    ghost view = { λ lines. record { lines = lines.lines.items; begun = lines.begun } };

    ghost invariant = { λ lines. IsWithin lines.lines.items lines.begun };
}

impl Lines {
    pub fn new(alloc: Global) -> Lines
        ensures { result ≡ record { lines = []; begun = 0 } }
    {
        Lines {
            lines: VecDeque::new(alloc),
            begun: 0,
        }
    }

    pub fn len(&self) -> usize
        ensures { result ≡ length self.now.lines }
    {
        self.lines.len()
    }

    /// The line that goes next, whole.
    pub fn first(&self) -> Option<&Line>
        ensures { option_copied result ≡ first_of self.now.lines }
    {
        self.lines.front()
    }

    /// How many bytes of the first line are in the file already.
    pub fn begun(&self) -> usize
        ensures { result ≡ self.now.begun }
    {
        self.begun
    }

    /// What of the first line is still to go to the file.
    pub fn piece(&self) -> &[u8]
        ensures { result.now ≡ piece_of self.now.lines self.now.begun }
    {
        match self.lines.front() {
            Some(line) => &line.as_slice()[self.begun..],
            None => &[],
        }
    }

    /// Adds the line of a life.
    pub fn put_life(&mut self, alloc: Global, life: &Life) -> Result<(), OutOfMemory>
        ensures ok { OnOk result (self.new
            ≡ record self.old { lines = self.old.lines ++ text_of_life life.now ∷ [] }) }
        ensures same { OnErr result (self.new ≡ self.old) }
    {
        self.add(Line::of_life(alloc, life)?)
    }

    /// Adds the lines of entries of the life of this creation, all or none.
    pub fn put(
        &mut self,
        alloc: Global,
        creation: u32,
        entries: &[Entry],
    ) -> Result<(), OutOfMemory>
        ensures ok { OnOk result (self.new
            ≡ record self.old {
              lines = self.old.lines
                  ++ map (text_of_entry creation) entries.now;
            }) }
        ensures same { OnErr result (self.new ≡ self.old) }
    {
        let mut added = lines_of(alloc, creation, entries)?;
        self.lines.append(&mut added)?;
        Ok(())
    }

    fn add(&mut self, line: Line) -> Result<(), OutOfMemory>
        ensures ok { OnOk result (self.new
            ≡ record self.old { lines = self.old.lines ++ line ∷ [] }) }
        ensures same { OnErr result (self.new ≡ self.old) }
    {
        self.lines.push_back(line)?;
        Ok(())
    }

    /// So many bytes of the first line's rest went to the file: whether an entry's line is whole
    /// there now.
    pub fn advance(&mut self, count: usize) -> bool
        requires { count ≤ length (piece_of self.old.lines self.old.begun) }
        ensures rest { rest_of self.new ≡ drop count (rest_of self.old) }
        ensures counted { entries_among self.new.lines + (if result then 1 else 0)
            ≡ entries_among self.old.lines }
    {
        if count < self.left() {
            self.begun += count;
            return false;
        }
        self.begun = 0;
        match self.lines.pop_front() {
            Some(line) => line.is_entry(),
            None => false,
        }
    }

    /// How many bytes of the first line are still to go to the file.
    fn left(&self) -> usize
        ensures left { result ≡ length (piece_of self.now.lines self.now.begun) }
        ensures fits { self.now.begun + result < 2 ^ 64 }
    {
        match self.lines.front() {
            Some(line) => line.as_slice().len() - self.begun,
            None => 0,
        }
    }

    /// Lets go of all lines but a first one that is in the file in part.
    pub fn let_go(&mut self)
        ensures { self.new ≡ record self.old { lines = part_of self.old.lines self.old.begun } }
    {
        self.lines.truncate(self.begun.min(1));
    }

    /// How many of the lines are entries'.
    pub fn entries(&self) -> usize
        ensures { result ≡ entries_among self.now.lines }
    {
        self.lines.iter().filter(|line| line.is_entry()).count()
    }

    /// The first line isn't in the file any more, and goes there whole.
    pub fn begin_again(&mut self)
        ensures { self.new ≡ record self.old { begun = 0 } }
    {
        self.begun = 0;
    }
}

/// The lines of entries of the life of this creation.
fn lines_of(alloc: Global, creation: u32, entries: &[Entry]) -> Result<VecDeque<Line>, OutOfMemory>
    ensures { IfOk result (λ lines. lines.items ≡ map (text_of_entry creation) entries.now) }
{
    let mut lines = VecDeque::with_capacity(alloc, entries.len())?;
    for entry in entries {
        lines.push_back(Line::of_entry(alloc, creation, entry)?)?;
    }
    Ok(lines)
}
