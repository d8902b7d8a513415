//! An archive that grows.
ghost use Rattle.std.specs.Prelude.{◌≡◌, ◌+◌, ◌-◌, ◌≤◌, ◌<◌, ◌^◌, ◌⊎◌, Some, None, true, false, [], ◌∷◌, ◌++◌, OnOk, OnErr, OnSome, IfSome, IfNone, IsTrue, length, drop, map};
ghost use Rattle.std.specs.Io.KnownBytes.{Keeps};
ghost use Rattle.archive_files.specs.Taking.{IsLeft};
ghost use Rattle.archive_files.specs.Turning.{IsTooLong, and_file};
ghost use Rattle.archive_files.specs.Waiting.{HasGone, IsCounted, IsMoved, IsWeighed, entries_among, named_by, text_of_entry, text_of_life, part_of, piece_of, rest_of};

use crate::line::Mark;
use crate::lines::Lines;
use crate::store::Store;
use dist_types::OutOfMemory;
use pg_archive::Life;
use policy_audit::Entry;
use std::alloc::Global;
use std::io::{self, ErrorKind};

/// Lines on their way to files, and how many of each entry's came there.
pub struct Archive<S: Store + Drop> {
    alloc: Global,
    store: S,
    lines: Lines,
    /// The most bytes of a file, where there is a limit.
    size: Option<u64>,
    /// How many bytes the file has.
    held: u64,
    /// What went into the file first since it was opened: it is named so once it is full.
    first: Option<Mark>,
    /// That of the present life.
    creation: u32,
    archived: u64,
    lost: u64,
}

impl<S: Store + Drop> Drop for Archive<S> {
    fn drop(self) {
        let Archive {
            alloc: _,
            store: _,
            lines: _,
            size: _,
            held: _,
            first: _,
            creation: _,
            archived: _,
            lost: _,
        } = self;
    }
}

impl<S: Store + Drop> Archive<S> {
    /// An archive in files that have this many bytes already in the one that is written to.
    pub fn new(alloc: Global, store: S, held: u64, size: Option<u64>) -> Archive<S>
        ensures empty { (result.lines.lines ≡ []) × (result.lines.begun ≡ 0) × (result.archived ≡ 0)
            × (result.lost ≡ 0) }
        ensures store { (result.store ≡ store) × (result.held ≡ held) × (result.size ≡ size) }
        ensures first { result.first ≡ None }
    {
        Archive {
            alloc,
            store,
            lines: Lines::new(alloc),
            size,
            held,
            first: None,
            creation: 0,
            archived: 0,
            lost: 0,
        }
    }

    /// Takes the line of a life that begins. Entries that follow are of it.
    pub fn begin(&mut self, life: &Life) -> Result<(), OutOfMemory>
        ensures ok { OnOk result (self.new ≡ record self.old {
          lines = record self.old.lines {
            lines = self.old.lines.lines ++ text_of_life life.now
                ∷ [];
          };
          creation = life.now.creation;
        }) }
        ensures same { OnErr result (self.new ≡ self.old) }
    {
        self.lines.put_life(self.alloc, life)?;
        self.creation = life.creation;
        Ok(())
    }

    /// Takes the lines of entries, all or none. None is written yet.
    pub fn put(&mut self, entries: &[Entry]) -> Result<(), OutOfMemory>
        ensures ok { OnOk result (self.new ≡ record self.old {
          lines = record self.old.lines {
            lines = self.old.lines.lines
                ++ map (text_of_entry self.old.creation) entries.now;
          };
        }) }
        ensures same { OnErr result (self.new ≡ self.old) }
    {
        self.lines.put(self.alloc, self.creation, entries)
    }

    /// Writes what waits. After an error the rest waits still, and the next call goes on at that
    /// very byte.
    pub fn flush(&mut self) -> io::Result<()>
        ensures order { IsMoved (S.contents self.old.store) (rest_of self.old.lines)
            (S.contents self.new.store) (rest_of self.new.lines) }
        ensures whole { OnOk result (self.new.lines.lines ≡ []) }
        ensures counted { IsCounted self.old.archived self.old.lines.lines self.new.archived
            self.new.lines.lines }
        ensures lost { self.new.lost ≡ self.old.lost }
        ensures same { (self.new.size ≡ self.old.size) × (self.new.creation ≡ self.old.creation) }
    {
        for _ in 0..u64::MAX {
            if self.lines.len() == 0 {
                return Ok(());
            }
            self.turn_if_due()?;
            self.write_some()?;
        }
        Err(io::Error::from(ErrorKind::Other))
    }

    /// Begins a new file before a line that would make this one larger than it may be, unless none
    /// went into it yet.
    fn turn_if_due(&mut self) -> io::Result<()>
        ensures bytes { Keeps (S.contents self.old.store) (S.contents self.new.store) }
        ensures same { (self.new.lines ≡ self.old.lines) × (self.new.archived ≡ self.old.archived)
            × (self.new.lost ≡ self.old.lost)
            × (self.new.size ≡ self.old.size) × (self.new.creation ≡ self.old.creation) }
        ensures room { ¬ IsTooLong self.old.size self.old.held self.old.lines.begun
            self.old.lines.lines → self.new ≡ self.old }
        ensures due { OnOk result (IsTooLong self.old.size self.old.held self.old.lines.begun
            self.old.lines.lines → self.new.first ≡ None) }
        ensures none { self.old.first ≡ None → self.new ≡ self.old }
        ensures fits { OnOk result
            (IsTooLong self.new.size self.new.held self.new.lines.begun self.new.lines.lines
            → self.new.first ≡ None) }
        // The file is named by what went into it first, and what the new one has is known.
        ensures named { OnOk result
            (IsTooLong self.old.size self.old.held self.old.lines.begun self.old.lines.lines
            → IfSome self.old.first (λ mark. S.files self.new.store
            ≡ and_file (S.files self.old.store) (Some mark) self.new.held)) }
        ensures refused { OnErr result ((self.new ≡ record self.old { store = self.new.store })
            × (S.files self.new.store ≡ S.files self.old.store)) }
    {
        if let Some(first) = self.due() {
            self.held = self.store.turn(first)?;
            self.first = None;
        }
        Ok(())
    }

    /// What the file is named by, if a new one is to begin.
    fn due(&self) -> Option<Mark>
        ensures named { IfSome result (λ mark. self.now.first ≡ Some mark) }
        ensures due { OnSome result (IsTooLong self.now.size self.now.held self.now.lines.begun
            self.now.lines.lines) }
        ensures room { IfNone result (IfSome self.now.first (λ _.
            ¬ IsTooLong self.now.size self.now.held self.now.lines.begun self.now.lines.lines)) }
    {
        let first = self.first?;
        let size = self.size?;
        let line = self.lines.first()?;
        if self.lines.begun() == 0 && is_over(size, self.held, line.as_slice().len() as u64) {
            return Some(first);
        }
        None
    }

    /// Writes what it can of the first line.
    fn write_some(&mut self) -> io::Result<()>
        requires room { IsTooLong self.old.size self.old.held self.old.lines.begun
            self.old.lines.lines
            → self.old.first ≡ None }
        ensures order { IsMoved (S.contents self.old.store) (rest_of self.old.lines)
            (S.contents self.new.store) (rest_of self.new.lines) }
        ensures counted { IsCounted self.old.archived self.old.lines.lines self.new.archived
            self.new.lines.lines }
        ensures held { IsWeighed self.old.held self.old.lines self.new.held self.new.lines }
        ensures first { (self.new ≡ record self.old { store = self.new.store })
            ⊎ HasGone self.old.first self.old.lines self.new.first self.new.lines }
        ensures lost { self.new.lost ≡ self.old.lost }
        ensures same { (self.new.size ≡ self.old.size) × (self.new.creation ≡ self.old.creation) }
    {
        let count = match self.store.write(self.lines.piece()) {
            Ok(0) => return Err(io::Error::from(ErrorKind::WriteZero)),
            Ok(count) => count,
            Err(error) if error.kind() == ErrorKind::Interrupted => return Ok(()),
            Err(error) => return Err(error),
        };
        self.note(count);
        Ok(())
    }

    /// Notes what of the first line was written.
    fn note(&mut self, count: usize)
        requires { count ≤ length (piece_of self.old.lines.lines self.old.lines.begun) }
        ensures rest { rest_of self.new.lines ≡ drop count (rest_of self.old.lines) }
        ensures counted { IsCounted self.old.archived self.old.lines.lines self.new.archived
            self.new.lines.lines }
        ensures held { IsWeighed self.old.held self.old.lines self.new.held self.new.lines }
        ensures first { self.new.first ≡ named_by self.old.first self.old.lines.lines }
        ensures same { (self.new.store ≡ self.old.store) × (self.new.lost ≡ self.old.lost)
            × (self.new.size ≡ self.old.size) × (self.new.creation ≡ self.old.creation) }
    {
        self.held = self.held.saturating_add(count as u64);
        if self.first.is_none() {
            self.first = self.lines.first().map(|line| line.mark());
        }
        if self.lines.advance(count) {
            self.archived = self.archived.saturating_add(1);
        }
    }

    /// Lets go of the lines that wait, but for the rest of one that is in the file in part, and
    /// counts their entries as lost.
    pub fn let_go(&mut self)
        ensures part { self.new.lines ≡ record self.old.lines {
          lines =
              part_of self.old.lines.lines self.old.lines.begun;
        } }
        ensures counted { IsCounted self.old.lost self.old.lines.lines self.new.lost
            self.new.lines.lines }
        ensures same { (self.new.store ≡ self.old.store) × (self.new.archived ≡ self.old.archived)
            × (self.new.size ≡ self.old.size) × (self.new.creation ≡ self.old.creation) }
        ensures file { (self.new.held ≡ self.old.held) × (self.new.first ≡ self.old.first) }
    {
        let before = self.lines.entries();
        self.lines.let_go();
        let lost = before.saturating_sub(self.lines.entries());
        self.lost = self.lost.saturating_add(lost as u64);
    }

    /// Leaves the file, and goes on with that at its path. Of a line that is in the file in part,
    /// the part is taken back first; it goes to the next file whole. On an error the same file is
    /// written to.
    pub fn reopen(&mut self) -> io::Result<()>
        ensures ok { OnOk result (self.new.lines ≡ record self.old.lines { begun = 0 }) }
        ensures refused { OnErr result ((self.new.first ≡ self.old.first)
            × (((self.new.lines ≡ self.old.lines) × (self.new.held ≡ self.old.held))
            ⊎ ((self.new.lines ≡ record self.old.lines { begun = 0 })
            × (self.new.held ≡ self.old.held - self.old.lines.begun)))) }
        ensures file { OnOk result ((self.new.first ≡ None) × (S.files self.new.store
            ≡ and_file (S.files self.old.store) None self.new.held)) }
        ensures bytes { IsLeft (S.contents self.old.store) self.old.lines.begun
            (S.contents self.new.store) self.new.lines.begun }
        ensures same { (self.new.lines.lines ≡ self.old.lines.lines)
            × (self.new.archived ≡ self.old.archived) × (self.new.lost ≡ self.old.lost)
            × (self.new.size ≡ self.old.size) × (self.new.creation ≡ self.old.creation) }
    {
        self.take_back()?;
        self.held = self.store.reopen()?;
        self.first = None;
        Ok(())
    }

    /// Takes the part of a line back that is in the file.
    fn take_back(&mut self) -> io::Result<()>
        ensures ok { OnOk result ((self.new.lines ≡ record self.old.lines { begun = 0 })
            × (self.new.held ≡ self.old.held - self.old.lines.begun)) }
        ensures refused { OnErr result ((self.new.lines ≡ self.old.lines)
            × (self.new.held ≡ self.old.held)) }
        ensures file { (S.files self.new.store ≡ S.files self.old.store)
            × (self.new.first ≡ self.old.first) }
        ensures bytes { IsLeft (S.contents self.old.store) self.old.lines.begun
            (S.contents self.new.store) self.new.lines.begun }
        ensures same { (self.new.archived ≡ self.old.archived) × (self.new.lost ≡ self.old.lost)
            × (self.new.size ≡ self.old.size) × (self.new.creation ≡ self.old.creation) }
    {
        let begun = self.lines.begun() as u64;
        if begun > 0 {
            self.store.take_back(begun)?;
            self.held = self.held.saturating_sub(begun);
            self.lines.begin_again();
        }
        Ok(())
    }

    /// How many entries' lines aren't whole in a file.
    pub fn waiting_entries(&self) -> usize
        ensures { result ≡ entries_among self.now.lines.lines }
    {
        self.lines.entries()
    }

    /// How many entries' lines are whole in files.
    pub fn archived(&self) -> u64
        ensures { result ≡ self.now.archived }
    {
        self.archived
    }

    /// How many entries were let go, and are in no file.
    pub fn lost(&self) -> u64
        ensures { result ≡ self.now.lost }
    {
        self.lost
    }

    /// Counts entries that never came here as lost.
    pub fn count_lost(&mut self, entries: u64)
        ensures lost { self.old.lost + entries < 2 ^ 64 → self.new.lost ≡ self.old.lost + entries }
        ensures same { self.new ≡ record self.old { lost = self.new.lost } }
    {
        self.lost = self.lost.saturating_add(entries);
    }
}

/// Whether a line of this length makes a file larger than it may be.
fn is_over(size: u64, held: u64, length: u64) -> bool
    ensures over { IsTrue result → size < held + length }
    ensures within { result ≡ false → held + length ≤ size }
{
    match held.checked_add(length) {
        Some(sum) => sum > size,
        None => true,
    }
}
