//! The archive of a node: its entries as lines of a file, in order, each once.
use crate::archived::Archived;
use anyhow::{Result, bail};
use archive_files::{Archive, ArchiveFiles, Opened, open};
use dist_types::OutOfMemory;
use named_files::ShownPath;
use pg_archive::Life;
use pg_log::{Level, Log, number, text};
use policy_audit::{Audit, Entry};
use std::alloc::Global;
use std::io;
use std::rt::HostRuntime;
use std::slice::from_ref;
use std::sync::Wait;
use std::time::Clock;

/// How many entries are gathered for one write at the end of a life.
const GATHERED: usize = 256;

/// Where entries are written, and what was said of that.
pub struct Recorder<'a> {
    archive: Archive<ArchiveFiles<'a>>,
    path: &'a str,
    /// How often it was opened anew.
    reopened: u32,
    /// A write has failed since the last one that didn't, which was said.
    is_failing: bool,
}

impl Drop for Recorder<'_> {
    fn drop(self) {
        let Recorder {
            archive: _,
            path: _,
            reopened: _,
            is_failing: _,
        } = self;
    }
}

impl<'a> Recorder<'a> {
    /// The archive at this path, with files of so many bytes at most, if there is a most. It is
    /// made where it isn't there. An error where it can't be opened. A torn last line, as of a node
    /// that was killed, is cut off, which is said.
    pub fn open<R: Wait + Clock>(
        rt: &R,
        files: &'a HostRuntime,
        alloc: Global,
        place: ArchivePlace<'a>,
        log: &Log,
    ) -> Result<Recorder<'a>> {
        let ArchivePlace { path, size } = place;
        let Opened { archive, cut } = open(files, alloc, path, size)?;
        if cut > 0 {
            let fields = [text("path", path), number("bytes", cut)];
            log.tell(rt, Level::Warn, "archive_cut", &fields);
        }
        Ok(Recorder {
            archive,
            path,
            reopened: 0,
            is_failing: false,
        })
    }

    /// The entries that come are of this life.
    pub fn begin(&mut self, life: &Life) -> Result<(), OutOfMemory> {
        self.archive.begin(life)
    }

    /// Opens the file anew, if that was asked for so often and isn't done: whether nothing is left
    /// of that.
    pub fn reopen<R: Wait + Clock>(
        &mut self,
        rt: &R,
        alloc: Global,
        times: u32,
        log: &Log,
    ) -> bool {
        if self.reopened == times {
            return true;
        }
        match self.archive.reopen() {
            Ok(()) => {
                self.reopened = times;
                true
            }
            Err(error) => {
                self.say(rt, alloc, &error, log);
                false
            }
        }
    }

    /// Writes what waits: whether nothing waits any more. A fault is said, once until a write
    /// succeeds.
    pub fn flush<R: Wait + Clock>(&mut self, rt: &R, alloc: Global, log: &Log) -> bool {
        match self.archive.flush() {
            Ok(()) => {
                self.is_failing = false;
                true
            }
            Err(error) => {
                self.say(rt, alloc, &error, log);
                false
            }
        }
    }

    fn say<R: Wait + Clock>(&mut self, rt: &R, alloc: Global, error: &io::Error, log: &Log) {
        if self.is_failing {
            return;
        }
        self.is_failing = true;
        let path = ShownPath(self.path);
        if let Ok(reason) = format!(in alloc; "--audit: {path}: {error}; entries wait") {
            log.warn(rt, "archive", reason.as_str());
        }
    }

    /// Takes these entries, whose lines wait then. Without memory they are lost.
    fn put(&mut self, entries: &[Entry]) {
        if self.archive.put(entries).is_err() {
            self.archive.count_lost(entries.len() as u64);
        }
    }

    /// Writes these entries, once what waits is written. Where that can't be they are lost.
    pub fn write<R: Wait + Clock>(&mut self, rt: &R, alloc: Global, entries: &[Entry], log: &Log) {
        if self.flush(rt, alloc, log) {
            self.put(entries);
            self.flush(rt, alloc, log);
        } else {
            self.count_lost(entries.len() as u64);
        }
    }

    /// So many entries were let go elsewhere that were to be written.
    pub fn count_lost(&mut self, entries: u64) {
        self.archive.count_lost(entries);
    }

    /// Writes the entries that the audit of an ended life keeps. Those that can't be written now
    /// are lost.
    pub fn end<R: Wait + Clock>(&mut self, rt: &R, alloc: Global, audit: &Audit, log: &Log) {
        let mut gathered = 0usize;
        let mut is_written = self.flush(rt, alloc, log);
        for entry in audit.after(0) {
            if !is_written {
                self.archive.count_lost(1);
                continue;
            }
            self.put(from_ref(entry));
            gathered = gathered.saturating_add(1);
            if gathered >= GATHERED {
                gathered = 0;
                is_written = self.flush(rt, alloc, log);
            }
        }
        if !(is_written && self.flush(rt, alloc, log)) {
            self.archive.let_go();
        }
    }

    /// Tells the node how many entries are in the archive, and how many aren't.
    pub fn tell<N: Archived>(&self, node: &N) {
        node.note_archived(self.archive.archived(), self.archive.lost());
    }

    /// An error where entries are lost, one among them of which the file has a part.
    pub fn check(&self) -> Result<()> {
        let waiting = self.archive.waiting_entries() as u64;
        let lost = self.archive.lost().saturating_add(waiting);
        let path = ShownPath(self.path);
        match lost {
            0 => Ok(()),
            1 => bail!("--audit: {path}: 1 entry is not in the file"),
            _ => bail!("--audit: {path}: {lost} entries are not in the file"),
        }
    }
}

/// Where an archive is, and how many bytes a file of it may have.
#[derive(Clone, Copy, Debug, Drop)]
pub struct ArchivePlace<'a> {
    pub path: &'a str,
    pub size: Option<u64>,
}
