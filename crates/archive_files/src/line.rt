//! A line of an archive on its way to a file.
ghost use Rattle.std.specs.Prelude.{◌≡◌, true, false, IfOk};
ghost use Rattle.archive_files.specs.Waiting.{text_of_entry, text_of_life};

use dist_types::OutOfMemory;
use pg_archive::{Life, put_entry, put_life};
use policy_audit::Entry;
use std::alloc::Global;
use std::marker::Model;

/// An entry, by the creation of its life and its number in it: what a full file is named by.
#[derive(Clone, Copy, Debug, PartialEq, Eq)]
pub struct Mark {
    pub creation: u32,
    pub number: u32,
}

/// A line with its line feed.
#[derive(Debug, Drop)]
pub struct Line {
    mark: Mark,
    /// Whether it is an entry's, and not that of a life.
    is_entry: bool,
    bytes: Vec<u8>,
}

impl Model for Line {
    ghost use Rattle.archive_files.specs.Text.{Text};

    ghost Value = { Text };

    ghost view = { λ line. record {
      mark = line.mark;
      is_entry = line.is_entry;
      bytes = line.bytes.items;
    } };
}

impl Line {
    /// The line of a life. What follows it is named by the life's first entry.
    #[tactic(auto, unfolding(crate::specs::Waiting::text_of_life))]
    pub fn of_life(alloc: Global, life: &Life) -> Result<Line, OutOfMemory>
        ensures { IfOk result (λ line. line ≡ text_of_life life.now) }
    {
        let mut bytes = Vec::new(alloc);
        put_life(alloc, &mut bytes, life)?;
        Ok(Line {
            mark: Mark {
                creation: life.creation,
                number: 1,
            },
            is_entry: false,
            bytes,
        })
    }

    /// The line of an entry of the life of this creation.
    #[tactic(auto, unfolding(crate::specs::Waiting::text_of_entry))]
    pub fn of_entry(alloc: Global, creation: u32, entry: &Entry) -> Result<Line, OutOfMemory>
        ensures { IfOk result (λ line. line ≡ text_of_entry creation entry.now) }
    {
        let mut bytes = Vec::new(alloc);
        put_entry(alloc, &mut bytes, entry)?;
        Ok(Line {
            mark: Mark {
                creation,
                number: entry.number,
            },
            is_entry: true,
            bytes,
        })
    }

    pub fn mark(&self) -> Mark
        ensures { result ≡ self.now.mark }
    {
        self.mark
    }

    pub fn is_entry(&self) -> bool
        ensures { result ≡ self.now.is_entry }
    {
        self.is_entry
    }

    pub fn as_slice(&self) -> &[u8]
        ensures { result.now ≡ self.now.bytes }
    {
        self.bytes.as_slice()
    }
}
