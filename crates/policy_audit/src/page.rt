//! A page of an audit.
ghost use Rattle.std.specs.Prelude.{◌≡◌, ◌*◌, ◌<◌, ◌∷◌, ◌++◌, [], length, IfOk};
ghost use Rattle.std.specs.List.{list_any};
ghost use Rattle.policy_audit.specs.Log.{changes_rows};
ghost use Rattle.policy_audit.specs.Pages.{page_size, entries_in, IsPaged};

use crate::entry::Entry;
use std::alloc::{AllocError, Global};
use std::marker::Model;

/// How many entries a page has room for.
pub const PAGE_SIZE: usize = 256;

/// A part of the entries, in their order. All its room is reserved when it is made, so no entry
/// ever moves.
#[derive(Debug, Drop)]
pub struct Page {
    entries: Vec<Entry>,
    /// Whether one of them changed rows.
    changed: bool,
}

impl Model for Page {
    ghost use Rattle.std.specs.Prelude.{List, ◌≡◌, ◌≤◌, vec_capacity};
    ghost use Rattle.std.specs.List.{list_any};
    ghost use Rattle.policy_audit.specs.declared.entry.Entry.{Entry};
    ghost use Rattle.policy_audit.specs.Log.{changes_rows};
    ghost use Rattle.policy_audit.specs.Pages.{page_size};

    ghost Value = { List Entry };

    ghost view = { λ page. page.entries.items };

    ghost invariant = { λ page. (page_size ≤ vec_capacity page.entries)
        × (page.changed ≡ list_any changes_rows page.entries.items) };
}

impl Page {
    pub(crate) fn new(alloc: Global) -> Result<Page, AllocError>
        ensures { IfOk result (λ page. page ≡ []) }
    {
        let entries = Vec::with_capacity(alloc, PAGE_SIZE)?;
        Ok(Page {
            entries,
            changed: false,
        })
    }

    pub fn as_slice(&self) -> &[Entry]
        ensures { result.now ≡ self.now }
    {
        self.entries.as_slice()
    }

    /// Gives the entries back. It takes no memory.
    pub fn into_vec(self) -> Vec<Entry>
        ensures { result.items ≡ self }
    {
        let Page { entries, .. } = self;
        entries
    }

    /// Whether one of its entries changed rows.
    pub(crate) fn has_changes(&self) -> bool
        ensures { result ≡ list_any changes_rows self.now }
    {
        self.changed
    }

    /// Appends an entry. It takes no memory.
    pub(crate) fn push(&mut self, entry: Entry)
        requires { length self.old < page_size }
        ensures { self.new ≡ self.old ++ entry ∷ [] }
    {
        self.changed = self.changed || entry.has_changes();
        self.entries.push_reserved(entry);
    }
}

/// Appends an entry to the last page. It takes no memory.
pub fn push_last(pages: &mut Vec<Page>, entry: Entry)
    requires paged { IsPaged pages.old.items }
    requires room { length (entries_in pages.old.items) < length pages.old.items * page_size }
    ensures paged { IsPaged pages.new.items }
    ensures entries { entries_in pages.new.items ≡ entries_in pages.old.items ++ entry ∷ [] }
{
    let last = pages.len() - 1;
    pages[last].push(entry);
}
