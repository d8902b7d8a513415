//! Going over the entries of an audit.
ghost use Rattle.std.specs.Prelude.{◌≡◌, ◌≤◌, drop, length};
ghost use Rattle.std.specs.List.{filter};
ghost use Rattle.std.specs.Iterator.{YieldsFirstRef, item_count};
ghost use Rattle.policy_audit.specs.Log.{changes_rows};
ghost use Rattle.policy_audit.specs.Pages.{entries_in, IsPaged};

use crate::changing::Changing;
use crate::entry::Entry;
use crate::page::Page;
use crate::place::Place;
use std::marker::Model;

/// Entries of an audit in their order, up to its end. Contracts see it as the list of those that
/// are left.
#[derive(Debug, Drop)]
pub struct Later<'a> {
    /// What is left of the page that it has reached.
    page: &'a [Entry],
    /// Those behind that page.
    pages: &'a [Page],
}

impl<'a> Model for Later<'a> {
    ghost use Rattle.std.specs.Prelude.{List, ◌++◌};
    ghost use Rattle.policy_audit.specs.declared.entry.Entry.{Entry};
    ghost use Rattle.policy_audit.specs.Pages.{entries_in};

    ghost Value = { List Entry };

    ghost view = { λ later. later.page.now ++ entries_in later.pages.now };
}

impl<'a> Later<'a> {
    /// The entries of these pages behind a place.
    pub(crate) fn new(pages: &'a [Page], place: &Place) -> Later<'a>
        requires { IsPaged pages.now }
        ensures { result ≡ drop place.now (entries_in pages.now) }
    {
        match behind(pages, place.page()).split_first() {
            Some((page, pages)) => Later {
                page: behind(page.as_slice(), place.entries()),
                pages,
            },
            None => Later {
                page: &[],
                pages: &[],
            },
        }
    }

    /// Only those that changed rows. It passes over whole pages without one.
    pub fn changing(self) -> Changing<'a>
        ensures { result ≡ filter changes_rows self.entry }
    {
        Changing::new(self)
    }

    /// Passes over whole pages in which no entry changed rows.
    pub(crate) fn skip_unchanged(&mut self)
        ensures rows { filter changes_rows self.new ≡ filter changes_rows self.old }
        ensures bound { length self.new ≤ length self.old }
    {
        if !self.page.is_empty() {
            return;
        }
        while let Some((page, pages)) = self.pages.split_first() {
            if page.has_changes() {
                return;
            }
            self.pages = pages;
        }
    }
}

impl<'a> Iterator for Later<'a> {
    type Item = &'a Entry;

    ghost next_gives = { YieldsFirstRef (λ later. later) };

    ghost remaining = { item_count (λ later. later) };

    fn next(&mut self) -> Option<&'a Entry> {
        while self.page.is_empty() {
            let (page, pages) = self.pages.split_first()?;
            self.page = page.as_slice();
            self.pages = pages;
        }
        let (entry, page) = self.page.split_first()?;
        self.page = page;
        Some(entry)
    }
}

/// The items behind the first, as many as the number says.
fn behind<T>(items: &[T], number: usize) -> &[T]
    ensures { result.now ≡ drop number items.now }
{
    items.get(number..).unwrap_or(&[])
}
