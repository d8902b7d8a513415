//! Places in an audit.
ghost use Rattle.std.specs.Prelude.{◌≡◌, ◌-◌, ◌*◌, ◌/◌, ◌%◌, nat_le};
ghost use Rattle.policy_audit.specs.Pages.{page_size};

use crate::page::PAGE_SIZE;
use std::marker::Model;

/// A place behind some entries of an audit: a page, and how many of its entries lie before it.
/// Contracts see it as the number of all entries before it.
#[derive(Debug, Drop)]
pub struct Place {
    page: usize,
    entries: usize,
}

impl Model for Place {
    ghost use Rattle.std.specs.Prelude.{ℕ, ◌+◌, ◌*◌, ◌<◌};
    ghost use Rattle.policy_audit.specs.Pages.{page_size};

    ghost Value = { ℕ };

    ghost view = { λ place. place.page * page_size + place.entries };

    ghost invariant = { λ place. place.entries < page_size };
}

impl Place {
    /// Behind so many entries.
    pub fn behind(number: usize) -> Place
        ensures { result ≡ number }
    {
        Place {
            page: number / PAGE_SIZE,
            entries: number % PAGE_SIZE,
        }
    }

    /// Whether so many entries lie before it, or more.
    pub fn is_behind(&self, number: usize) -> bool
        ensures { result ≡ nat_le number self.now }
    {
        let (page, entries) = (number / PAGE_SIZE, number % PAGE_SIZE);
        page < self.page || (page == self.page && entries <= self.entries)
    }

    /// The same place among the entries from that page on; the first of them, where it is before
    /// that page.
    pub(crate) fn counted_from(&self, page: usize) -> Place
        ensures { result ≡ self.now - page * page_size }
    {
        match self.page.checked_sub(page) {
            Some(page) => Place {
                page,
                entries: self.entries,
            },
            None => Place::behind(0),
        }
    }

    /// The page, counted from 0. Pages never change their numbers.
    pub(crate) fn page(&self) -> usize
        ensures { result ≡ self.now / page_size }
    {
        self.page
    }

    /// How many entries of its page lie before it.
    pub(crate) fn entries(&self) -> usize
        ensures { result ≡ self.now % page_size }
    {
        self.entries
    }
}
