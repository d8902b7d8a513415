//! The list of all entries of a node.
ghost use Rattle.std.specs.Prelude.{◌≡◌, ◌+◌, ◌<◌, ◌≤◌, ◌^◌, [], ◌∷◌, true, false, OnOk, OnErr, OnSome, IfErr, IfSome, IfNone, length, max};
ghost use Rattle.std.specs.Option.{option_copied};
ghost use Rattle.policy_audit.specs.declared.entry.Entry.{Entry};
ghost use Rattle.policy_audit.specs.declared.audit.AuditFault.TheVariants as faults;
ghost use Rattle.policy_audit.specs.Pages.{page_size, IsPageBehind};
ghost use Rattle.policy_audit.specs.Log.{Log, kept_at, later_than, IsAuditFault};

use crate::change::Changes;
use crate::entry::{Entry, Verdict};
use crate::event::Event;
use crate::later::Later;
use crate::page::{PAGE_SIZE, Page, push_last};
use crate::past::Past;
use crate::place::Place;
use std::alloc::{AllocError, Global};
use std::marker::Model;
use thiserror::Error;

/// Why the audit takes no further entry.
#[derive(Clone, Copy, Debug, PartialEq, Eq, Error)]
pub enum AuditFault {
    #[error("the audit has as many entries as it may have")]
    EntriesFull,
    #[error("out of memory")]
    OutOfMemory,
}

/// All entries of a node, in their order. None is ever changed. The oldest may be handed out, a
/// page at a time; contracts go on seeing them.
pub struct Audit {
    limit: u32,
    /// How many entries there are, with those that were handed out.
    count: u32,
    /// The number of the oldest page that is kept: so many were handed out.
    first: usize,
    /// Those that are kept. All but the last are full.
    pages: Vec<Page>,
    /// Those that were handed out, the newest first. It has no bytes.
    past: Past,
}

impl Drop for Audit {
    fn drop(self) {
        let Audit {
            limit: _,
            count: _,
            first: _,
            pages: _,
            past: _,
        } = self;
    }
}

impl Model for Audit {
    ghost use Rattle.std.specs.Prelude.{◌≡◌, ◌≤◌, ◌<◌, ◌^◌, ◌+◌, ◌*◌, length};
    ghost use Rattle.policy_audit.specs.Log.{Log};
    ghost use Rattle.policy_audit.specs.Pages.{IsPaged, entries_in, entries_past, log_of, page_size};

    ghost Value = { Log };

    ghost view = { λ audit. log_of audit.limit audit.past.items audit.pages.items };

    ghost invariant = { λ audit. IsPaged audit.pages.items
        × (length (entries_past audit.past.items) ≡ audit.first * page_size)
        × (audit.first * page_size + length (entries_in audit.pages.items) ≡ audit.count)
        × (audit.count ≤ audit.limit) × (audit.limit < 2 ^ 32) };
}

impl Audit {
    /// An audit without entries that may have this many.
    pub fn new(alloc: Global, limit: u32) -> Audit
        ensures limit { result.limit ≡ limit }
        ensures empty { (result.entries ≡ []) × (result.forgotten ≡ 0) }
    {
        Audit {
            limit,
            count: 0,
            first: 0,
            pages: Vec::new(alloc),
            past: Past::new(),
        }
    }

    pub fn len(&self) -> usize
        ensures { result ≡ length self.now.entries }
    {
        self.count as usize
    }

    /// Makes room for one more entry.
    pub fn make_room(&mut self) -> Result<(), AuditFault>
        ensures ok { OnOk result ((length self.old.entries < self.old.limit)
            × (self.new ≡ record self.old { has_room = true })) }
        ensures refused { IfErr result (λ fault. IsAuditFault fault self.old) }
        ensures same { OnErr result (self.new ≡ self.old) }
    {
        if self.is_full() {
            return Err(AuditFault::EntriesFull);
        }
        if !self.has_room() {
            self.pages.reserve(1)?;
            let page = Page::new(*self.pages.allocator())?;
            self.pages.push_reserved(page);
        }
        Ok(())
    }

    /// Appends an entry under the next number.
    pub fn push(
        &mut self,
        seat: u32,
        event: Event,
        verdict: Verdict,
        change: Changes,
    ) -> Result<(), AuditFault>
        ensures entries { OnOk result (self.new.entries
            ≡ record {
              number = length self.old.entries + 1;
              seat = seat;
              event = event;
              verdict = verdict;
              change = change;
            } ∷ self.old.entries) }
        ensures limit { OnOk result ((length self.old.entries < self.old.limit)
            × (self.new.limit ≡ self.old.limit)) }
        ensures forgotten { OnOk result (self.new.forgotten ≡ self.old.forgotten) }
        ensures refused { IfErr result (λ fault. IsAuditFault fault self.old) }
        ensures same { OnErr result (self.new ≡ self.old) }
    {
        if let Err(fault) = self.make_room() {
            // By name, so that a check follows the end of each once, for its type.
            drop(event);
            drop(verdict);
            drop(change);
            return Err(fault);
        }
        self.push_reserved(seat, event, verdict, change);
        Ok(())
    }

    /// Appends an entry under the next number, into the room that `make_room` has made. It takes no
    /// memory.
    pub fn push_reserved(&mut self, seat: u32, event: Event, verdict: Verdict, change: Changes)
        requires room { self.old.has_room ≡ true }
        requires space { length self.old.entries < self.old.limit }
        ensures entries { self.new.entries
            ≡ record {
              number = length self.old.entries + 1;
              seat = seat;
              event = event;
              verdict = verdict;
              change = change;
            } ∷ self.old.entries }
        ensures limit { self.new.limit ≡ self.old.limit }
        ensures forgotten { self.new.forgotten ≡ self.old.forgotten }
    {
        let entry = Entry {
            number: self.count + 1,
            seat,
            event,
            verdict,
            change,
        };
        push_last(&mut self.pages, entry);
        self.count += 1;
    }

    /// How many of the oldest entries were handed out.
    pub fn forgotten(&self) -> u32
        ensures { result ≡ self.now.forgotten }
    {
        (self.first * PAGE_SIZE) as u32
    }

    /// Hands out the oldest page, if it isn't the last one. The list of all entries stays as it is.
    pub fn forget(&mut self) -> Option<Page>
        ensures same { (self.new.limit ≡ self.old.limit) × (self.new.entries ≡ self.old.entries)
            × (self.new.has_room ≡ self.old.has_room) }
        ensures page { IfSome result (λ page.
            IsPageBehind self.old.forgotten self.old.entries page
            × (self.new.forgotten ≡ self.old.forgotten + page_size)) }
        ensures more { OnSome result (self.old.forgotten + page_size < length self.old.entries) }
        ensures none { IfNone result ((self.new ≡ self.old)
            × (length self.old.entries ≤ self.old.forgotten + page_size)) }
    {
        if self.len() <= self.forgotten() as usize + PAGE_SIZE {
            return None;
        }
        let page = self.pages.remove(0);
        self.past = self.past.then(&page);
        self.first += 1;
        Some(page)
    }

    /// The entry of that number, counted from 1, if it is kept.
    pub fn get(&self, number: u32) -> Option<&Entry>
        ensures { option_copied result ≡ kept_at number self.now }
    {
        let place = number.checked_sub(1)?.checked_sub(self.forgotten())? as usize;
        let page = self.pages.as_slice().get(place / PAGE_SIZE)?;
        page.as_slice().get(place % PAGE_SIZE)
    }

    /// The entries behind that number, in their order, as far as they are kept.
    pub fn after(&self, number: usize) -> Later<'_>
        ensures rest { result ≡ later_than (max number self.now.forgotten) self.now.entries }
        ensures bound { length result < 2 ^ 64 }
    {
        self.behind(&Place::behind(number))
    }

    /// The entries behind a place, in their order, as far as they are kept.
    pub fn behind(&self, place: &Place) -> Later<'_>
        ensures rest { result ≡ later_than (max place.now self.now.forgotten) self.now.entries }
        ensures bound { length result < 2 ^ 64 }
    {
        Later::new(self.pages.as_slice(), &place.counted_from(self.first))
    }

    fn is_full(&self) -> bool
        ensures full { result ≡ true → self.now.limit ≤ length self.now.entries }
        ensures room { result ≡ false → length self.now.entries < self.now.limit }
    {
        self.count >= self.limit
    }

    /// Whether the last page has room for one more entry.
    fn has_room(&self) -> bool
        ensures { result ≡ self.now.has_room }
    {
        self.len() / PAGE_SIZE < self.first + self.pages.len()
    }
}

impl From<AllocError> for AuditFault {
    ghost from_gives = { λ _ fault. fault ≡ faults.OutOfMemory };

    fn from(_error: AllocError) -> AuditFault {
        AuditFault::OutOfMemory
    }
}
