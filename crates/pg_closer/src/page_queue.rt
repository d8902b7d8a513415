//! Pages that were handed out of an audit, until they are written.
ghost use Rattle.std.specs.Prelude.{◌≡◌, ◌++◌, ◌∷◌, ◌≤◌, [], length, IfOk, IfErr, IfNone, OnErr, OnSome, option_to_list};

use policy_audit::Page;
use std::alloc::Global;
use std::collections::VecDeque;
use std::marker::Model;

/// Pages that were handed out of an audit, the oldest first, until they are written. Contracts see
/// the entries of each.
#[derive(Drop)]
pub struct PageQueue {
    pages: VecDeque<Page>,
    /// How many may wait.
    most: usize,
}

impl Model for PageQueue {
    ghost use Rattle.pg_closer.specs.Waiting.{Waiting};

    ghost Value = { Waiting };

    ghost view = { λ queue. record { pages = queue.pages.items; most = queue.most } };
}

impl PageQueue {
    /// None wait, and so many may.
    pub fn new(alloc: Global, most: usize) -> PageQueue
        ensures { result ≡ record { pages = []; most = most } }
    {
        PageQueue {
            pages: VecDeque::new(alloc),
            most,
        }
    }

    /// How many wait.
    pub fn len(&self) -> usize
        ensures { result ≡ length self.now.pages }
    {
        self.pages.len()
    }

    /// Puts a page behind those that wait. Where as many wait as may, the oldest comes back, and
    /// waits no more. Without memory the page comes back itself.
    pub fn add(&mut self, page: Page) -> Result<Option<Page>, Page>
        ensures order { IfOk result (λ oldest.
            self.old.pages ++ page ∷ [] ≡ option_to_list oldest ++ self.new.pages) }
        ensures full { IfOk result (λ oldest.
            OnSome oldest (self.old.most ≤ length self.old.pages)) }
        ensures room { IfOk result (λ oldest.
            IfNone oldest (length self.new.pages ≤ self.old.most)) }
        ensures most { self.new.most ≡ self.old.most }
        ensures memory { IfErr result (λ back. back ≡ page) }
        ensures same { OnErr result (self.new ≡ self.old) }
    {
        match self.pages.push_back(page) {
            Ok(()) if self.pages.len() > self.most => Ok(self.pages.pop_front()),
            Ok(()) => Ok(None),
            Err(failed) => Err(failed.value),
        }
    }

    /// Takes the oldest one out.
    pub fn take(&mut self) -> Option<Page>
        ensures order { self.old.pages ≡ option_to_list result ++ self.new.pages }
        ensures none { IfNone result (self.old.pages ≡ []) }
        ensures most { self.new.most ≡ self.old.most }
    {
        self.pages.pop_front()
    }
}
