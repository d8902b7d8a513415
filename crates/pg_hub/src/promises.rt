//! What calls may owe that were let through.
ghost use Rattle.std.specs.Prelude.{◌≡◌, ◌+◌, ◌<◌, ◌≤◌, ◌^◌, true, false};

use std::marker::Model;

/// The most frames that may wait for a link behind a call of a client: half of what ends the link.
/// The other half is for what the readers of links owe, who wait for nobody.
pub(crate) const MOST: usize = 512;

/// What the calls may owe to a link that were let through, as far as they are known of.
#[derive(Debug, Drop)]
pub struct Promises {
    /// The frames of those that aren't made yet.
    owed: usize,
    /// How many wait at most when all are made: those that waited for one link at the last look,
    /// and what was owed then, and was let through since.
    waiting: usize,
}

impl Model for Promises {
    ghost use Rattle.std.specs.Prelude.{◌≤◌};
    ghost use Rattle.pg_hub.specs.Brake.{Reckoning};

    ghost Value = { Reckoning };

    ghost view = { λ promises. record { owed = promises.owed; waiting = promises.waiting } };

    ghost invariant = { λ promises. promises.owed ≤ promises.waiting };
}

impl Promises {
    pub fn new() -> Promises
        ensures { result ≡ record { owed = 0; waiting = 0 } }
    {
        Promises {
            owed: 0,
            waiting: 0,
        }
    }

    /// So many frames wait for a link at most.
    pub fn look(&mut self, most: usize)
        ensures waiting { most + self.old.owed < 2 ^ 64 → self.new.waiting ≡ most + self.old.owed }
        ensures owed { self.new.owed ≡ self.old.owed }
    {
        self.waiting = self.owed.saturating_add(most);
    }

    /// Lets a call through that may owe so many frames, unless more than 512 would wait behind it:
    /// whether it did.
    pub fn let_through(&mut self, frames: usize) -> bool
        ensures room { result ≡ true → self.old.waiting + frames ≤ 512 }
        ensures through { result ≡ true → self.new ≡ record {
          owed = self.old.owed + frames;
          waiting = self.old.waiting + frames;
        } }
        ensures full { result ≡ false → 512 < self.old.waiting + frames }
        ensures held { result ≡ false → self.new ≡ self.old }
    {
        let Some(left) = MOST.checked_sub(self.waiting) else {
            return false;
        };
        if left < frames {
            return false;
        }
        self.add(frames);
        true
    }

    /// Lets a call through, however many frames wait.
    pub fn add(&mut self, frames: usize)
        ensures { self.old.waiting + frames < 2 ^ 64 → self.new ≡ record {
          owed = self.old.owed + frames;
          waiting = self.old.waiting + frames;
        } }
    {
        self.owed = self.owed.saturating_add(frames);
        self.waiting = self.waiting.saturating_add(frames);
    }

    /// A call that was let through is made, or can't be. Its frames may wait now.
    pub fn remove(&mut self, frames: usize)
        ensures owed { frames ≤ self.old.owed → self.new.owed + frames ≡ self.old.owed }
        ensures waiting { self.new.waiting ≡ self.old.waiting }
    {
        self.owed = self.owed.saturating_sub(frames);
    }
}
