//! When a stock node is asked for its rows again.
ghost use Rattle.std.specs.Prelude.{◌≡◌, true, false, None};
ghost use Rattle.otp_link.specs.Asking.{asked_at, has_come, lacks_at, millis, next_pause, sought_at};

use std::time::Duration;

/// The milliseconds before it is asked again first, and at most.
const FIRST: u128 = 1_000;

const LONGEST: u128 = 30_000;

/// Between two questions over a hidden link for scopes that weren't shown yet.
const SEEK: u128 = 3_000;

/// Within so many milliseconds behind a question rows that lack again are of the same fault.
const SAME: u128 = 60_000;

/// When a stock node is asked for its rows again. All times are milliseconds from the begin of the
/// link.
#[derive(Clone, Copy, Debug, Drop)]
pub struct Healing {
    /// When it is to be asked for all rows, since some lack here.
    due: Option<u128>,
    pause: u128,
    /// When it was last.
    asked: Option<u128>,
    /// When it is to be asked for scopes that weren't shown yet, once bodies pass.
    seek: Option<u128>,
}

impl Healing {
    /// It isn't to be asked yet.
    pub fn new() -> Healing
        ensures due { result.due ≡ None }
        ensures asked { result.asked ≡ None }
        ensures seek { result.seek ≡ None }
    {
        Healing {
            due: None,
            pause: FIRST,
            asked: None,
            seek: None,
        }
    }

    /// Notes whether rows of the peer lack here: then it is asked again after a second, and where
    /// that doesn't help after two, four, up to thirty.
    pub fn note(&mut self, lacks: bool, now: Duration)
        ensures lacks { lacks ≡ true → self.new ≡ lacks_at self.old self.old.due (millis now) }
        ensures stays { lacks ≡ false → self.new ≡ self.old }
    {
        if !lacks || self.due.is_some() {
            return;
        }
        let now = now.as_millis();
        self.pause = self.next_pause(now);
        self.due = Some(now.saturating_add(self.pause));
    }

    fn next_pause(&self, now: u128) -> u128
        ensures { result ≡ next_pause self.now.asked self.now.pause now }
    {
        match self.asked {
            Some(asked) if now.saturating_sub(asked) < SAME => {
                self.pause.saturating_mul(2).min(LONGEST)
            }
            _ => FIRST,
        }
    }

    /// Whether all rows are to be asked for now. Then they aren't until some lack again.
    pub fn is_due(&mut self, now: Duration) -> bool
        ensures due { result ≡ has_come self.old.due (millis now) }
        ensures asked { result ≡ true → self.new ≡ asked_at self.old (millis now) }
        ensures stays { result ≡ false → self.new ≡ self.old }
    {
        let now = now.as_millis();
        let is_due = is_past(self.due, now);
        if is_due {
            self.due = None;
            self.asked = Some(now);
        }
        is_due
    }

    /// Whether scopes that weren't shown yet are to be asked for now: not at the first question,
    /// which is asked once bodies pass.
    pub fn is_seeking(&mut self, now: Duration) -> bool
        ensures seek { result ≡ has_come self.old.seek (millis now) }
        ensures next { self.new ≡ sought_at self.old (millis now) }
    {
        let now = now.as_millis();
        let is_due = is_past(self.seek, now);
        if is_due || self.seek.is_none() {
            self.seek = Some(now.saturating_add(SEEK));
        }
        is_due
    }
}

/// Whether a time has been set, and has come.
fn is_past(time: Option<u128>, now: u128) -> bool
    ensures { result ≡ has_come time now }
{
    match time {
        Some(time) => time <= now,
        None => false,
    }
}
