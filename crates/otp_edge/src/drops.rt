//! What isn't handed in or told, and why.
ghost use Rattle.std.specs.Prelude.{◌≡◌, ◌≢◌, []};
ghost use Rattle.otp_edge.specs.Drops.{CountsOnce, name_of, times_for};
ghost use Rattle.otp_edge.specs.Opens.{IsNothing};
ghost use Rattle.otp_edge.specs.declared.drops.Dropped.TheVariants as reasons;

use crate::heard::Heard;

/// Why nothing is handed in of a body, or nothing told of a message.
#[derive(Clone, Copy, Debug, PartialEq, Eq)]
pub enum Dropped {
    /// It is for a process that is none of a scope, as one of a member.
    ForMember,
    /// It is for a name, and no question that is answered.
    ForName,
    /// It is of a process that isn't that of the peer's scope, or it brings no rows that are
    /// carried.
    Unheard,
    /// It brings more rows than a message of the link may.
    TooManyRows,
    /// It is something else that isn't answered, as a message to a member that is none of `pg`.
    Unanswered,
    /// The node says it of a scope whose process at the peer isn't known, or wasn't told all rows,
    /// or none of its rows can be told.
    Untold,
    /// The node says it of one more scope than 64.
    TooManyScopes,
}

impl Dropped {
    /// All reasons, in the order of their counts.
    pub const ALL: [Dropped; 7] = [
        Dropped::ForMember,
        Dropped::ForName,
        Dropped::Unheard,
        Dropped::TooManyRows,
        Dropped::Unanswered,
        Dropped::Untold,
        Dropped::TooManyScopes,
    ];

    /// Its name, in lower case.
    pub fn name(self) -> &'static str
        ensures { result.now ≡ name_of self }
    {
        match self {
            Dropped::ForMember => "for_member",
            Dropped::ForName => "for_name",
            Dropped::Unheard => "unheard",
            Dropped::TooManyRows => "too_many_rows",
            Dropped::Unanswered => "unanswered",
            Dropped::Untold => "untold",
            Dropped::TooManyScopes => "too_many_scopes",
        }
    }
}

/// How often something was dropped, for each reason.
#[derive(Debug, Drop)]
pub struct Drops {
    counts: [u64; 7],
}

impl Drops {
    /// Nothing was.
    pub fn new() -> Drops
        ensures { (reason : Dropped) → times_for reason result ≡ 0 }
    {
        Drops { counts: [0; 7] }
    }

    /// Counts once more.
    pub fn add(&mut self, reason: Dropped)
        ensures { CountsOnce reason self.old self.new }
    {
        let place = reason as usize;
        self.counts[place] = self.counts[place].saturating_add(1);
    }

    /// Counts a message of `pg` of which nothing is handed in.
    pub fn add_unheard(&mut self, heard: &Heard)
        ensures counted { IsNothing heard.now → CountsOnce reasons.Unheard self.old self.new }
        ensures same { (IsNothing heard.now → ⊥) → self.new ≡ self.old }
    {
        if heard.is_nothing() {
            self.add(Dropped::Unheard);
        }
    }

    /// Counts a message of which nothing is told.
    pub fn add_untold(&mut self, bodies: &[u8])
        ensures counted { bodies.now ≡ [] → CountsOnce reasons.Untold self.old self.new }
        ensures same { bodies.now ≢ [] → self.new ≡ self.old }
    {
        if bodies.is_empty() {
            self.add(Dropped::Untold);
        }
    }

    /// How often something was dropped for this reason.
    pub fn of(&self, reason: Dropped) -> u64
        ensures { result ≡ times_for reason self.now }
    {
        self.counts[reason as usize]
    }
}
