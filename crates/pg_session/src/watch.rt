//! Monitors that tell unasked.
ghost use Rattle.std.specs.Prelude.{◌≡◌, ◌⊎◌, ◌||◌, ◌&&◌, not, List, [], ◌∷◌, map, false, true};
ghost use Rattle.std.specs.Prelude.{IfOk, OnOk, OnErr, nat_lt};
ghost use Rattle.std.specs.List.{filter, list_any};
ghost use Rattle.std.specs.Option.{option_map};
ghost use Rattle.dist_types.specs.Listing.{same};
ghost use Rattle.policy_audit.specs.declared.event.Event.TheVariants.{Updates};
ghost use Rattle.policy_audit.specs.Monitors.{is_watched};
ghost use Rattle.pg_session.specs.Asked.{is_fetch};
ghost use Rattle.pg_session.specs.Calls.{GoesOnBy, IsCalled};
ghost use Rattle.pg_session.specs.Notices.{Known, Tells, TellsMore};
ghost use Rattle.pg_session.specs.Watching.{aged, as_begun, begun, is_touched, noted, stopped_by, stops, target};
ghost use Rattle.pg_session.specs.Watching.{AllAsked, Asks, is_asked, learned, Learns};

use crate::caller::{Caller, Fetched};
use dist_types::{Group, GroupChange, OutOfMemory, Scope, TryClone};
use node_threads::Node;
use pg_text::put_numbered_line;
use policy_audit::{Change, Entry, Event, Later, Verdict};
use std::alloc::Global;
use std::sync::Wait;

/// A monitor of a connection.
#[derive(Drop)]
pub struct Watch {
    /// That of its entry; 0 before there is one.
    pub number: u32,
    scope: Scope,
    /// None for all groups of the scope.
    group: Option<Group>,
    /// How many entries there were at least when it was asked last, 0 before.
    asked: usize,
    /// Whether it has something to tell, or wasn't asked for long.
    is_due: bool,
    /// Whether it has ended, as with its scope.
    pub is_over: bool,
}

impl Watch {
    /// A monitor that has no entry yet.
    pub fn of(alloc: Global, scope: &Scope, group: Option<&Group>) -> Result<Watch, OutOfMemory>
        ensures { IfOk result (λ watch. watch
            ≡ begun 0 scope.now (option_map (λ g. g.now) group.entry)) }
    {
        let group = match group {
            Some(group) => Some(group.try_clone(alloc)?),
            None => None,
        };
        Ok(Watch {
            number: 0,
            scope: scope.try_clone(alloc)?,
            group,
            asked: 0,
            is_due: false,
            is_over: false,
        })
    }

    /// Notes whether an entry behind its own has changed what it watches, and whether it has ended
    /// it. `Updates` is asked of no other monitor: each is an entry, and so would call for the next
    /// look.
    pub fn note(&mut self, entry: &Entry)
        ensures { self.new ≡ noted (entry.now ∷ []) self.old }
    {
        if entry.number > self.number {
            self.is_over = self.is_over || self.ends_with(entry);
            self.is_due = self.is_due || self.is_touched_by(entry);
        }
    }

    /// The same of many entries: the last one that stopped its scope, and the last one that changed
    /// what it watches, 0 where none did.
    pub fn note_last(&mut self, stopped: u32, changed: u32)
        ensures { self.new ≡ record self.old {
          is_over = self.old.is_over || nat_lt self.old.number stopped;
          is_due = self.old.is_due || nat_lt self.old.number changed;
        } }
    {
        self.is_over = self.is_over || self.number < stopped;
        self.is_due = self.is_due || self.number < changed;
    }

    pub fn scope(&self) -> &Scope
        ensures { result.now ≡ self.now.scope }
    {
        &self.scope
    }

    /// None for all groups of the scope.
    pub fn group(&self) -> Option<&Group>
        ensures { option_map (λ g. g.now) result ≡ self.now.group }
    {
        self.group.as_ref()
    }

    /// Notes whether it was neither begun nor asked since there were so many entries.
    fn note_age(&mut self, stale: usize)
        ensures { self.new ≡ aged stale self.old }
    {
        self.is_due = self.is_due || self.asked.max(self.number as usize) < stale;
    }

    /// Whether the entry has stopped its scope.
    fn ends_with(&self, entry: &Entry) -> bool
        ensures { result ≡ stops self.now.scope entry.now }
    {
        stopped_scope(entry).is_some_and(|scope| *scope == self.scope)
    }

    /// Whether the entry has changed rows that it watches.
    fn is_touched_by(&self, entry: &Entry) -> bool
        ensures { result ≡ is_touched (target self.now) entry.now }
    {
        self.sees_any(entry.change.as_slice())
    }

    fn sees_any(&self, changes: &[Change]) -> bool
        ensures { result ≡ list_any (λ c. same c.scope self.now.scope
            && list_any (is_watched self.now.group) c.groups) changes.now }
    {
        changes.iter().any(|change| self.sees(change))
    }

    fn sees(&self, change: &Change) -> bool
        ensures { result ≡ (same change.now.scope self.now.scope
            && list_any (is_watched self.now.group) change.now.groups) }
    {
        change.scope == self.scope && self.watches_any(change.groups.as_slice())
    }

    fn watches_any(&self, changes: &[GroupChange]) -> bool
        ensures { result ≡ list_any (is_watched self.now.group) changes.now }
    {
        changes.iter().any(|change| self.watches(change))
    }

    fn watches(&self, change: &GroupChange) -> bool
        ensures { result ≡ is_watched self.now.group change.now }
    {
        match &self.group {
            Some(group) => change.group == *group,
            None => true,
        }
    }

    /// Adds what it has not told yet, if it is due, where so many entries were looked at. Where the
    /// audit is full or memory is wanting, it is due still.
    pub fn tell<R: Wait>(
        &mut self,
        caller: &mut Caller,
        rt: &R,
        node: &Node,
        entries: usize,
        out: &mut Vec<u8>,
    ) -> Result<(), OutOfMemory>
        ensures called { IsCalled caller.old (Updates self.old.number) caller.new
            ⊎ (caller.new ≡ caller.old) }
        ensures told { OnOk result ((known : Known)
            → Tells caller.old known out.old.items caller.new known out.new.items) }
        ensures asked { is_asked self.old ≡ true
            → IsCalled caller.old (Updates self.old.number) caller.new }
        ensures quiet { is_asked self.old ≡ false
            → (caller.new ≡ caller.old) × (self.new ≡ self.old) }
        ensures learns { OnOk result (Asks caller.old self.old entries caller.new self.new) }
        ensures still { (self.new.number ≡ self.old.number)
            × (target self.new ≡ target self.old) }
        ensures memory { OnErr result ((self.new ≡ self.old)
            ⊎ (Learns caller.old self.old entries caller.new self.new
            × (self.new.is_over ≡ true))) }
    {
        if !self.is_due || self.is_over {
            return self.put_end(out);
        }
        let fetched = caller.fetch(rt, node, self.number, out)?;
        self.learn(fetched, entries);
        self.put_end(out)
    }

    fn learn(&mut self, fetched: Fetched, entries: usize)
        ensures { self.new ≡ learned fetched entries self.old }
    {
        match fetched {
            Fetched::Told => {
                self.is_due = false;
                self.asked = entries;
            }
            Fetched::Over => self.is_over = true,
            Fetched::NotNow => {}
        }
    }

    /// Adds that it has ended, if it has.
    fn put_end(&self, out: &mut Vec<u8>) -> Result<(), OutOfMemory>
        ensures more { OnOk result (TellsMore out.old.items out.new.items) }
        ensures memory { OnErr result (self.now.is_over ≡ true) }
    {
        if !self.is_over {
            return Ok(());
        }
        put_numbered_line("! ended ", u64::from(self.number), out)
    }
}

/// The scope that an entry has stopped.
pub fn stopped_scope(entry: &Entry) -> Option<&Scope>
    ensures { option_map (λ s. s.now) result ≡ stopped_by entry.now.event entry.now.verdict }
{
    match (&entry.event, &entry.verdict) {
        (Event::StopScope(scope), Verdict::Accepted(_)) => Some(scope),
        _ => None,
    }
}

/// Notes which monitors have something to tell of these entries.
pub fn note_all(watches: &mut Vec<Watch>, entries: Later<'_>)
    ensures { watches.new.items ≡ map (noted entries.entry) watches.old.items }
{
    for entry in entries {
        note_entry(watches, entry);
    }
}

fn note_entry(watches: &mut Vec<Watch>, entry: &Entry)
    ensures { watches.new.items ≡ map (noted (entry.now ∷ [])) watches.old.items }
{
    for watch in watches.iter_mut() {
        watch.note(entry);
    }
}

/// Notes which monitors weren't asked since there were so many entries.
pub fn note_ages(watches: &mut Vec<Watch>, stale: usize)
    ensures { watches.new.items ≡ map (aged stale) watches.old.items }
{
    for watch in watches.iter_mut() {
        watch.note_age(stale);
    }
}

/// Adds what the monitors have to tell, where so many entries were looked at, and lets go of those
/// that have ended.
pub fn tell_all<R: Wait>(
    watches: &mut Vec<Watch>,
    caller: &mut Caller,
    rt: &R,
    node: &Node,
    entries: usize,
    out: &mut Vec<u8>,
) -> Result<(), OutOfMemory>
    ensures goes { GoesOnBy is_fetch caller.old caller.new }
    ensures told { OnOk result ((known : Known)
        → Tells caller.old known out.old.items caller.new known out.new.items) }
    ensures asked { OnOk result ((all : List Watch)
        × AllAsked caller.old watches.old.items entries caller.new all
        × (watches.new.items ≡ filter (λ w. not w.is_over) all)) }
    ensures memory { OnErr result (map as_begun watches.new.items
        ≡ map as_begun watches.old.items) }
{
    ask_all(watches, caller, rt, node, entries, out)?;
    watches.retain(|watch| !watch.is_over);
    Ok(())
}

fn ask_all<R: Wait>(
    watches: &mut Vec<Watch>,
    caller: &mut Caller,
    rt: &R,
    node: &Node,
    entries: usize,
    out: &mut Vec<u8>,
) -> Result<(), OutOfMemory>
    ensures goes { GoesOnBy is_fetch caller.old caller.new }
    ensures told { OnOk result ((known : Known)
        → Tells caller.old known out.old.items caller.new known out.new.items) }
    ensures asked { OnOk result
        (AllAsked caller.old watches.old.items entries caller.new watches.new.items) }
    ensures memory { OnErr result (map as_begun watches.new.items
        ≡ map as_begun watches.old.items) }
{
    for watch in watches.iter_mut() {
        watch.tell(caller, rt, node, entries, out)?;
    }
    Ok(())
}
