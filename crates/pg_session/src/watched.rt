//! What many monitors watch: entries are looked at once for all of them.
ghost use Rattle.std.specs.Prelude.{◌≡◌, ◌&&◌, ℕ, [], ◌∷◌, List, map, IfOk, OnOk, Some, None};
ghost use Rattle.std.specs.List.{All, list_any};
ghost use Rattle.std.specs.Option.{option_map, unwrap_or};
ghost use Rattle.policy_audit.specs.declared.entry.Entry.{Entry};
ghost use Rattle.policy_audit.specs.Monitors.{Target, is_watched};
ghost use Rattle.dist_types.specs.Listing.{same};
ghost use Rattle.pg_session.specs.Watching.{stops, noted, target};
ghost use Rattle.pg_session.specs.declared.watch.Watch.{Watch};
ghost use Rattle.pg_session.specs.Watched.{Awaits, Knows, Notes, Raises};
ghost use Rattle.pg_session.specs.Watched.{all_of, last_change, last_stop, raised, told_by};

use crate::news::Seen;
use crate::watch::{Watch, note_all, stopped_scope};
use dist_types::{Group, GroupChange, OutOfMemory, Scope, TryClone};
use node_threads::Node;
use policy_audit::{Change, Entry, Later};
use std::alloc::Global;
use std::collections::BTreeMap;
use std::sync::Wait;

/// So many monitors look at the entries one by one, however many there are.
const FEW: usize = 16;

/// So many times may more of them look at an entry under the node's lock.
const AT_ONCE: usize = 65_536;

/// The last entries that had to do with a scope, 0 where none had.
#[derive(Drop)]
struct ScopeNews {
    /// The last one that stopped it.
    stopped: u32,
    /// The last one that changed its rows.
    changed: u32,
    /// The last one that changed rows of a group, of those that are watched.
    groups: BTreeMap<Group, u32>,
}

impl ScopeNews {
    fn new(alloc: Global) -> ScopeNews
        ensures stopped { result.stopped ≡ 0 }
        ensures changed { result.changed ≡ 0 }
    {
        ScopeNews {
            stopped: 0,
            changed: 0,
            groups: BTreeMap::new(alloc),
        }
    }

    /// Notes that an entry of this number changed these groups.
    fn note(&mut self, changes: &[GroupChange], number: u32)
        ensures { Raises (λ g. list_any (is_watched g) changes.now) number self.old self.new }
    {
        for change in changes {
            self.note_group(change, number);
        }
    }

    fn note_group(&mut self, change: &GroupChange, number: u32)
        ensures { Raises (λ g. is_watched g change.now) number self.old self.new }
    {
        self.changed = self.changed.max(number);
        if let Some(last) = self.groups.get_mut(&change.group) {
            *last = (*last).max(number);
        }
    }
}

/// What some monitors watch.
#[derive(Drop)]
pub struct Watched {
    scopes: BTreeMap<Scope, ScopeNews>,
}

impl Watched {
    /// What these monitors watch, where each of them would look at so many entries that the node's
    /// lock were held for long.
    pub fn of_many<R: Wait>(
        rt: &R,
        alloc: Global,
        node: &Node,
        watches: &[Watch],
        seen: Seen,
    ) -> Option<Watched>
        ensures { Awaits [] watches.now result watches.now }
    {
        if watches.len() <= FEW {
            return None;
        }
        let entries = seen.behind(&node.shared.lock(rt));
        if entries.saturating_mul(watches.len()) <= AT_ONCE {
            return None;
        }
        Watched::of(alloc, watches).ok()
    }

    fn of(alloc: Global, watches: &[Watch]) -> Result<Watched, OutOfMemory>
        ensures { IfOk result (λ watched. All (λ w. Knows watched [] (target w)) watches.now) }
    {
        let mut watched = Watched {
            scopes: BTreeMap::new(alloc),
        };
        for watch in watches {
            watched.add_scope(alloc, watch.scope())?;
        }
        for watch in watches {
            watched.add_group(alloc, watch)?;
        }
        Ok(watched)
    }

    fn add_scope(&mut self, alloc: Global, scope: &Scope) -> Result<(), OutOfMemory>
        ensures added { OnOk result (Knows self.new [] (all_of scope.now)) }
        ensures same { OnOk result ((s : List ℕ)
            → Knows self.old [] (all_of s) → Knows self.new [] (all_of s)) }
    {
        self.scopes
            .insert(scope.try_clone(alloc)?, ScopeNews::new(alloc))?;
        Ok(())
    }

    /// Adds the group of a monitor, if it watches one, to the groups of its scope.
    fn add_group(&mut self, alloc: Global, watch: &Watch) -> Result<(), OutOfMemory>
        ensures added { OnOk result (Knows self.old [] (all_of watch.now.scope)
            → Knows self.new [] (target watch.now)) }
        ensures same { OnOk result ((t : Target) → Knows self.old [] t → Knows self.new [] t) }
    {
        let Some(group) = watch.group() else {
            return Ok(());
        };
        if let Some(news) = self.scopes.get_mut(watch.scope()) {
            news.groups.insert(group.try_clone(alloc)?, 0)?;
        }
        Ok(())
    }

    /// Notes what these entries have changed and stopped.
    fn note_all(&mut self, entries: Later<'_>)
        ensures { Notes entries.entry self.old self.new }
    {
        for entry in entries {
            self.note(entry);
        }
    }

    fn note(&mut self, entry: &Entry)
        ensures { Notes (entry.now ∷ []) self.old self.new }
    {
        self.note_stop(entry);
        self.note_changes(entry.change.as_slice(), entry.number);
    }

    fn note_stop(&mut self, entry: &Entry)
        ensures stops { (s : List ℕ) → last_stop self.new s
            ≡ option_map (raised (stops s entry.now) entry.now.number) (last_stop self.old s) }
        ensures changes { (t : Target) → last_change self.new t ≡ last_change self.old t }
    {
        let Some(scope) = stopped_scope(entry) else {
            return;
        };
        if let Some(news) = self.scopes.get_mut(scope) {
            news.stopped = news.stopped.max(entry.number);
        }
    }

    fn note_changes(&mut self, changes: &[Change], number: u32)
        ensures stops { (s : List ℕ) → last_stop self.new s ≡ last_stop self.old s }
        ensures changes { (t : Target) → last_change self.new t
            ≡ option_map (raised (list_any (λ c. same c.scope t.scope
            && list_any (is_watched t.group) c.groups) changes.now) number)
            (last_change self.old t) }
    {
        for change in changes {
            self.note_change(change, number);
        }
    }

    fn note_change(&mut self, change: &Change, number: u32)
        ensures stops { (s : List ℕ) → last_stop self.new s ≡ last_stop self.old s }
        ensures changes { (t : Target) → last_change self.new t
            ≡ option_map (raised (same change.now.scope t.scope
            && list_any (is_watched t.group) change.now.groups) number)
            (last_change self.old t) }
    {
        if let Some(news) = self.scopes.get_mut(&change.scope) {
            news.note(change.groups.as_slice(), number);
        }
    }

    /// Tells each of the monitors what the entries have changed and stopped of what it watches.
    fn tell(&self, watches: &mut Vec<Watch>)
        ensures { watches.new.items ≡ map (told_by self.now) watches.old.items }
    {
        for watch in watches.iter_mut() {
            self.tell_one(watch);
        }
    }

    fn tell_one(&self, watch: &mut Watch)
        ensures { watch.new ≡ told_by self.now watch.old }
    {
        let stopped = self.stopped(watch.scope());
        let changed = self.changed(watch.scope(), watch.group());
        watch.note_last(stopped, changed);
    }

    fn stopped(&self, scope: &Scope) -> u32
        ensures { result ≡ unwrap_or (last_stop self.now scope.now) 0 }
    {
        self.scopes.get(scope).map_or(0, |news| news.stopped)
    }

    fn changed(&self, scope: &Scope, group: Option<&Group>) -> u32
        ensures { result ≡ unwrap_or (last_change self.now (record {
          scope = scope.now;
          group = option_map (λ g. g.now) group.entry;
        })) 0 }
    {
        let Some(news) = self.scopes.get(scope) else {
            return 0;
        };
        match group {
            Some(group) => news.groups.get(group).copied().unwrap_or(0),
            None => news.changed,
        }
    }
}

/// Notes which monitors have something to tell of these entries, by what they watch, where that is
/// given. `tell_noted` tells them then, for which the node's lock isn't needed.
pub fn note_news(watched: &mut Option<Watched>, watches: &mut Vec<Watch>, entries: Later<'_>)
    ensures { Awaits [] watches.old.items watched.old watches.old.items
        → Awaits entries.entry watches.old.items watched.new watches.new.items }
{
    match watched {
        Some(watched) => watched.note_all(entries),
        None => note_all(watches, entries),
    }
}

/// Tells monitors what was noted for them.
pub fn tell_noted(watched: Option<Watched>, watches: &mut Vec<Watch>)
    ensures { (es : List Entry) (before : List Watch) → Awaits es before watched watches.old.items
        → watches.new.items ≡ map (noted es) before }
{
    if let Some(watched) = watched {
        watched.tell(watches);
    }
}
