//! How many rows each scope has, how many events each rule has refused, and how often links have
//! ended, as the audit of a life tells it.
ghost use Rattle.std.specs.Prelude.{◌≤◌, IfErr, vec_len};

use dist_types::{OutOfMemory, Scope, TryClone};
use pg_text::DownReason;
use policy_audit::{Change, Entry, Rule, Verdict};
use std::alloc::Global;

/// How often processes are in groups of a scope.
#[derive(Drop)]
struct ScopeRows {
    scope: Scope,
    rows: usize,
}

/// How many events a rule has refused.
#[derive(Clone, Copy, Debug, Drop)]
pub struct RuleTimes {
    pub rule: Rule,
    pub times: u64,
}

/// How many reasons there are for the end of a link.
const REASONS: usize = DownReason::ALL.len();

#[derive(Drop)]
pub struct Census {
    scopes: Vec<ScopeRows>,
    /// By their numbers, ascending.
    pub refused: Vec<RuleTimes>,
    /// How often links have ended, by the reason, as all are listed.
    pub downs: [u64; REASONS],
}

impl Census {
    pub fn new(alloc: Global) -> Census {
        Census {
            scopes: Vec::new(alloc),
            refused: Vec::new(alloc),
            downs: [0; REASONS],
        }
    }

    /// How often processes are in groups of the scope.
    pub fn rows_of(&self, scope: &Scope) -> usize {
        match self.scopes.iter().find(|counted| counted.scope == *scope) {
            Some(counted) => counted.rows,
            None => 0,
        }
    }

    /// Makes room to count an entry. To do so twice is the same.
    pub fn make_room(&mut self, alloc: Global, entry: &Entry) -> Result<(), OutOfMemory> {
        let changes = entry.change.as_slice();
        if !changes.iter().all(|change| self.is_counted(&change.scope)) {
            // One that has no rows has stopped, or is counted anew.
            self.scopes.retain(|counted| counted.rows > 0);
        }
        for change in changes {
            self.make_room_for(alloc, &change.scope)?;
        }
        if let Verdict::Refused(rule) = &entry.verdict {
            self.make_room_for_rule(*rule)?;
        }
        Ok(())
    }

    /// Counts what an entry says for which room was made.
    pub fn count(&mut self, entry: &Entry) {
        for change in entry.change.as_slice() {
            self.count_rows(change);
        }
        if let Verdict::Refused(rule) = &entry.verdict {
            self.count_refused(*rule);
        }
    }

    fn is_counted(&self, scope: &Scope) -> bool {
        self.scopes.iter().any(|counted| counted.scope == *scope)
    }

    fn make_room_for(&mut self, alloc: Global, scope: &Scope) -> Result<(), OutOfMemory> {
        if self.is_counted(scope) {
            return Ok(());
        }
        let scope = scope.try_clone(alloc)?;
        self.scopes.push(ScopeRows { scope, rows: 0 })?;
        Ok(())
    }

    fn count_rows(&mut self, change: &Change) {
        for counted in self.scopes.iter_mut() {
            if counted.scope == change.scope {
                for group in change.groups.as_slice() {
                    let rows = counted.rows.saturating_add(group.joined.as_slice().len());
                    counted.rows = rows.saturating_sub(group.left.as_slice().len());
                }
            }
        }
    }

    /// Counts the end of a link.
    pub fn note_down(&mut self, reason: DownReason) {
        for (known, times) in DownReason::ALL.iter().zip(self.downs.iter_mut()) {
            if *known == reason {
                *times = times.saturating_add(1);
            }
        }
    }

    fn make_room_for_rule(&mut self, rule: Rule) -> Result<(), OutOfMemory> {
        if let Err(place) = self.place_of(rule) {
            self.refused.insert(place, RuleTimes { rule, times: 0 })?;
        }
        Ok(())
    }

    fn count_refused(&mut self, rule: Rule) {
        if let Ok(place) = self.place_of(rule)
            && let Some(known) = self.refused.get_mut(place)
        {
            known.times = known.times.saturating_add(1);
        }
    }

    fn place_of(&self, rule: Rule) -> Result<usize, usize>
        ensures { IfErr result (λ place. place ≤ vec_len self.now.refused) }
    {
        self.refused
            .binary_search_by(|known| known.rule.number().cmp(&rule.number()))
    }
}
