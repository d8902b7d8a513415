//! Which scopes run, who may connect and how many events were refused, as the audit of a life tells
//! it.
ghost use Rattle.std.specs.Prelude.{◌≡◌, ◌<◌, ◌+◌, ◌^◌, OnOk, OnErr};
ghost use Rattle.dist_types.specs.Listing.{Rises, placed};
ghost use Rattle.pg_ledger.specs.Telling.{NotesEntry, NotesEvent, NotesNames, nothing};

use dist_types::{NodeName, OutOfMemory, Scope, TryClone, copies_of};
use policy_audit::{Entry, Event, Verdict};
use std::alloc::Global;
use std::marker::Model;

/// What the entries of an audit say of the node alone.
#[derive(Drop)]
pub struct Account {
    scopes: Vec<Scope>,
    allowed: Vec<NodeName>,
    refused: usize,
    entries: usize,
}

impl Model for Account {
    ghost use Rattle.pg_ledger.specs.Telling.{Told};

    ghost Value = { Told };

    ghost view = { λ account. record {
      scopes = account.scopes.items;
      allowed = account.allowed.items;
      refused = account.refused;
      entries = account.entries;
    } };
}

impl Account {
    /// That of no entry.
    pub fn new(alloc: Global) -> Account
        ensures { result ≡ nothing }
    {
        Account {
            scopes: Vec::new(alloc),
            allowed: Vec::new(alloc),
            refused: 0,
            entries: 0,
        }
    }

    /// The scopes that run, ascending.
    pub fn scopes(&self) -> &[Scope]
        ensures { result.now ≡ self.now.scopes }
    {
        self.scopes.as_slice()
    }

    /// The names that may connect, ascending; all may, where there are none.
    pub fn allowed(&self) -> &[NodeName]
        ensures { result.now ≡ self.now.allowed }
    {
        self.allowed.as_slice()
    }

    /// How many events were refused.
    pub fn refused(&self) -> usize
        ensures { result ≡ self.now.refused }
    {
        self.refused
    }

    /// Of how many entries this is.
    pub fn entries(&self) -> usize
        ensures { result ≡ self.now.entries }
    {
        self.entries
    }

    /// Notes the next entry. Without memory for it nothing is noted.
    pub fn note(&mut self, alloc: Global, entry: &Entry) -> Result<(), OutOfMemory>
        ensures ok { OnOk result (NotesEntry entry.now self.old self.new) }
        ensures same { OnErr result (self.new ≡ self.old) }
    {
        match &entry.verdict {
            Verdict::Accepted(_) => {
                self.note_accepted(alloc, &entry.event)?;
                self.count();
            }
            Verdict::Refused(_) => {
                self.count_refused();
                self.count();
            }
        }
        Ok(())
    }

    fn count(&mut self)
        ensures { self.old.entries < 2 ^ 32
            → self.new ≡ record self.old { entries = self.old.entries + 1 } }
    {
        self.entries = self.entries.saturating_add(1);
    }

    fn count_refused(&mut self)
        ensures { self.old.refused < 2 ^ 32
            → self.new ≡ record self.old { refused = self.old.refused + 1 } }
    {
        self.refused = self.refused.saturating_add(1);
    }

    fn note_accepted(&mut self, alloc: Global, event: &Event) -> Result<(), OutOfMemory>
        ensures ok { OnOk result (NotesEvent event.now self.old self.new) }
        ensures same { OnErr result (self.new ≡ self.old) }
    {
        match event {
            Event::Restart => {
                self.scopes.clear();
                self.allowed.clear();
            }
            Event::Allow(names) => self.note_allowed(alloc, names.as_slice())?,
            Event::StartScope(scope) => insert(alloc, &mut self.scopes, scope)?,
            Event::StopScope(scope) => self.scopes.retain(|running| running != scope),
            _ => {}
        }
        Ok(())
    }

    /// Notes that these may connect, too: all of them, or none where memory is wanting.
    fn note_allowed(&mut self, alloc: Global, names: &[NodeName]) -> Result<(), OutOfMemory>
        ensures ok { OnOk result (NotesNames names.now self.old self.new) }
        ensures same { OnErr result (self.new ≡ self.old) }
    {
        let mut allowed = copies_of(alloc, self.allowed.as_slice())?;
        for name in names {
            insert(alloc, &mut allowed, name)?;
        }
        self.allowed = allowed;
        Ok(())
    }
}

/// Puts a copy of an item in its place among ascending ones, unless it is there.
fn insert<T: TryClone + Ord + Drop>(
    alloc: Global,
    items: &mut Vec<T>,
    item: &T,
) -> Result<(), OutOfMemory>
    ensures ok { OnOk result (Rises T.cmp items.old.items
        → items.new.items ≡ placed T.cmp item.now items.old.items) }
    ensures same { OnErr result (items.new.items ≡ items.old.items) }
{
    if let Err(place) = items.binary_search(item) {
        items.insert(place, item.try_clone(alloc)?)?;
    }
    Ok(())
}
