//! The monitors of a node (Kernel manual, `pg:monitor/2`, `pg:monitor_scope/1`, `pg:demonitor/2`).
ghost use Rattle.std.specs.Prelude.{◌≡◌, ◌++◌, ◌∷◌, [], ◌≤◌, nat_le, Some, None, length, not, IfOk, IfErr, OnOk, OnErr, IfSome, IsSome};
ghost use Rattle.std.specs.List.{list_all};
ghost use Rattle.std.specs.Option.{option_map};
ghost use Rattle.dist_types.specs.Listing.{same};
ghost use Rattle.group_monitors.specs.Monitors.{monitor_of, IsFree, IsNumbered, HasSeen, updates_behind, with_place, without, without_scope, IsUpdatesFault};

use crate::fault::{NoMonitor, UpdatesFault};
use crate::monitor::Monitor;
use crate::told::told_by;
use dist_types::{Group, OutOfMemory, Scope};
use indexmap::IndexMap;
use policy_audit::{Audit, Place, Updates};
use std::alloc::Global;
use std::marker::Model;

/// The monitors of all seats, in the order in which they were added.
#[derive(Debug)]
pub struct Monitors {
    monitors: IndexMap<u32, Monitor>,
}

impl Drop for Monitors {
    fn drop(self) {
        let Monitors { monitors: _ } = self;
    }
}

impl Model for Monitors {
    ghost use Rattle.std.specs.Prelude.{List, ℕ, nat_eq};
    ghost use Rattle.indexmap.specs.IndexMap.{IsUnique};
    ghost use Rattle.group_monitors.specs.declared.monitor.Monitor.{Monitor as Watch};

    ghost Value = { List (ℕ × Watch) };

    ghost view = { λ m. m.monitors.entries };

    ghost invariant = { λ m. IsUnique nat_eq m.monitors };
}

impl Monitors {
    pub fn new(alloc: Global) -> Monitors
        ensures { result ≡ [] }
    {
        Monitors {
            monitors: IndexMap::new(alloc),
        }
    }

    /// Adds a monitor of one group, that has seen the entries up to its number.
    pub fn add_group(
        &mut self,
        seat: u32,
        number: u32,
        scope: Scope,
        group: Group,
    ) -> Result<(), OutOfMemory>
        requires { IsFree number self.old }
        ensures ok { OnOk result (self.new ≡ self.old
            ++ (number, record { seat = seat; scope = scope; group = Some group; place = number })
            ∷ []) }
        ensures same { OnErr result (self.new ≡ self.old) }
    {
        self.add(seat, number, scope, Some(group))
    }

    /// Adds a monitor of all groups of a scope, that has seen the entries up to its number.
    pub fn add_scope(&mut self, seat: u32, number: u32, scope: Scope) -> Result<(), OutOfMemory>
        requires { IsFree number self.old }
        ensures ok { OnOk result (self.new ≡ self.old
            ++ (number, record { seat = seat; scope = scope; group = None; place = number }) ∷ []) }
        ensures same { OnErr result (self.new ≡ self.old) }
    {
        self.add(seat, number, scope, None)
    }

    /// Takes a monitor of the seat away.
    pub fn remove(&mut self, seat: u32, number: u32) -> Result<(), NoMonitor>
        ensures ok { OnOk result (IsSome (monitor_of self.old seat number)
            × (self.new ≡ without seat number self.old)) }
        ensures refused { OnErr result (monitor_of self.old seat number ≡ None) }
        ensures same { OnErr result (self.new ≡ self.old) }
    {
        self.find(seat, number)?;
        self.monitors.shift_remove(&number);
        Ok(())
    }

    /// What the entries behind its place tell a monitor of the seat. It has the same to tell until
    /// `advance`.
    pub fn updates(&self, seat: u32, number: u32, audit: &Audit) -> Result<Updates, UpdatesFault>
        requires seen { HasSeen (monitor_of self.now seat number) audit.now.entries }
        requires kept { IfSome (monitor_of self.now seat number)
            (λ m. audit.now.forgotten ≤ m.place) }
        ensures ok { IfOk result (λ updates.
            option_map (updates_behind audit.now.entries) (monitor_of self.now seat number)
            ≡ Some updates) }
        ensures refused { IfErr result (λ fault.
            IsUpdatesFault fault (monitor_of self.now seat number)) }
    {
        let monitor = self.find(seat, number)?;
        let later = audit.behind(&monitor.place);
        let updates = told_by(*self.monitors.allocator(), monitor, later)?;
        Ok(Updates::of(updates)?)
    }

    /// Whether none has still to be told of the first entries, as many as the number says.
    pub fn are_behind(&self, number: usize) -> bool
        ensures { result ≡ list_all (λ m. nat_le number m.1.place) self.now }
    {
        for monitor in self.monitors.values() {
            if !monitor.place.is_behind(number) {
                return false;
            }
        }
        true
    }

    /// Moves the place of a monitor of the seat to the end of the audit.
    pub fn advance(&mut self, seat: u32, number: u32, audit: &Audit) -> Result<(), NoMonitor>
        requires { HasSeen (monitor_of self.old seat number) audit.now.entries }
        ensures ok { OnOk result (IsSome (monitor_of self.old seat number)
            × (self.new ≡ with_place seat number (length audit.now.entries) self.old)) }
        ensures refused { OnErr result (monitor_of self.old seat number ≡ None) }
        ensures same { OnErr result (self.new ≡ self.old) }
    {
        self.advance_to(seat, number, audit.len())
    }

    /// Moves the place of a monitor of the seat behind so many entries.
    pub fn advance_to(&mut self, seat: u32, number: u32, place: usize) -> Result<(), NoMonitor>
        ensures ok { OnOk result (IsSome (monitor_of self.old seat number)
            × (self.new ≡ with_place seat number place self.old)) }
        ensures refused { OnErr result (monitor_of self.old seat number ≡ None) }
        ensures same { OnErr result (self.new ≡ self.old) }
    {
        let Some(monitor) = self.monitors.get_mut(&number) else {
            return Err(NoMonitor);
        };
        if monitor.seat != seat {
            return Err(NoMonitor);
        }
        monitor.place = Place::behind(place);
        Ok(())
    }

    /// Takes all monitors of a scope away.
    pub fn drop_scope(&mut self, scope: &Scope)
        ensures dropped { self.new ≡ without_scope scope.now self.old }
        ensures numbers { IsNumbered self.old }
    {
        self.monitors.retain(
            |_number: &u32, monitor: &mut Monitor| -> bool
                ensures { (result ≡ not (same monitor.old.scope scope.entry.now))
                    × (monitor.new ≡ monitor.old) }
            { monitor.scope != *scope },
        );
    }

    /// Takes all monitors away.
    pub fn clear(&mut self)
        ensures { self.new ≡ [] }
    {
        self.monitors.clear();
    }

    /// Adds a monitor, with its number as its place.
    fn add(
        &mut self,
        seat: u32,
        number: u32,
        scope: Scope,
        group: Option<Group>,
    ) -> Result<(), OutOfMemory>
        requires { IsFree number self.old }
        ensures ok { OnOk result (self.new ≡ self.old
            ++ (number, record { seat = seat; scope = scope; group = group; place = number })
            ∷ []) }
        ensures same { OnErr result (self.new ≡ self.old) }
    {
        let place = Place::behind(number as usize);
        self.monitors.insert(
            number,
            Monitor {
                seat,
                scope,
                group,
                place,
            },
        )?;
        Ok(())
    }

    /// The monitor of the seat with this number.
    fn find(&self, seat: u32, number: u32) -> Result<&Monitor, NoMonitor>
        ensures ok { IfOk result (λ monitor. monitor_of self.now seat number ≡ Some monitor.now) }
        ensures refused { OnErr result (monitor_of self.now seat number ≡ None) }
    {
        match self.monitors.get(&number) {
            Some(monitor) if monitor.seat == seat => Ok(monitor),
            _ => Err(NoMonitor),
        }
    }
}
