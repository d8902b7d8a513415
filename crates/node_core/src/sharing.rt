//! Names that an event shares with what the node keeps, so that an entry of the audit has no copies
//! of its own.
ghost use Rattle.std.specs.Prelude.{◌≡◌};
ghost use Rattle.node_core.specs.ScopeFacts.{AreAscending};

use crate::kept::Kept;
use crate::running::find;
use dist_types::{Group, NodeName, Pid, Pids, Scope, TryClone};
use policy_audit::Event;
use std::alloc::Global;

impl Kept {
    /// The same event; what it names by the running scope, a group of it or the own node is the
    /// node's copy, where the node has one.
    pub fn shared(&self, event: Event) -> Event
        requires { AreAscending self.now.scopes.items }
        ensures { result ≡ event }
    {
        match event {
            Event::Join(scope, group, pids) => {
                let (scope, group) = self.shared_names(scope, group);
                Event::Join(scope, group, self.shared_pids(pids))
            }
            Event::Leave(scope, group, pids) => {
                let (scope, group) = self.shared_names(scope, group);
                Event::Leave(scope, group, self.shared_pids(pids))
            }
            Event::Members(scope, group) => {
                let (scope, group) = self.shared_names(scope, group);
                Event::Members(scope, group)
            }
            Event::LocalMembers(scope, group) => {
                let (scope, group) = self.shared_names(scope, group);
                Event::LocalMembers(scope, group)
            }
            Event::Groups(scope) => Event::Groups(self.shared_scope(scope)),
            Event::LocalGroups(scope) => Event::LocalGroups(self.shared_scope(scope)),
            Event::Exit(pid) => Event::Exit(self.shared_pid(pid)),
            other => other,
        }
    }

    fn shared_names(&self, scope: Scope, group: Group) -> (Scope, Group)
        requires { AreAscending self.now.scopes.items }
        ensures scope { result.0 ≡ scope }
        ensures group { result.1 ≡ group }
    {
        let Some(running) = find(&self.scopes, &scope) else {
            return (scope, group);
        };
        let group = match running.table.stored_group(&group) {
            Some(stored) => copy_or(self.alloc, stored, group),
            None => group,
        };
        (copy_or(self.alloc, &running.scope, scope), group)
    }

    fn shared_scope(&self, scope: Scope) -> Scope
        requires { AreAscending self.now.scopes.items }
        ensures { result ≡ scope }
    {
        match find(&self.scopes, &scope) {
            Some(running) => copy_or(self.alloc, &running.scope, scope),
            None => scope,
        }
    }

    fn shared_pids(&self, pids: Pids) -> Pids
        ensures { result ≡ pids }
    {
        let mut pids = pids.into_vec();
        for pid in pids.iter_mut() {
            share(self.alloc, &self.opening.name, &mut pid.node);
        }
        Pids::of(pids)
    }

    fn shared_pid(&self, mut pid: Pid) -> Pid
        ensures { result ≡ pid }
    {
        share(self.alloc, &self.opening.name, &mut pid.node);
        pid
    }
}

/// Puts a copy of the own name in place of an equal one.
fn share(alloc: Global, own: &NodeName, name: &mut NodeName)
    ensures { name.new ≡ name.old }
{
    if *name == *own {
        if let Ok(copy) = own.try_clone(alloc) {
            *name = copy;
        }
    }
}

/// A copy of what the node keeps, in place of an equal value.
fn copy_or<T: TryClone + Drop>(alloc: Global, kept: &T, given: T) -> T
    requires { kept.now ≡ given }
    ensures { result ≡ given }
{
    match kept.try_clone(alloc) {
        Ok(copy) => copy,
        Err(_) => given,
    }
}
