//! A node.
ghost use Rattle.std.specs.Prelude.{◌≡◌, ◌<◌, ◌≤◌, ◌^◌, ℕ, cond, List, [], Some, None, is_some, length, IfOk, IfErr, IfSome, OnOk};
ghost use Rattle.dist_types.specs.declared.pid.Pid.{Pid};
ghost use Rattle.handshake_frames.specs.Spelling.{IsVersion};
ghost use Rattle.scope_core.specs.Table.{count_of};
ghost use Rattle.group_monitors.specs.Follows.{Reaches};
ghost use Rattle.policy_audit.specs.History.{past, creation, audited, entered};
ghost use Rattle.policy_audit.specs.Own.{is_running};
ghost use Rattle.policy_audit.specs.Listed.{listed};
ghost use Rattle.policy_audit.specs.Owed.{waiting, is_kept, max_waiting};
ghost use Rattle.policy_audit.specs.Policy.{is_full, IsLegal};
ghost use Rattle.node_core.specs.Step.{IsOpenFault, IsStepped};

use crate::entering::enter;
use crate::fault::{CoreFault, OpenFault};
use crate::kept::Kept;
use crate::links::place_of;
use crate::processes::Processes;
use crate::running::let_go;
use admission_rules::Admission;
use dist_types::{NodeName, OutOfMemory, Scope, TryClone};
use group_monitors::Monitors;
use policy_audit::{Audit, Event, Opening, Reply};
use scope_core::ScopeTable;
use std::alloc::Global;
use std::fmt;
use std::marker::Model;

/// A node. It does no input or output of its own.
pub struct NodeCore {
    pub(crate) audit: Audit,
    pub(crate) kept: Kept,
}

impl Drop for NodeCore {
    fn drop(self) {
        let NodeCore { audit: _, kept: _ } = self;
    }
}

/// Shows the node's name, and how many entries it has.
impl fmt::Debug for NodeCore {
    fn fmt<W: fmt::Write>(&self, f: &mut fmt::Formatter<W>) -> fmt::Result {
        f.debug_struct("NodeCore")
            .field("name", self.name())
            .field("entries", &self.audit.len())
            .finish_non_exhaustive()
    }
}

impl Model for NodeCore {
    ghost use Rattle.policy_audit.specs.Policy.{history};
    ghost use Rattle.node_core.specs.Core.{IsCore};
    ghost use Rattle.node_core.specs.Recorded.{Recorded};

    ghost Value = { Recorded };

    ghost view = { λ core. record {
      history = history core.kept.opening core.audit.entries;
      forgotten = core.audit.forgotten;
    } };

    ghost invariant = { λ core. IsCore core.kept.opening core.audit core.kept };
}

impl NodeCore {
    /// A node that has seen nothing. `BadLimit` where the opening allows no entry, and else
    /// `BadLinks` where its version of link messages is neither 1 nor 2.
    pub fn new(alloc: Global, opening: Opening) -> Result<NodeCore, OpenFault>
        ensures ok { IfOk result (λ core.
            core ≡ record { history = past opening []; forgotten = 0 }) }
        ensures refused { IfErr result (λ fault. IsOpenFault fault opening) }
        ensures limit { OnOk result (0 < opening.entries) }
        ensures links { OnOk result (IsVersion opening.links) }
    {
        if opening.entries == 0 {
            return Err(OpenFault::BadLimit);
        }
        if opening.links == 0 || opening.links > 2 {
            return Err(OpenFault::BadLinks);
        }
        let admission = admission_of(alloc, &opening, opening.creation)?;
        let audit = Audit::new(alloc, opening.entries);
        let kept = Kept {
            alloc,
            opening,
            admission,
            processes: Processes::new(alloc),
            scopes: Vec::new(alloc),
            links: Vec::new(alloc),
            monitors: Monitors::new(alloc),
        };
        Ok(NodeCore { audit, kept })
    }

    /// All entries so far, refusals among them. Those that were handed out are known to contracts
    /// alone.
    pub fn audit(&self) -> &Audit
        ensures entries { result.now.entries ≡ audited self.now.history.entries }
        ensures count { length result.now.entries ≡ entered self.now.history.entries }
        ensures limit { result.now.limit ≡ self.now.history.opening.entries }
        ensures forgotten { result.now.forgotten ≡ self.now.forgotten }
        ensures had { self.now.forgotten ≤ entered self.now.history.entries }
        ensures reach { Reaches self.now.forgotten (audited self.now.history.entries) }
        ensures legal { IsLegal self.now.history }
        ensures few { entered self.now.history.entries ≤ self.now.history.opening.entries }
        ensures fits { self.now.history.opening.entries < 2 ^ 32 }
        ensures links { IsVersion self.now.history.opening.links }
    {
        &self.audit
    }

    /// Whether the audit has as many entries as it may have.
    pub fn is_full(&self) -> bool
        ensures { result ≡ is_full self.now.history }
    {
        self.audit.len() >= self.kept.opening.entries as usize
    }

    /// The creation of the node, which its processes and its frames carry.
    pub fn creation(&self) -> u32
        ensures { result ≡ creation self.now.history }
    {
        self.kept.admission.creation()
    }

    /// The node's own name.
    pub fn name(&self) -> &NodeName
        ensures { result.now ≡ self.now.history.opening.name }
    {
        &self.kept.opening.name
    }

    /// The table of a scope, if it runs. It is of this node, and counts what is listed.
    pub fn table(&self, scope: &Scope) -> Option<&ScopeTable>
        ensures runs { is_some result ≡ is_running self.now.history scope.now }
        ensures own { IfSome result (λ table. table.now.own ≡ self.now.history.opening.name) }
        ensures listed { IfSome result (λ table. (g : List ℕ) (p : Pid) → count_of table.now g p
            ≡ listed self.now.history scope.now g p) }
    {
        Some(&self.running(scope)?.table)
    }

    /// How many frames wait for a link, at most 1,024, if it is kept: while it is open, or has
    /// frames that waited when a refused frame of its own ended it.
    pub fn waiting(&self, link: u32) -> Option<usize>
        ensures waiting { result
            ≡ cond (is_kept self.now.history link) (Some (length (waiting self.now.history link)))
            None }
        ensures few { IfSome result (λ n. n ≤ max_waiting) }
    {
        let place = place_of(&self.kept.links, link)?;
        Some(self.kept.links[place].frames().len())
    }

    /// Lets go of what is only kept to answer sooner, so that others find memory. It takes none.
    pub fn let_go(&mut self)
        ensures { self.new ≡ self.old }
    {
        let_go(&mut self.kept.scopes);
    }

    /// Answers an event of a seat by the written policy, and enters it with what it changed.
    /// `Refused` names the first rule that the event breaks; that is an entry, too, unless the
    /// audit is full. After `OutOfMemory` nothing has happened.
    pub fn step(&mut self, seat: u32, event: Event) -> Result<Reply, CoreFault>
        ensures stepped { IsStepped self.old.history seat event self.new.history result }
        ensures forgotten { self.new.forgotten ≡ self.old.forgotten }
    {
        if let Err(fault) = self.audit.make_room() {
            // By name, so that a check follows the end of an event once, for its type.
            drop(event);
            return Err(CoreFault::from(fault));
        }
        let number = self.audit.len() as u32 + 1;
        let event = self.kept.shared(event);
        let answered = self.kept.answer(&self.audit, seat, number, &event);
        enter(self.kept.alloc, &mut self.audit, seat, event, answered)
    }
}

/// How a node admits its peers that begins with this creation.
pub(crate) fn admission_of(
    alloc: Global,
    opening: &Opening,
    creation: u32,
) -> Result<Admission, OutOfMemory>
    requires { IsVersion opening.now.links }
    ensures { IfOk result (λ a. a ≡ record {
      own = opening.now.name;
      cookie = opening.now.cookie;
      hidden = opening.now.hidden;
      creation = creation;
      links = opening.now.links;
      peers = [];
      allowed = [];
    }) }
{
    let own = opening.name.try_clone(alloc)?;
    let cookie = opening.cookie.try_clone(alloc)?;
    Ok(Admission::new(alloc, own, cookie, opening.hidden, creation, opening.links))
}
