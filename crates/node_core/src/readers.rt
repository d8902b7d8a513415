//! What is read of a node without an entry.
ghost use Rattle.std.specs.Prelude.{◌≡◌, ℕ, cond, map, slice_get, List, IfOk};
ghost use Rattle.dist_types.specs.Listing.{same, occurrences};
ghost use Rattle.std.specs.Option.{option_copied};
ghost use Rattle.policy_audit.specs.Own.{lives, running_scopes};
ghost use Rattle.policy_audit.specs.Sides.{is_name_up};
ghost use Rattle.policy_audit.specs.Links.{is_up};
ghost use Rattle.node_core.specs.AdmissionFacts.{AdmissionFollows, admission_words};
ghost use Rattle.node_core.specs.LinkFacts.{kept_numbers};
ghost use Rattle.node_core.specs.Reading.{up_names, awaiting};

use crate::awaiting::{Awaiting, awaiting_of};
use crate::links::{is_up, place_of_up, up_peers};
use crate::node::NodeCore;
use admission_rules::Admission;
use dist_types::{NodeName, OutOfMemory, Pid, Scope};
use policy_audit::NodeNames;

impl NodeCore {
    /// Whether a link is up, by the number of the entry that opened it.
    pub fn is_up(&self, link: u32) -> bool
        ensures { result ≡ is_up link self.now.history.entries }
    {
        is_up(&self.kept.links, link)
    }

    /// Whether a link of this peer is up.
    pub fn is_peer_up(&self, peer: &NodeName) -> bool
        ensures { result ≡ is_name_up peer.now self.now.history.entries }
    {
        place_of_up(&self.kept.links, peer).is_some()
    }

    /// The peers that are up, each once, in the order in which their links were opened.
    pub fn peers(&self) -> Result<NodeNames, OutOfMemory>
        ensures names { IfOk result (λ names. names ≡ up_names self.now.history) }
        ensures once { IfOk result (λ names. (n : List ℕ) → occurrences same n names
            ≡ cond (is_name_up n self.now.history.entries) 1 0) }
    {
        Ok(NodeNames::of(up_peers(self.kept.alloc, &self.kept.links)?))
    }

    /// The kept links in the order in which they were opened, each with what it awaits.
    pub fn links(&self) -> Result<Vec<Awaiting>, OutOfMemory>
        ensures { IfOk result (λ links. links.items
            ≡ map (awaiting self.now.history) (kept_numbers self.now.history)) }
    {
        awaiting_of(self.kept.alloc, &self.kept.links)
    }

    /// The cookies and the allowed names: of each peer the last cookie that it was given, and each
    /// name once.
    pub fn admission(&self) -> &Admission
        ensures { AdmissionFollows (admission_words self.now.history) result.now }
    {
        &self.kept.admission
    }

    /// The scope at an index among those that run, which are ordered by their names.
    pub fn scope(&self, index: usize) -> Option<&Scope>
        ensures { option_copied result ≡ slice_get (running_scopes self.now.history) index }
    {
        let running = self.kept.scopes.as_slice().get(index)?;
        Some(&running.scope)
    }

    /// Whether the process is one of this node since its last restart, and lives.
    pub fn living(&self, pid: &Pid) -> bool
        ensures { result ≡ lives self.now.history pid.now }
    {
        self.kept.is_local(pid) && self.kept.processes.is_live(pid.number)
    }
}
