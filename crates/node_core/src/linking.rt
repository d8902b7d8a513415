//! Links that open and end, and the frames that wait for them.
ghost use Rattle.std.specs.Prelude.{◌≡◌, [], IfOk};
ghost use Rattle.policy_audit.specs.Checks.{dial_checks, first_broken};
ghost use Rattle.policy_audit.specs.History.{History};
ghost use Rattle.policy_audit.specs.Policy.{next_number};
ghost use Rattle.node_core.specs.Core.{Keeps};
ghost use Rattle.node_core.specs.Gone.{AreCut, AreLost};
ghost use Rattle.node_core.specs.Links.{up_peer, dialled_link};
ghost use Rattle.policy_audit.specs.declared.event.Event.TheVariants as events;
ghost use Rattle.node_core.specs.Step.{Call, IsCalled, Answers, Says};

use crate::changes::{Leaving, changes_of, end_link};
use crate::entering::Answered;
use crate::fault::CoreFault;
use crate::kept::Kept;
use crate::link::Link;
use crate::link_state::LinkState;
use crate::links::{MAX_LINKS, drop_ended, is_dialling, place_of, place_of_up, remove};
use crate::running::Running;
use admission_rules::Admission;
use cookie_digest::Challenge;
use dist_types::{NodeName, OutOfMemory, TryClone, copies_of};
use link_states::{AwaitName, AwaitStatus};
use policy_audit::{Change, OutFrame, OutFrames, Reply, Rule};
use std::alloc::Global;

impl Kept {
    /// A link from a peer.
    #[tactic(auto, unfolding(crate::specs::Step::Answers))]
    pub fn opened(&mut self, number: u32, challenge: u32) -> Result<Answered, CoreFault>
        ghost call: { Call }
        requires called { IsCalled call self.old }
        requires number { number ≡ next_number call.past }
        ensures { Answers call (events.Opened challenge) self.new result }
    {
        if self.links.len() >= MAX_LINKS {
            return Err(CoreFault::Refused(Rule::LinksFull));
        }
        self.links.reserve(1)?;
        let state = AwaitName::new(Challenge::new(challenge));
        let waiting = Vec::new(self.alloc);
        self.links
            .push_reserved(Link::new(number, LinkState::Name(state), waiting));
        Ok(linked(self.alloc, number))
    }

    /// A link to a peer.
    #[tactic(auto, unfolding(crate::specs::Step::Answers))]
    pub fn dial(
        &mut self,
        number: u32,
        peer: &NodeName,
        challenge: u32,
    ) -> Result<Answered, CoreFault>
        ghost call: { Call }
        requires called { IsCalled call self.old }
        requires number { number ≡ next_number call.past }
        ensures { Answers call (events.Dial peer.now challenge) self.new result }
    {
        if let Some(rule) = self.dial_refusal(peer) {
            return Err(CoreFault::Refused(rule));
        }
        self.links.reserve(1)?;
        let link = dialled(self.alloc, number, peer, challenge, &self.admission)?;
        self.links.push_reserved(link);
        Ok(linked(self.alloc, number))
    }

    /// The first rule that a dial to this peer breaks.
    fn dial_refusal(&self, peer: &NodeName) -> Option<Rule>
        ghost past: { History }
        requires { Keeps past self.now }
        ensures { result ≡ first_broken (dial_checks past peer.now) }
    {
        if *peer == self.opening.name {
            return Some(Rule::OwnName);
        }
        if !self.admission.is_allowed(peer.as_bytes()) {
            return Some(Rule::NotAllowed);
        }
        if place_of_up(&self.links, peer).is_some() {
            return Some(Rule::LinkUp);
        }
        if is_dialling(&self.links, peer) {
            return Some(Rule::LinkPending);
        }
        if self.links.len() >= MAX_LINKS {
            return Some(Rule::LinksFull);
        }
        None
    }

    /// The frames that wait for a link are handed over.
    #[tactic(auto, unfolding(crate::specs::Step::Answers))]
    pub fn take(&mut self, number: u32) -> Result<Answered, CoreFault>
        ghost call: { Call }
        requires { IsCalled call self.old }
        ensures { Answers call (events.Take number) self.new result }
    {
        let Some(place) = place_of(&self.links, number) else {
            return Err(CoreFault::Refused(Rule::NoSuchLink));
        };
        let copies = OutFrames::of(copies_of(self.alloc, self.links[place].frames())?);
        let frames = self.links[place].hand_over(self.alloc);
        drop_ended(&mut self.links, place);
        let nothing = Vec::new(self.alloc);
        Ok(Answered::both(Reply::Out(frames), Reply::Out(copies), nothing))
    }

    /// A link is gone.
    #[tactic(auto, unfolding(crate::specs::Step::Answers))]
    pub fn lost(&mut self, number: u32) -> Result<Answered, CoreFault>
        ghost call: { Call }
        requires { IsCalled call self.old }
        ensures { Answers call (events.Lost number) self.new result }
    {
        let Some(place) = place_of(&self.links, number) else {
            return Err(CoreFault::Refused(Rule::NoSuchLink));
        };
        let changes = changes_without(self.alloc, &self.scopes, &self.links[place])?;
        cut_link(&mut self.scopes, &self.links[place]);
        remove(&mut self.links, number);
        Ok(Answered::changed(changes))
    }

    /// The link to a peer is given up.
    #[tactic(auto, unfolding(crate::specs::Step::Answers))]
    pub fn disconnect(&mut self, peer: &NodeName) -> Result<Answered, CoreFault>
        ghost call: { Call }
        requires { IsCalled call self.old }
        ensures { Answers call (events.Disconnect peer.now) self.new result }
    {
        let Some(place) = place_of_up(&self.links, peer) else {
            return Err(CoreFault::Refused(Rule::NoLinkTo));
        };
        let number = self.links[place].number();
        let changes = changes_without(self.alloc, &self.scopes, &self.links[place])?;
        cut_link(&mut self.scopes, &self.links[place]);
        remove(&mut self.links, number);
        Ok(Answered::changed(changes))
    }
}

/// The number of a new link is the answer.
fn linked(alloc: Global, number: u32) -> Answered
    ensures { Says result (Reply.Link number) [] }
{
    Answered::both(Reply::Link(number), Reply::Link(number), Vec::new(alloc))
}

/// A link to a peer, for which its first frame waits.
fn dialled(
    alloc: Global,
    number: u32,
    peer: &NodeName,
    challenge: u32,
    admission: &Admission,
) -> Result<Link, OutOfMemory>
    ensures { IfOk result (λ link. link ≡ dialled_link admission.now number peer.now challenge
        link.room) }
{
    let mut waiting = Vec::new(alloc);
    waiting.reserve(1)?;
    let name = peer.try_clone(alloc)?;
    match AwaitStatus::dial(alloc, name, Challenge::new(challenge), admission) {
        Ok((state, body)) => {
            waiting.push_reserved(OutFrame {
                wide: false,
                body: body.into_body(),
            });
            Ok(Link::new(number, LinkState::Status(state), waiting))
        }
        Err((_name, challenge)) => {
            challenge.discard();
            Err(OutOfMemory)
        }
    }
}

/// What the scopes lose with a link: the rows of its peer, if it is up.
pub fn changes_without(
    alloc: Global,
    scopes: &[Running],
    link: &Link,
) -> Result<Vec<Change>, OutOfMemory>
    ensures { IfOk result (λ changes. AreLost (up_peer link.now.state) scopes.now changes.items) }
{
    match link.up_peer() {
        Some(peer) => changes_of(alloc, scopes, Leaving::Node(peer)),
        None => Ok(Vec::new(alloc)),
    }
}

/// The scopes are cut off from a link, if it is up.
pub fn cut_link(scopes: &mut Vec<Running>, link: &Link)
    ensures { AreCut link.now.number (up_peer link.now.state) scopes.old.items scopes.new.items }
{
    if let Some(peer) = link.up_peer() {
        end_link(scopes, link.number(), peer);
    }
}
