//! A wire between two nodes.
ghost use Rattle.std.specs.Prelude.{◌≡◌, ◌↔◌, ◌≢◌, [], IsTrue};
ghost use Rattle.pg_world.specs.World.{dialled, node_at, link_at, under_way, other, with_link};
ghost use Rattle.pg_world.specs.Queues.{Answers, plain, count_handed, link_opened, joined_by, left_by, cut_by, oldest};
ghost use Rattle.pg_world.specs.Steps.{changed_queue};

use crate::fault::WorldFault;
use crate::node::Node;
use crate::queue::{cut_off, deliver_oldest, hand_over, plain};
use crate::side::Side;
use crate::world_step::WorldReply;
use node_core::CoreFault;
use policy_audit::{Event, OutFrame, Reply};
use std::alloc::Global;
use std::marker::Model;

/// A wire: a link at each end, and what is under way between them, the oldest first.
#[derive(Drop)]
pub struct Wire {
    /// The node that dialled, and the one that is dialled, by their places.
    from: usize,
    to: usize,
    /// The link of each there.
    dialled: u32,
    accepted: Option<u32>,
    to_dialler: Vec<OutFrame>,
    to_acceptor: Vec<OutFrame>,
}

impl Model for Wire {
    ghost use Rattle.pg_world.specs.World.{Wire as Ends};

    ghost Value = { Ends };

    ghost view = { λ x. record {
      from = x.from;
      to = x.to;
      dialled = x.dialled;
      accepted = x.accepted;
      to_dialler = x.to_dialler.items;
      to_acceptor = x.to_acceptor.items;
    } };
}

impl Wire {
    /// A wire that isn't accepted yet.
    pub(crate) fn new(alloc: Global, from: usize, to: usize, link: u32) -> Wire
        ensures { result ≡ dialled from to link }
    {
        Wire {
            from,
            to,
            dialled: link,
            accepted: None,
            to_dialler: Vec::new(alloc),
            to_acceptor: Vec::new(alloc),
        }
    }

    /// The node at a side.
    pub(crate) fn node(&self, side: Side) -> usize
        ensures { result ≡ node_at side self.now }
    {
        match side {
            Side::Dialler => self.from,
            Side::Acceptor => self.to,
        }
    }

    /// The link at a side.
    pub(crate) fn link(&self, side: Side) -> Option<u32>
        ensures { result ≡ link_at side self.now }
    {
        match side {
            Side::Dialler => Some(self.dialled),
            Side::Acceptor => self.accepted,
        }
    }

    /// Whether a frame is under way to a side.
    pub(crate) fn carries(&self, side: Side) -> bool
        ensures { IsTrue result ↔ (under_way side self.now ≢ []) }
    {
        match side {
            Side::Dialler => !self.to_dialler.is_empty(),
            Side::Acceptor => !self.to_acceptor.is_empty(),
        }
    }

    /// The node at the acceptor's side opens its link.
    pub(crate) fn accept(
        &mut self,
        core: &mut Node,
        seat: u32,
        challenge: u32,
    ) -> Result<WorldReply, WorldFault>
        ensures { Answers core.old seat (Event.Opened challenge) core.new (λ a.
            (self.new ≡ with_link (link_opened a) self.old) × (result ≡ plain a)) }
    {
        let answer = core.step(seat, Event::Opened(challenge));
        if let Some(link) = link_opened(&answer) {
            self.accepted = Some(link);
        }
        plain(answer)
    }

    /// The frames that wait at a side are under way to the other.
    pub(crate) fn hand(
        &mut self,
        side: Side,
        core: &mut Node,
        seat: u32,
        link: u32,
    ) -> Result<WorldReply, WorldFault>
        ensures { Answers core.old seat (Event.Take link) core.new (λ a.
            (self.new ≡ changed_queue (other side) (joined_by a) self.old)
            × (result ≡ count_handed a)) }
    {
        match side {
            Side::Dialler => hand_over(core, seat, link, &mut self.to_acceptor),
            Side::Acceptor => hand_over(core, seat, link, &mut self.to_dialler),
        }
    }

    /// The oldest frame under way to a side comes there.
    pub(crate) fn deliver(
        &mut self,
        alloc: Global,
        side: Side,
        core: &mut Node,
        seat: u32,
        link: u32,
    ) -> Result<WorldReply, WorldFault>
        requires { under_way side self.old ≢ [] }
        ensures { Answers core.old seat (Event.Frame link (oldest (under_way side self.old)))
            core.new (λ a. (self.new ≡ changed_queue side (left_by a) self.old)
            × (result ≡ plain a)) }
    {
        match side {
            Side::Dialler => deliver_oldest(alloc, core, seat, link, &mut self.to_dialler),
            Side::Acceptor => deliver_oldest(alloc, core, seat, link, &mut self.to_acceptor),
        }
    }

    /// The link at a side is lost.
    pub(crate) fn cut(
        &mut self,
        side: Side,
        core: &mut Node,
        seat: u32,
        link: u32,
    ) -> Result<WorldReply, WorldFault>
        ensures { Answers core.old seat (Event.Lost link) core.new (λ a.
            (self.new ≡ changed_queue side (cut_by a) self.old) × (result ≡ plain a)) }
    {
        match side {
            Side::Dialler => cut_off(core, seat, link, &mut self.to_dialler),
            Side::Acceptor => cut_off(core, seat, link, &mut self.to_acceptor),
        }
    }
}

/// The link that a node opened, if it did.
pub(crate) fn link_opened(answer: &Result<Reply, CoreFault>) -> Option<u32>
    ensures { result ≡ link_opened answer.now }
{
    match answer {
        Ok(Reply::Link(link)) => Some(*link),
        _ => None,
    }
}
