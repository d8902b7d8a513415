//! Calls. A reply is lent out of the pass, so a caller learns what becomes of its pass where the
//! pass comes first.
ghost use Rattle.std.specs.Borrow.{sem};
ghost use Rattle.node_threads.specs.Calls.{Record};
ghost use Rattle.node_threads.specs.Room.{IsSound};
ghost use Rattle.node_threads.specs.Applied.{Applied, Called, answer_now};
ghost use Rattle.node_threads.specs.Lending.{PassEnds};

use crate::fault::CallFault;
use crate::node::Node;
use crate::pass::Pass;
use crate::shared::Shared;
use policy_audit::{Event, Reply};
use std::sync::Wait;

impl Pass {
    /// Answers an event of this seat under a lock that the caller has taken, and keeps the call
    /// where it made an entry. It wakes nobody.
    pub fn apply(&mut self, shared: &mut Shared, event: Event) -> Result<&Reply, CallFault>
        ensures* applied { sem 𝓛 (PassEnds self.entry (λ pass.
            Applied shared.old self.old event (answer_now result) shared.new pass)) }
        ensures found { IsSound shared.old }
        ensures left { IsSound shared.new }
    {
        shared.enter(self, event)?;
        Ok(self.last_reply())
    }

    /// Takes the node's lock, answers an event of this seat, keeps the call where it made an entry,
    /// and wakes whom it concerns. The lock is free again while the caller looks at the reply.
    pub fn call<R: Wait>(&mut self, node: &Node, rt: &R, event: Event) -> Result<&Reply, CallFault>
        ensures* { sem 𝓛 (PassEnds self.entry (λ pass.
            Called self.old event (answer_now result) pass)) }
    {
        let mut shared = node.shared.lock(rt);
        let answer = self.apply(&mut shared, event);
        node.give_back(shared);
        answer
    }
}

impl Shared {
    /// `Pass::apply` with the lock first.
    pub fn apply<'a>(&mut self, pass: &'a mut Pass, event: Event) -> Result<&'a Reply, CallFault>
        ensures applied { (left : Record)
            × Applied self.old pass.old event (answer_now result) self.new left }
        ensures found { IsSound self.old }
        ensures left { IsSound self.new }
    {
        pass.apply(self, event)
    }
}

impl Node {
    /// `Pass::call` with the node first.
    pub fn call<'a, R: Wait + Sync>(
        &self,
        rt: &R,
        pass: &'a mut Pass,
        event: Event,
    ) -> Result<&'a Reply, CallFault>
        ensures { (left : Record) × Called pass.old event (answer_now result) left }
    {
        pass.call(self, rt, event)
    }
}
