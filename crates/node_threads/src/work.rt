//! What both workers of a link have in common.
ghost use Rattle.std.specs.Prelude.{[]};
ghost use Rattle.node_threads.specs.Calls.{Gains};

use crate::node::Node;
use crate::pass::Pass;
use std::alloc::Global;
use std::sync::Wait;

/// So many calls a worker's pass keeps at least.
const KEPT: usize = 256;

/// A link that is served, and where.
#[derive(Drop)]
pub(crate) struct LinkWork<'a, R> {
    pub(crate) rt: &'a R,
    pub(crate) alloc: Global,
    pub(crate) node: &'a Node,
    pub(crate) link: u32,
}

impl<R: Wait> LinkWork<'_, R> {
    /// Lets the calls of a worker's pass go, where there are many, and the node no longer keeps all
    /// entries itself.
    pub(crate) fn lighten(&self, pass: &mut Pass)
        ensures { Gains pass.old [] pass.new }
    {
        if pass.calls().len() >= KEPT && self.node.shared.lock(self.rt).has_forgotten() {
            pass.let_go();
        }
    }
}
