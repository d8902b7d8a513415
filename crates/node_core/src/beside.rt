//! The other links of a node, while one of them hears a frame.
ghost use Rattle.std.specs.Prelude.{◌≡◌};
ghost use Rattle.node_core.specs.Hearing.{beside};

use crate::link::Link;
use crate::links::{is_dialling, place_of_up};
use dist_types::NodeName;
use link_states::OtherLinks;
use std::marker::Model;

/// The links beside the one that hears a frame.
#[derive(Drop)]
pub struct Beside<'a> {
    links: &'a [Link],
}

impl<'a> Model for Beside<'a> {
    ghost use Rattle.link_states.specs.declared.pending.Pending.{Pending};
    ghost use Rattle.node_core.specs.Hearing.{beside};

    ghost Value = { Pending };

    ghost view = { λ others. beside others.links.now };
}

impl<'a> Beside<'a> {
    pub fn of(links: &'a [Link]) -> Beside<'a>
        ensures { result ≡ beside links.now }
    {
        Beside { links }
    }
}

impl<'a> OtherLinks for Beside<'a> {
    ghost pending = { λ others. others };

    fn is_up(&self, peer: &NodeName) -> bool {
        place_of_up(self.links, peer).is_some()
    }

    fn is_dialled(&self, peer: &NodeName) -> bool {
        is_dialling(self.links, peer)
    }
}
