//! Whose a link is.
ghost use Rattle.std.specs.Prelude.{◌≡◌, false};
ghost use Rattle.std.specs.Option.{option_map, option_map_or};
ghost use Rattle.dist_types.specs.Listing.{same};
ghost use Rattle.node_core.specs.Links.{up_peer, dialled_peer, known_peer};

use crate::link::Link;
use crate::link_state::LinkState;
use dist_types::NodeName;

impl Link {
    /// Whether the link is up with this peer.
    pub fn is_up_with(&self, peer: &NodeName) -> bool
        ensures { result ≡ option_map_or (λ n. same n peer.now) (up_peer self.now.state) false }
    {
        match self.state() {
            LinkState::Up(up) => up.peer() == peer,
            _ => false,
        }
    }

    /// Whether the link is an own dial to this peer that is unfinished.
    pub fn is_dial_to(&self, peer: &NodeName) -> bool
        ensures { result ≡ option_map_or (λ n. same n peer.now) (dialled_peer self.now.state)
            false }
    {
        match self.state() {
            LinkState::Status(state) => state.peer() == peer,
            LinkState::Challenge(state) => state.peer() == peer,
            LinkState::Ack(state) => state.peer() == peer,
            _ => false,
        }
    }

    /// The peer, where it is known.
    pub fn peer(&self) -> Option<&NodeName>
        ensures { option_map (λ n. n.now) result ≡ known_peer self.now.state }
    {
        match self.state() {
            LinkState::Name(_) | LinkState::Ended => None,
            LinkState::Answer(state) => Some(state.peer()),
            LinkState::Reply(state) => Some(state.peer()),
            LinkState::Status(state) => Some(state.peer()),
            LinkState::Challenge(state) => Some(state.peer()),
            LinkState::Ack(state) => Some(state.peer()),
            LinkState::Up(up) => Some(up.peer()),
        }
    }

    /// The peer, if the link is up.
    pub fn up_peer(&self) -> Option<&NodeName>
        ensures { option_map (λ n. n.now) result ≡ up_peer self.now.state }
    {
        match self.state() {
            LinkState::Up(up) => Some(up.peer()),
            _ => None,
        }
    }

    /// The peer, if the link is an own dial that is unfinished.
    pub fn dialled_peer(&self) -> Option<&NodeName>
        ensures { option_map (λ n. n.now) result ≡ dialled_peer self.now.state }
    {
        match self.state() {
            LinkState::Status(state) => Some(state.peer()),
            LinkState::Challenge(state) => Some(state.peer()),
            LinkState::Ack(state) => Some(state.peer()),
            _ => None,
        }
    }
}
