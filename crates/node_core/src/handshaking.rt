//! Frames of the handshake.
ghost use Rattle.std.specs.Prelude.{◌≡◌, ◌+◌, ◌<◌, ◌≤◌, ◌++◌, vec_len, vec_capacity, [], cond, true, length, find, is_some, map, Some, None, IfOk};
ghost use Rattle.std.specs.List.{insert};
ghost use Rattle.std.specs.Option.{unwrap_or};
ghost use Rattle.link_frames.specs.declared.message.Message.TheVariants as said;
ghost use Rattle.policy_audit.specs.Owed.{wide};
ghost use Rattle.node_core.specs.Links.{known_peer, dial_beside, narrow_frames};
ghost use Rattle.node_core.specs.Handshakes.{IsReady, HaveGoneOn, HaveEnded, HaveComeUp, moved_on, older_of};
ghost use Rattle.node_core.specs.Gone.{AreLost};
ghost use Rattle.policy_audit.specs.declared.event.Event.TheVariants as events;
ghost use Rattle.node_core.specs.FramesHere.{AwaitsEarly, AwaitsLast};
ghost use Rattle.node_core.specs.Step.{Call, IsCalled, Answers};

use crate::beside::Beside;
use crate::changes::{Leaving, changes_of, end_link};
use crate::entering::Answered;
use crate::fault::CoreFault;
use crate::frames::discover_frame;
use crate::hearing::{Heard, hear};
use crate::kept::Kept;
use crate::link::{Link, Stateless};
use crate::link_state::LinkState;
use crate::links::{dial_to, place_of, remove};
use crate::running::Running;
use dist_types::{Body, NodeName, OutOfMemory, TryClone};
use link_states::{Bodies, Up};
use policy_audit::{Change, OutFrame, Reply, Rule};
use std::alloc::Global;

/// The most frames of the handshake that one frame owes.
const MOST_OWED: usize = 2;

/// What is made ready for a link before it is known whether it comes up.
#[derive(Drop)]
struct Arrival {
    /// The name of the peer, for the answer.
    peer: NodeName,
    /// The name of the peer, for the audit.
    kept: NodeName,
    /// What the scopes lose with an older link of the peer.
    changes: Vec<Change>,
    /// A Discover for each scope that runs.
    discovers: Vec<OutFrame>,
}

impl Kept {
    /// A frame that came on a link.
    #[tactic(auto, unfolding(crate::specs::Step::Answers))]
    pub fn frame(&mut self, number: u32, body: &Body) -> Result<Answered, CoreFault>
        ghost call: { Call }
        requires { IsCalled call self.old }
        ensures { Answers call (events.Frame number body.now) self.new result }
    {
        let Some(place) = place_of(&self.links, number) else {
            return Err(CoreFault::Refused(Rule::NoSuchLink));
        };
        match self.links[place].state() {
            LinkState::Ended => Err(CoreFault::Refused(Rule::NoSuchLink)),
            LinkState::Up(_) => self.message(place, number, body),
            LinkState::Reply(_) => self.last_frame(place, number, body),
            LinkState::Ack(_) => self.last_frame(place, number, body),
            _ => self.early_frame(place, number, body),
        }
    }

    /// A frame that is not the last of a handshake.
    #[tactic(auto, unfolding(crate::specs::Step::Answers))]
    fn early_frame(&mut self, place: usize, number: u32, body: &Body) -> Result<Answered, CoreFault>
        ghost call: { Call }
        requires { AwaitsEarly call self.old place number }
        ensures { Answers call (events.Frame number body.now) self.new result }
    {
        self.links[place].make_room(MOST_OWED)?;
        let (state, link) = self.links.remove(place).into_parts();
        let bytes = body.as_slice();
        let heard = hear(
            self.alloc,
            state,
            bytes,
            &self.admission,
            &Beside::of(&self.links),
        );
        match heard {
            Heard::On {
                state,
                frames,
                gives_up,
            } => {
                go_on(&mut self.links, place, link, state, frames, gives_up);
                Ok(Answered::done(self.alloc))
            }
            Heard::Ended { rule, frames } => {
                end(&mut self.links, place, link, frames);
                Err(CoreFault::Refused(rule))
            }
            Heard::OutOfMemory(state) => {
                put(&mut self.links, place, link.in_state(state));
                Err(CoreFault::OutOfMemory)
            }
            Heard::Up { .. } => unreachable!(),
        }
    }

    /// The last frame of a handshake.
    #[tactic(auto, unfolding(crate::specs::Step::Answers))]
    fn last_frame(&mut self, place: usize, number: u32, body: &Body) -> Result<Answered, CoreFault>
        ghost call: { Call }
        requires { AwaitsLast call self.old place number }
        ensures { Answers call (events.Frame number body.now) self.new result }
    {
        self.links[place].make_room(MOST_OWED + self.scopes.len())?;
        let arrival = arrival_of(self.alloc, &self.links[place], &self.scopes)?;
        let (state, link) = self.links.remove(place).into_parts();
        let bytes = body.as_slice();
        let heard = hear(
            self.alloc,
            state,
            bytes,
            &self.admission,
            &Beside::of(&self.links),
        );
        match heard {
            Heard::Up { up, frames } => {
                let Arrival {
                    peer,
                    kept,
                    changes,
                    discovers,
                } = arrival;
                let (reply, copy) = (up_reply(peer, &up), up_reply(kept, &up));
                let gone = older_of(&self.links, up.peer()).unwrap_or(link.number());
                end_link(&mut self.scopes, gone, up.peer());
                come_up(&mut self.links, place, link, up, frames, discovers);
                Ok(Answered::both(reply, copy, changes))
            }
            Heard::Ended { rule, frames } => {
                drop(arrival);
                end(&mut self.links, place, link, frames);
                Err(CoreFault::Refused(rule))
            }
            Heard::OutOfMemory(state) => {
                drop(arrival);
                put(&mut self.links, place, link.in_state(state));
                Err(CoreFault::OutOfMemory)
            }
            Heard::On { .. } => unreachable!(),
        }
    }
}

/// The handshake of a link goes on, at this place. Where it gives an own dial to its peer up, that
/// dial is gone.
fn go_on(
    links: &mut Vec<Link>,
    place: usize,
    link: Stateless,
    state: LinkState,
    frames: Bodies,
    gives_up: bool,
)
    requires within { place ≤ vec_len links.old }
    requires space { vec_len links.old < vec_capacity links.old }
    requires ready { IsReady link (length frames) }
    ensures { HaveGoneOn place link state frames gives_up links.old.items links.new.items }
{
    let dial = if gives_up {
        dial_beside(links, &state)
    } else {
        None
    };
    let mut link = link.in_state(state);
    link.owe_bodies(frames);
    put(links, place, link);
    if let Some(number) = dial {
        remove(links, number);
    }
}

/// The number of the own dial to the peer of a link in this state, which awaits a reply.
fn dial_beside(links: &[Link], state: &LinkState) -> Option<u32>
    ensures { result ≡ dial_beside state.now links.now }
{
    let LinkState::Reply(reply) = state else {
        return None;
    };
    Some(dial_to(links, reply.peer())?.number())
}

/// A link has ended. It is kept, at this place, where frames wait for it.
fn end(links: &mut Vec<Link>, place: usize, link: Stateless, frames: Bodies)
    requires within { place ≤ vec_len links.old }
    requires space { vec_len links.old < vec_capacity links.old }
    requires ready { IsReady link (length frames) }
    ensures { HaveEnded place link frames links.old.items links.new.items }
{
    let mut link = link.in_state(LinkState::Ended);
    link.owe_bodies(frames);
    if link.frames().is_empty() {
        // By name, so that a check follows the end of a link once.
        drop(link);
    } else {
        put(links, place, link);
    }
}

/// A link is up, at this place, and an older one of its peer is gone.
fn come_up(
    links: &mut Vec<Link>,
    place: usize,
    link: Stateless,
    up: Up,
    frames: Bodies,
    discovers: Vec<OutFrame>,
)
    requires within { place ≤ vec_len links.old }
    requires space { vec_len links.old < vec_capacity links.old }
    requires ready { IsReady link (length frames + length discovers.items) }
    ensures { HaveComeUp place link up frames discovers.items links.old.items links.new.items }
{
    let older = older_of(links, up.peer());
    let visible = up.visible();
    let mut link = link.in_state(LinkState::Up(up));
    owe_all(&mut link, frames, visible, discovers);
    put(links, place, link);
    if let Some(number) = older {
        remove(links, number);
    }
}

/// Puts a link in at this place, into the room that there is.
fn put(links: &mut Vec<Link>, place: usize, link: Link)
    requires within { place ≤ vec_len links.old }
    requires space { vec_len links.old < vec_capacity links.old }
    ensures { links.new.items ≡ insert links.old.items place link }
{
    // This can't fail, since there is room.
    let _ = links.insert(place, link);
}

/// Frames that wait from now on: those of the handshake, and then the Discovers, if the link is
/// visible.
fn owe_all(link: &mut Link, frames: Bodies, visible: bool, discovers: Vec<OutFrame>)
    requires room { length frames + length discovers.items ≤ link.old.room }
    requires idle { link.old.prepared ≡ [] }
    requires unbegun { link.old.begun ≡ None }
    ensures { link.new ≡ moved_on link.old.state (narrow_frames frames
        ++ cond visible discovers.items []) link.new.room link.old }
{
    link.owe_bodies(frames);
    if visible {
        link.owe(discovers);
    }
}

/// The number of the link that is up with this peer.
fn older_of(links: &[Link], peer: &NodeName) -> Option<u32>
    ensures { result ≡ older_of peer.now links.now }
{
    Some(links.iter().find(|link| link.is_up_with(peer))?.number())
}

/// That the link is up.
fn up_reply(peer: NodeName, up: &Up) -> Reply
    ensures { result ≡ Reply.Up peer up.now.creation up.now.visible }
{
    Reply::Up {
        peer,
        creation: up.creation(),
        visible: up.visible(),
    }
}

/// What the link needs to come up. Its peer is known.
fn arrival_of(alloc: Global, link: &Link, scopes: &[Running]) -> Result<Arrival, OutOfMemory>
    requires { is_some (known_peer link.now.state) ≡ true }
    ensures known { IfOk result (λ a. known_peer link.now.state ≡ Some a.kept) }
    ensures copy { IfOk result (λ a. a.peer ≡ a.kept) }
    ensures changes { IfOk result (λ a. AreLost (known_peer link.now.state) scopes.now
        a.changes.items) }
    ensures discovers { IfOk result (λ a. a.discovers.items
        ≡ map (λ r. wide (said.Discover r.scope)) scopes.now) }
{
    let Some(peer) = link.peer() else {
        unreachable!()
    };
    Ok(Arrival {
        peer: peer.try_clone(alloc)?,
        kept: peer.try_clone(alloc)?,
        changes: changes_of(alloc, scopes, Leaving::Node(peer))?,
        discovers: discovers_of(alloc, scopes)?,
    })
}

/// A Discover for each scope that runs.
fn discovers_of(alloc: Global, scopes: &[Running]) -> Result<Vec<OutFrame>, OutOfMemory>
    ensures { IfOk result (λ frames. frames.items
        ≡ map (λ r. wide (said.Discover r.scope)) scopes.now) }
{
    let mut frames = Vec::new(alloc);
    for running in scopes {
        frames.push(discover_frame(alloc, &running.scope)?)?;
    }
    Ok(frames)
}
