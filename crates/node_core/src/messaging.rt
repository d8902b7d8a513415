//! Messages of linked nodes (Kernel manual, `pg`), for a scope S that both ends of a link run.
//!
//! - Discover S: "I run S: tell me." Sent for each scope as the link comes up, and to each peer as
//!   S starts. The receiver answers with a Sync, and with a Discover of its own where it hasn't
//!   heard the sender in S. The sender is told in S from then on.
//! - Sync S: all rows of the sender's own processes. They replace what the receiver had of that
//!   node. The sender is heard in S from then on.
//! - Join S, Leave S: the rows that a join, a leave or an exit brings or takes of them, sent to all
//!   that are told. The receiver adds or takes just these, of a sender that it has heard.
//! - Down S: the sender stops S, and says so to each peer. The receiver drops the sender's rows,
//!   and neither hears nor tells it in S any more.
//!
//! So what a receiver lists of a node is what that node had itself a while ago: a Sync has all rows
//! up to then, each later change follows behind it, and a link keeps their order and loses none.
//! Where the link ends, the peer's rows go, heard and told with them. The next one begins anew.
//!
//! A link of version 2 brings the rows of a Sync, a Join or a Leave in parts. They are kept with
//! the link, and count once the last has come. On a link of version 1 a message is one part.
ghost use Rattle.std.specs.Prelude.{◌≡◌, ◌==◌, ◌&&◌, not, List, ℕ, true, Some, None, MatchResult};
ghost use Rattle.std.specs.List.{list_all};
ghost use Rattle.dist_types.specs.Listing.{same};
ghost use Rattle.link_frames.specs.declared.part.Message2.TheVariants as messages;
ghost use Rattle.link_frames.specs.declared.fault.MessageFault.TheVariants as unread;
ghost use Rattle.link_frames.specs.Parts.{whole};
ghost use Rattle.policy_audit.specs.declared.event.Event.TheVariants as events;
ghost use Rattle.policy_audit.specs.Hearing.{frame_taken};
ghost use Rattle.node_core.specs.FramesHere.{IsUpLink, IsSoundMessage};
ghost use Rattle.node_core.specs.Step.{Call, Answers};
ghost use Rattle.node_core.specs.Links.{are_of_peer, takes_parts};
ghost use Rattle.node_core.specs.ScopeFacts.{is_number};
ghost use Rattle.node_core.specs.Messages.{scope_in, says_in, refusal, brings_further};

use crate::changes::cut_off;
use crate::entering::Answered;
use crate::fault::CoreFault;
use crate::kept::Kept;
use crate::link::Link;
use crate::link_state::LinkState;
use crate::peer_rows::{PeerRows, drop_change, hear, hear_or_test};
use crate::running::{Running, place_of};
use dist_types::{Body, Scope};
use link_frames::{Message, Message2, MessageFault, PartKind, Rows, decode, decode_v2};
use link_states::Up;
use policy_audit::Rule;
use std::alloc::Global;

/// Where a message goes.
#[derive(Debug, Clone, Copy)]
pub struct Route {
    /// The place of its link.
    pub place: usize,
    /// The place of its scope.
    pub at: usize,
    /// The link's number.
    pub number: u32,
}

impl Kept {
    /// A message, or a part of one, that came on the link at a place, which is up.
    #[tactic(auto, unfolding(crate::specs::Step::Answers))]
    pub fn message(&mut self, place: usize, number: u32, body: &Body) -> Result<Answered, CoreFault>
        ghost call: { Call }
        requires { IsUpLink call self.old place number }
        ensures { Answers call (events.Frame number body.now) self.new result }
    {
        let message = match read(self.alloc, &self.links[place], body.as_slice()) {
            Ok(message) => message,
            Err(MessageFault::BadFrame) => return Err(CoreFault::Refused(Rule::BadFrame)),
            Err(MessageFault::OutOfMemory) => return Err(CoreFault::OutOfMemory),
        };
        if !self.links[place].is_shown() {
            drop(message);
            return Err(CoreFault::Refused(Rule::HiddenLink));
        }
        let Some(at) = place_of(&self.scopes, scope_in(&message)) else {
            drop(message);
            return Err(CoreFault::Refused(Rule::NoScope));
        };
        if let Some(rule) = refusal(&self.links[place], &self.scopes[at], &message) {
            drop(message);
            return Err(CoreFault::Refused(rule));
        }
        self.follow(Route { place, at, number }, message)
    }

    /// A message for a scope that runs, that breaks no rule but those that the table of the scope
    /// tells.
    #[tactic(auto, unfolding(crate::specs::Step::Answers))]
    fn follow(&mut self, route: Route, message: Message2) -> Result<Answered, CoreFault>
        ghost call: { Call }
        requires { IsSoundMessage call self.old route.place route.at route.number message }
        ensures { (body : List ℕ)
            → frame_taken call.past.opening route.number call.past.entries body ≡ Some message
            → Answers call (events.Frame route.number body) self.new result }
    {
        match message {
            Message2::Discover(scope) => self.discovered(route, &scope),
            Message2::Part {
                kind,
                scope,
                number: count,
                last,
                rows,
            } => {
                // The only part of its message.
                if last && count == 1 {
                    return self.whole(route, kind, scope, &rows);
                }
                self.part(route, kind, scope, count, last, rows)
            }
            Message2::Down(scope) => self.downed(route, scope),
        }
    }

    /// A message that is one part.
    #[tactic(auto, unfolding(crate::specs::Step::Answers))]
    fn whole(
        &mut self,
        route: Route,
        kind: PartKind,
        scope: Scope,
        rows: &Rows,
    ) -> Result<Answered, CoreFault>
        ghost call: { Call }
        requires { IsSoundMessage call self.old route.place route.at route.number
            (messages.Part kind scope 1 true rows.now) }
        ensures { (body : List ℕ)
            → frame_taken call.past.opening route.number call.past.entries body
            ≡ Some (messages.Part kind scope 1 true rows.now)
            → Answers call (events.Frame route.number body) self.new result }
    {
        let link = &mut self.links[route.place];
        let running = &mut self.scopes[route.at];
        let limit = link.row_limit();
        let Some(peer) = link.up_peer() else {
            unreachable!()
        };
        let rows = rows.as_slice();
        let said = PeerRows {
            link: route.number,
            kind,
            peer,
            rows,
            limit,
        };
        let changes = hear(self.alloc, running, scope, said)?;
        link.clear();
        Ok(Answered::changed(changes))
    }

    /// A part of a message that has others. Where it is refused, all that was kept of the link's
    /// message stays.
    #[tactic(auto, unfolding(crate::specs::Step::Answers))]
    fn part(
        &mut self,
        route: Route,
        kind: PartKind,
        scope: Scope,
        count: u32,
        last: bool,
        rows: Rows,
    ) -> Result<Answered, CoreFault>
        ghost call: { Call }
        requires { IsSoundMessage call self.old route.place route.at route.number
            (messages.Part kind scope count last rows) }
        ensures { (body : List ℕ)
            → frame_taken call.past.opening route.number call.past.entries body
            ≡ Some (messages.Part kind scope count last rows)
            → Answers call (events.Frame route.number body) self.new result }
    {
        let link = &mut self.links[route.place];
        let running = &mut self.scopes[route.at];
        let undo = link.gather(kind, scope, count, rows)?;
        let limit = link.row_limit();
        let Some(peer) = link.up_peer() else {
            unreachable!()
        };
        let rows = link.begun_rows();
        let said = PeerRows {
            link: route.number,
            kind,
            peer,
            rows,
            limit,
        };
        match hear_or_test(self.alloc, running, said, last) {
            Ok(changes) => {
                link.settle(last);
                Ok(Answered::changed(changes))
            }
            Err(fault) => {
                link.undo(undo);
                Err(fault)
            }
        }
    }

    /// A Down of the scope.
    #[tactic(auto, unfolding(crate::specs::Step::Answers))]
    fn downed(&mut self, route: Route, scope: Scope) -> Result<Answered, CoreFault>
        ghost call: { Call }
        requires { IsSoundMessage call self.old route.place route.at route.number
            (messages.Down scope) }
        ensures { (body : List ℕ)
            → frame_taken call.past.opening route.number call.past.entries body
            ≡ Some (messages.Down scope)
            → Answers call (events.Frame route.number body) self.new result }
    {
        let link = &mut self.links[route.place];
        let running = &mut self.scopes[route.at];
        let Some(peer) = link.up_peer() else {
            unreachable!()
        };
        let changes = drop_change(self.alloc, running, scope, peer)?;
        cut_off(running, route.number, peer);
        link.clear();
        Ok(Answered::changed(changes))
    }
}

/// The message that a body says on a link.
fn read(alloc: Global, link: &Link, body: &[u8]) -> Result<Message2, MessageFault>
    ensures { MatchResult result
        (λ m. says_in (takes_parts link.now.state) body.now ≡ Some m)
        (λ fault. fault ≡ unread.BadFrame
        → says_in (takes_parts link.now.state) body.now ≡ None) }
{
    if link.takes_parts() {
        return decode_v2(alloc, body);
    }
    match decode(alloc, body) {
        Ok(message) => Ok(in_one(message)),
        Err(fault) => Err(fault),
    }
}

/// A message as one part, the first and the last.
fn in_one(message: Message) -> Message2
    ensures { result ≡ whole message }
{
    let (kind, scope, rows) = match message {
        Message::Discover(scope) => return Message2::Discover(scope),
        Message::Down(scope) => return Message2::Down(scope),
        Message::Sync(scope, rows) => (PartKind::Sync, scope, rows),
        Message::Join(scope, rows) => (PartKind::Join, scope, rows),
        Message::Leave(scope, rows) => (PartKind::Leave, scope, rows),
    };
    Message2::Part {
        kind,
        scope,
        number: 1,
        last: true,
        rows,
    }
}

/// The scope that a message is about.
fn scope_in(message: &Message2) -> &Scope
    ensures { result.now ≡ scope_in message.now }
{
    match message {
        Message2::Discover(scope) => scope,
        Message2::Part { scope, .. } => scope,
        Message2::Down(scope) => scope,
    }
}

/// The first rule that a message on this link breaks, but for those that the table of the scope
/// tells.
fn refusal(link: &Link, running: &Running, message: &Message2) -> Option<Rule>
    ensures { result ≡ refusal link.now running.now.heard.items message.now }
{
    let Message2::Part {
        kind,
        scope,
        number,
        rows,
        ..
    } = message
    else {
        return None;
    };
    if is_unheard(link, running, *kind) {
        return Some(Rule::NotHeard);
    }
    if !link.is_next(*kind, scope, *number) {
        return Some(Rule::PartOrder);
    }
    if !are_of_peer(link, rows) {
        return Some(Rule::ForeignPid);
    }
    None
}

/// Whether rows of this kind go on with others, which the link hasn't: it isn't heard.
fn is_unheard(link: &Link, running: &Running, kind: PartKind) -> bool
    ensures { result ≡ (brings_further kind
        && not (is_number link.now.number running.now.heard.items)) }
{
    match kind {
        PartKind::Sync => false,
        PartKind::Join | PartKind::Leave => !running.heard.contains(&link.number()),
    }
}

/// Whether each row's process is of the link's peer, with the creation that it gave.
fn are_of_peer(link: &Link, rows: &Rows) -> bool
    ensures { result ≡ are_of_peer link.now.state rows.now }
{
    match link.state() {
        LinkState::Up(up) => are_from(up, rows),
        _ => false,
    }
}

/// Whether each row's process is of the peer, with the creation that it gave.
fn are_from(up: &Up, rows: &Rows) -> bool
    ensures { result ≡ list_all (λ r. same r.pid.node up.now.peer
        && r.pid.creation == up.now.creation) rows.now }
{
    rows.as_slice().iter().all(|row| row.pid.node == *up.peer()
        && row.pid.creation == up.creation())
}
