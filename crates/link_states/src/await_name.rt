//! The acceptor's first state.
ghost use Rattle.std.specs.Prelude.{◌≡◌, ◌&&◌, true, not, bytes_eq, IfOk, IfErr, IsSomeAnd, IsTrue};
ghost use Rattle.dist_types.specs.Text.{is_node_name};
ghost use Rattle.std.specs.Ordering.{is_gt};
ghost use Rattle.dist_types.specs.Order.{text_cmp};
ghost use Rattle.handshake_frames.specs.Reading.{name_frame};
ghost use Rattle.link_states.specs.Checks.{PassesAll, name_checks, allows};
ghost use Rattle.link_states.specs.Named.{named_by, welcome};
ghost use Rattle.link_states.specs.Peer.{IsPeer};
ghost use Rattle.link_states.specs.Pending.{is_up, is_dialled};
ghost use Rattle.link_states.specs.Stopped.{IsBroken, IsStopped};

use crate::await_answer::AwaitAnswer;
use crate::await_reply::AwaitReply;
use crate::frames::{Bodies, greeting};
use crate::peer::Peer;
use crate::pending::{OtherLinks, Standing};
use crate::refusal::{Refusal, unless};
use crate::state_rule::StateRule;
use crate::stopped::{Stopped, stop};
use admission_rules::Admission;
use cookie_digest::Challenge;
use dist_types::NodeName;
use handshake_frames::{StatusWord, decode_name};
use std::alloc::Global;
use std::marker::Model;

/// The acceptor awaits the name frame.
#[must_use]
#[derive(Debug)]
pub struct AwaitName {
    challenge: Challenge,
}

impl Model for AwaitName {
    ghost use Rattle.std.specs.Prelude.{ℕ};

    ghost Value = { ℕ };

    ghost view = { λ state. state.challenge };
}

/// What a name frame leads to, with the frames to send.
#[derive(Debug, Drop)]
pub enum Named {
    /// A link of the peer is up, and it is asked whether it wants another in its place.
    Alive(AwaitAnswer, Bodies),
    /// The challenge is sent. Where the mark says so, the own dial to the peer is given up.
    Reply {
        state: AwaitReply,
        frames: Bodies,
        gives_up: bool,
    },
}

impl AwaitName {
    /// The acceptor's first state, before any frame. The challenge is the number that it will send.
    pub fn new(challenge: Challenge) -> AwaitName
        ensures { result ≡ challenge }
    {
        AwaitName { challenge }
    }

    /// Takes the name frame.
    pub fn take<L: OtherLinks>(
        self,
        alloc: Global,
        body: &[u8],
        admission: &Admission,
        links: &L,
    ) -> Result<Named, Stopped<AwaitName>>
        ensures ok { IfOk result (λ named.
            PassesAll (name_checks admission.now (L.pending links.now) (name_frame body.now))
            × IsSomeAnd (name_frame body.now) (λ peer. named
            ≡ named_by admission.now (L.pending links.now) self peer)) }
        ensures refused { IfErr result (λ stopped.
            IsStopped stopped self (name_checks admission.now (L.pending links.now)
            (name_frame body.now))) }
    {
        let (peer, standing) = match peer_named(alloc, body, admission, links) {
            Ok(named) => named,
            Err(refusal) => return Err(stop(alloc, refusal, self)),
        };
        let word = welcome(standing);
        let Ok(frames) = greeting(alloc, admission, self.challenge.number(), word) else {
            return Err(Stopped::OutOfMemory(self));
        };
        let AwaitName { challenge } = self;
        if standing.is_up {
            return Ok(Named::Alive(AwaitAnswer::new(peer, challenge), frames));
        }
        Ok(Named::Reply {
            state: AwaitReply::new(peer, challenge),
            frames,
            gives_up: standing.is_dialled,
        })
    }
}

/// Who the name frame says that the peer is, and how the node stands to it.
fn peer_named<L: OtherLinks>(
    alloc: Global,
    body: &[u8],
    admission: &Admission,
    links: &L,
) -> Result<(Peer, Standing), Refusal>
    ensures ok { IfOk result (λ (peer, standing).
        PassesAll (name_checks admission.now (L.pending links.now) (name_frame body.now))
        × IsSomeAnd (name_frame body.now) (IsPeer admission.now peer)
        × (standing.is_up ≡ is_up (L.pending links.now) peer.name)
        × (standing.is_dialled ≡ is_dialled (L.pending links.now) peer.name)) }
    ensures refused { IfErr result (λ refusal.
        IsBroken refusal (name_checks admission.now (L.pending links.now) (name_frame body.now))) }
{
    let frame = decode_name(body)?;
    unless(frame.flags.handshake23(), StateRule::NoHandshake23)?;
    unless(!frame.flags.name_me(), StateRule::DynamicName)?;
    unless(!is_own(admission, frame.name), StateRule::OwnName)?;
    let name = NodeName::parse(alloc, frame.name)?;
    unless(allows(admission, &name), StateRule::NotAllowed)?;
    let standing = Standing {
        is_up: links.is_up(&name),
        is_dialled: links.is_dialled(&name),
    };
    unless(
        !outranks(admission, standing, &name),
        StateRule::Simultaneous,
    )?;
    let peer = Peer::new(admission, name, frame.flags, frame.creation, frame.version);
    Ok((peer, standing))
}

/// Whether the name is the node's own. Who says it is owed nothing, so that is found without
/// memory.
fn is_own(admission: &Admission, name: &[u8]) -> bool
    ensures own { result ≡ bytes_eq name.now admission.now.own }
    ensures name { IsTrue result → is_node_name name.now ≡ true }
{
    name == admission.own().as_bytes()
}

fn allows(admission: &Admission, name: &NodeName) -> bool
    ensures { result ≡ allows admission.now name.now }
{
    admission.is_allowed(name.as_bytes())
}

/// Whether the own dial to the peer goes on in place of the peer's.
fn outranks(admission: &Admission, standing: Standing, peer: &NodeName) -> bool
    ensures { result ≡ (not standing.is_up && standing.is_dialled
        && is_gt (text_cmp admission.now.own peer.now)) }
{
    !standing.is_up && standing.is_dialled && admission.own() > peer
}

/// The status that answers a name frame.
fn welcome(standing: Standing) -> StatusWord
    ensures { result ≡ welcome standing.is_up standing.is_dialled }
{
    if standing.is_up {
        StatusWord::Alive
    } else if standing.is_dialled {
        StatusWord::OkSimultaneous
    } else {
        StatusWord::Ok
    }
}

impl Drop for AwaitName {
    fn drop(self) {
        let AwaitName { challenge } = self;
        challenge.discard();
    }
}
