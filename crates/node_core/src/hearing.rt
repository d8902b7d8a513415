//! What a frame of the handshake makes of a link's state.
ghost use Rattle.std.specs.Prelude.{◌≡◌, true, false};
ghost use Rattle.node_core.specs.declared.link_state.LinkState.TheVariants as states;
ghost use Rattle.node_core.specs.Hearing.{Hears, is_handshake, rule_of};

use crate::beside::Beside;
use crate::link_state::LinkState;
use admission_rules::Admission;
use link_states::{
    AwaitAck, AwaitAnswer, AwaitChallenge, AwaitName, AwaitReply, AwaitStatus, Bodies, Named,
    StateRule, Stopped, Up,
};
use policy_audit::Rule;
use std::alloc::Global;

/// What a frame of the handshake leads to, with the frames to send.
#[derive(Drop)]
pub enum Heard {
    /// The handshake goes on. Where the mark says so, the own dial to the peer is given up.
    On {
        state: LinkState,
        frames: Bodies,
        gives_up: bool,
    },
    /// The handshake is whole.
    Up {
        up: Up,
        frames: Bodies,
    },
    /// The handshake ended.
    Ended {
        rule: Rule,
        frames: Bodies,
    },
    /// The state is as it was.
    OutOfMemory(LinkState),
}

/// Takes a frame in a state of the handshake.
pub fn hear(
    alloc: Global,
    state: LinkState,
    body: &[u8],
    admission: &Admission,
    others: &Beside<'_>,
) -> Heard
    requires { is_handshake state ≡ true }
    ensures { Hears admission.now others.now state body.now result }
{
    match state {
        LinkState::Name(state) => hear_name(alloc, state, body, admission, others),
        LinkState::Answer(state) => hear_answer(alloc, state, body, admission, others),
        LinkState::Reply(state) => hear_reply(alloc, state, body, admission, others),
        LinkState::Status(state) => hear_status(alloc, state, body, admission, others),
        LinkState::Challenge(state) => hear_challenge(alloc, state, body, admission, others),
        LinkState::Ack(state) => hear_ack(alloc, state, body, admission, others),
        LinkState::Up(_) | LinkState::Ended => unreachable!(),
    }
}

fn hear_name(
    alloc: Global,
    state: AwaitName,
    body: &[u8],
    admission: &Admission,
    others: &Beside<'_>,
) -> Heard
    ensures { Hears admission.now others.now (states.Name state) body.now result }
{
    match state.take(alloc, body, admission, others) {
        Ok(Named::Alive(state, frames)) => Heard::On {
            state: LinkState::Answer(state),
            frames,
            gives_up: false,
        },
        Ok(
            Named::Reply {
                state,
                frames,
                gives_up,
            },
        ) => Heard::On {
            state: LinkState::Reply(state),
            frames,
            gives_up,
        },
        Err(Stopped::Ended { rule, frames }) => ended(rule, frames),
        Err(Stopped::OutOfMemory(state)) => Heard::OutOfMemory(LinkState::Name(state)),
    }
}

fn hear_answer(
    alloc: Global,
    state: AwaitAnswer,
    body: &[u8],
    admission: &Admission,
    others: &Beside<'_>,
) -> Heard
    ensures { Hears admission.now others.now (states.Answer state) body.now result }
{
    match state.take(alloc, body, admission, others) {
        Ok((state, frames)) => Heard::On {
            state: LinkState::Reply(state),
            frames,
            gives_up: false,
        },
        Err(Stopped::Ended { rule, frames }) => ended(rule, frames),
        Err(Stopped::OutOfMemory(state)) => Heard::OutOfMemory(LinkState::Answer(state)),
    }
}

fn hear_reply(
    alloc: Global,
    state: AwaitReply,
    body: &[u8],
    admission: &Admission,
    others: &Beside<'_>,
) -> Heard
    ensures { Hears admission.now others.now (states.Reply state) body.now result }
{
    match state.take(alloc, body, admission, others) {
        Ok((up, frames)) => Heard::Up { up, frames },
        Err(Stopped::Ended { rule, frames }) => ended(rule, frames),
        Err(Stopped::OutOfMemory(state)) => Heard::OutOfMemory(LinkState::Reply(state)),
    }
}

fn hear_status(
    alloc: Global,
    state: AwaitStatus,
    body: &[u8],
    admission: &Admission,
    others: &Beside<'_>,
) -> Heard
    ensures { Hears admission.now others.now (states.Status state) body.now result }
{
    match state.take(alloc, body, admission, others) {
        Ok((state, frames)) => Heard::On {
            state: LinkState::Challenge(state),
            frames,
            gives_up: false,
        },
        Err(Stopped::Ended { rule, frames }) => ended(rule, frames),
        Err(Stopped::OutOfMemory(state)) => Heard::OutOfMemory(LinkState::Status(state)),
    }
}

fn hear_challenge(
    alloc: Global,
    state: AwaitChallenge,
    body: &[u8],
    admission: &Admission,
    others: &Beside<'_>,
) -> Heard
    ensures { Hears admission.now others.now (states.Challenge state) body.now result }
{
    match state.take(alloc, body, admission, others) {
        Ok((state, frames)) => Heard::On {
            state: LinkState::Ack(state),
            frames,
            gives_up: false,
        },
        Err(Stopped::Ended { rule, frames }) => ended(rule, frames),
        Err(Stopped::OutOfMemory(state)) => Heard::OutOfMemory(LinkState::Challenge(state)),
    }
}

fn hear_ack(
    alloc: Global,
    state: AwaitAck,
    body: &[u8],
    admission: &Admission,
    others: &Beside<'_>,
) -> Heard
    ensures { Hears admission.now others.now (states.Ack state) body.now result }
{
    match state.take(alloc, body, admission, others) {
        Ok((up, frames)) => Heard::Up { up, frames },
        Err(Stopped::Ended { rule, frames }) => ended(rule, frames),
        Err(Stopped::OutOfMemory(state)) => Heard::OutOfMemory(LinkState::Ack(state)),
    }
}

fn ended(rule: StateRule, frames: Bodies) -> Heard
    ensures { result ≡ Heard.Ended (rule_of rule) frames }
{
    Heard::Ended {
        rule: rule_of(rule),
        frames,
    }
}

/// The rule of the node that a rule of the handshake is.
fn rule_of(rule: StateRule) -> Rule
    ensures { result ≡ rule_of rule }
{
    match rule {
        StateRule::BadFrame => Rule::BadFrame,
        StateRule::NoHandshake23 => Rule::NoHandshake23,
        StateRule::DynamicName => Rule::DynamicName,
        StateRule::BadName => Rule::BadName,
        StateRule::OwnName => Rule::OwnName,
        StateRule::WrongName => Rule::WrongName,
        StateRule::NotAllowed => Rule::NotAllowed,
        StateRule::Simultaneous => Rule::Simultaneous,
        StateRule::PeerSaid => Rule::PeerSaid,
        StateRule::BadDigest => Rule::BadDigest,
        StateRule::LinkUp => Rule::LinkUp,
    }
}
