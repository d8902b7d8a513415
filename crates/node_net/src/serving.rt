//! One link over a socket.
ghost use Rattle.std.specs.Prelude.{◌≡◌, IfOk};
ghost use Rattle.std.specs.List.{Contains};
ghost use Rattle.node_net.specs.LaneCalls.{IsOpening, own_links};

use crate::guard::ReflectionGuard;
use crate::home::Home;
use crate::input::{LinkInput, Stage};
use crate::lane::Lane;
use crate::lanes::Ticket;
use crate::otp_input::OtpInput;
use crate::otp_output::OtpOutput;
use crate::otp_side::OtpSide;
use crate::output::{LinkOutput, Outlet};
use crate::patience::HostedLink;
use crate::progress::Progress;
use dial_targets::PeerKind;
use dist_types::{NodeName, OutOfMemory, TryClone};
use node_threads::Connection;
use otp_link::{LinkKind, OtpLink};
use policy_audit::Event;
use std::alloc::Global;
use std::net::TcpStream;
use std::sync::{Arc, Mutex, Wait};
use std::thread::Threads;
use std::time::{Clock, Instant};

/// Who has opened a connection.
#[derive(Clone, Copy)]
pub(crate) enum Opener<'a> {
    Peer,
    /// This node, to that peer.
    Own(&'a NodeName),
}

impl Opener<'_> {
    fn is_own(&self) -> bool {
        matches!(self, Opener::Own(_))
    }

    fn event(&self, alloc: Global, challenge: u32) -> Result<Event, OutOfMemory>
        ensures { IfOk result (IsOpening challenge) }
    {
        Ok(match self {
            Opener::Peer => Event::Opened(challenge),
            Opener::Own(peer) => Event::Dial(peer.try_clone(alloc)?, challenge),
        })
    }

    fn guard(&self, alloc: Global) -> Option<ReflectionGuard> {
        match self {
            Opener::Peer => None,
            Opener::Own(_) => Some(ReflectionGuard::new(alloc)),
        }
    }
}

/// How far a link came that was served.
#[derive(Clone, Copy, Debug, PartialEq, Eq)]
pub(crate) enum Served {
    /// It was up.
    CameUp,
    /// The node has refused it, or its handshake has come to nothing.
    NotUp,
    /// The node wasn't told of it: the system gave no memory, or no time.
    NotBegun,
}

impl Served {
    /// Of a link that was begun.
    fn of(was_up: bool) -> Served {
        if was_up {
            Served::CameUp
        } else {
            Served::NotUp
        }
    }
}

/// Serves a link over a connection until it ends: how far it came.
pub(crate) fn serve_stream<R: Threads + Wait + Clock + Sync>(
    home: &Home<'_, R>,
    lane: Lane,
    stream: TcpStream,
    opener: Opener<'_>,
    kind: PeerKind,
) -> (Lane, Served) {
    let Ok(stream) = Arc::new(home.alloc, stream) else {
        return (lane, Served::NotBegun);
    };
    let Ok(ticket) = home.lanes.enter(home.rt, lane.challenge(), &stream) else {
        return (lane, Served::NotBegun);
    };
    let (lane, served) = serve_entered(home, lane, &stream, Origin { opener, kind }, ticket);
    home.lanes.leave(home.rt, ticket);
    (lane, served)
}

/// Who has opened a connection, and which nodes it leads to.
#[derive(Clone, Copy)]
struct Origin<'a> {
    opener: Opener<'a>,
    kind: PeerKind,
}

impl Origin<'_> {
    /// A peer has opened it where nodes of this program do.
    fn is_from_native(&self) -> bool {
        !self.kind.is_otp() && !self.opener.is_own()
    }

    /// How the link is made, to a stock node.
    fn link_kind(&self, in_parts: bool) -> LinkKind {
        LinkKind {
            is_visible: self.kind == PeerKind::Visible,
            is_dialled: self.opener.is_own(),
            in_parts,
        }
    }
}

/// Opens the link with the challenge that it was entered with, and serves it.
fn serve_entered<R: Threads + Wait + Clock + Sync>(
    home: &Home<'_, R>,
    mut lane: Lane,
    stream: &TcpStream,
    origin: Origin<'_>,
    ticket: Ticket,
) -> (Lane, Served)
    requires guarded { ticket.challenge ≡ lane.challenge }
{
    let Home {
        rt,
        alloc,
        node,
        lanes,
    } = *home;
    let Ok(outlet) = Outlet::new(rt, stream, lanes.limits()) else {
        return (lane, Served::NotBegun);
    };
    let Ok(start) = Instant::now(rt) else {
        return (lane, Served::NotBegun);
    };
    let Ok(event) = origin.opener.event(alloc, ticket.challenge) else {
        return (lane, Served::NotBegun);
    };
    let Some(link) = lane.open(rt, node, event) else {
        return (lane, Served::NotUp);
    };
    lanes.note_address(rt, link, stream);
    lanes.note_kind(rt, link, origin.kind);
    let at = HostedLink {
        rt,
        node,
        lanes,
        link,
    };
    let progress = Progress::new();
    let input = LinkInput {
        at: &at,
        stream,
        outlet: &outlet,
        progress: &progress,
        stage: Stage::Handshake(start, 0, origin.opener.guard(alloc)),
        looks: lanes.limits().looks(origin.kind),
        is_native: origin.is_from_native(),
    };
    let lane = serve_opened(home, lane, input, origin, start);
    (lane, Served::of(outlet.was_up()))
}

/// Serves the link that was opened, by its kind.
fn serve_opened<R: Threads + Wait + Clock + Sync>(
    home: &Home<'_, R>,
    lane: Lane,
    input: LinkInput<'_, R>,
    origin: Origin<'_>,
    start: Instant,
) -> Lane
    requires own { Contains (own_links lane.reader.calls) input.at.now.link }
{
    let Home {
        rt,
        alloc,
        node,
        lanes,
    } = *home;
    if origin.kind.is_otp() {
        let kind = origin.link_kind(lanes.edges().in_parts());
        return serve_otp(home, lane, input, kind, start);
    }
    let (at, progress) = (input.at, input.progress);
    let output = LinkOutput::begin(at, input.outlet);
    let connection = Connection::new(at.link, input, output);
    lane.serve(rt, alloc, node, connection, progress)
}

/// Serves the link that was opened with a stock node of Erlang/OTP.
fn serve_otp<R: Threads + Wait + Clock + Sync>(
    home: &Home<'_, R>,
    lane: Lane,
    input: LinkInput<'_, R>,
    kind: LinkKind,
    start: Instant,
) -> Lane
    requires own { Contains (own_links lane.reader.calls) input.at.now.link }
{
    let Home {
        rt,
        alloc,
        node,
        ..
    } = *home;
    let (at, outlet, progress) = (input.at, input.outlet, input.progress);
    let link = at.link;
    let between = Mutex::new(OtpLink::new(alloc, kind));
    let side = OtpSide::new(alloc, &between);
    let output = OtpOutput::begin(LinkOutput::begin(at, outlet), &side);
    let input = OtpInput::begin(input, &side, start);
    let connection = Connection::new(link, input, output);
    lane.serve(rt, alloc, node, connection, progress)
}
