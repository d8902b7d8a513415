//! What comes of the bytes of a stock node.
ghost use Rattle.std.specs.Prelude.{◌≡◌, ◌++◌, ◌<◌, ◌^◌, ℕ, List, length, IfErr, IfOk};
ghost use Rattle.std.specs.Prelude.{MatchOption};
ghost use Rattle.std.specs.Int.{w16, w32};
ghost use Rattle.handshake_frames.specs.Spelling.{counted};
ghost use Rattle.otp_edge.specs.Edges.{Stays};
ghost use Rattle.otp_edge.specs.Said.{KnowsTheSame};
ghost use Rattle.otp_link.specs.Asking.{millis};
ghost use Rattle.otp_link.specs.Known.{Learns, known_of, with_peer};
ghost use Rattle.otp_link.specs.Pieces.{IsShort, is_last_of};
ghost use Rattle.otp_link.specs.Sent.{IsNarrowed};
ghost use Rattle.otp_link.specs.Taking.{Agrees, Ends, EndsByBody, EndsByFrame};
ghost use Rattle.otp_link.specs.Taking.{IsOfStock, IsPassedOver};
ghost use Rattle.otp_link.specs.Taking.{Takes, TakesFrame, TakesBody, TakesLong};
ghost use Rattle.otp_link.specs.declared.fault.LinkFault.TheVariants as faults;

use crate::fault::LinkFault;
use crate::flags::is_stock;
use crate::frames::{peer_frame, put_frame};
use crate::hearing::hear_body;
use crate::link::OtpLink;
use crate::long::may_skip;
use crate::piece::{Piece, cut};
use crate::runs::{run_of, said_in};
use crate::table::Table;
use dist_types::{MAX_ROWS, Row};
use link_frames::Message;
use otp_edge::{Dropped, Edge, Heard};
use std::alloc::Global;
use std::time::Duration;

/// The bytes of a length behind the handshake.
const LENGTH: usize = 4;

/// What comes of the front of the bytes.
#[derive(Debug, Drop)]
pub struct Taken {
    /// How many bytes were used. Where that is more than there are, those that come are used, too.
    pub used: usize,
    /// The frame or the messages that are handed in, each behind its length.
    pub handed: Vec<u8>,
    /// The bodies that the peer is sent, each behind its length.
    pub owed: Vec<u8>,
}

impl OtpLink {
    /// What comes of the frame or the body at the front; nothing where more bytes are wanted. What
    /// it hands in has to be handed in before the next call, since a leave is cut to what the node
    /// lists then.
    pub fn take<T: Table>(
        &mut self,
        front: &[u8],
        table: &T,
        now: Duration,
    ) -> Result<Option<Taken>, LinkFault>
        ensures kind { IsNarrowed self.old.kind self.new.kind }
        ensures other { self.new.sends_bodies ≡ self.old.sends_bodies }
        ensures taken { IfOk result (λ read. MatchOption read
            ((self.new ≡ self.old) × IsShort self.old.takes_bodies front.now)
            (Takes (T.lists table.now) (millis now) self.old self.new front.now)) }
        ensures refused { IfErr result (Ends self.old front.now) }
    {
        match cut(front, self.takes_bodies) {
            Piece::More => Ok(None),
            Piece::Frame(body, rest) => Ok(Some(self.take_frame(body, len_before(front, rest))?)),
            Piece::Body(body, rest) => {
                let used = len_before(front, rest);
                Ok(Some(self.take_body(body, used, table, now)?))
            }
            Piece::Tick(rest) => Ok(Some(self.only_used(len_before(front, rest)))),
            Piece::Long(begin, len) => Ok(Some(self.take_long(begin, len)?)),
        }
    }

    fn only_used(&self, used: usize) -> Taken
        ensures { IsPassedOver used result }
    {
        Taken {
            used,
            handed: Vec::new(self.alloc),
            owed: Vec::new(self.alloc),
        }
    }

    /// A frame of the handshake, of which that with the peer's name is looked at. Behind a Reply
    /// and an Ack come bodies.
    fn take_frame(&mut self, body: &[u8], used: usize) -> Result<Taken, LinkFault>
        requires { used ≡ length (counted w16 body.now) }
        ensures kind { IsNarrowed self.old.kind self.new.kind }
        ensures other { self.new.sends_bodies ≡ self.old.sends_bodies }
        ensures taken { IfOk result (TakesFrame self.old self.new body.now) }
        ensures refused { IfErr result (EndsByFrame self.old body.now) }
    {
        let in_parts = self.hear_name(body)?;
        self.takes_bodies = is_last(body);
        let mut taken = self.only_used(used);
        let frame = peer_frame(self.alloc, body, in_parts)?;
        put_frame(&frame, &mut taken.handed)?;
        Ok(taken)
    }

    /// A frame with the peer's name: from then on the edge may begin. Whether it is told here that
    /// the peer takes messages in parts.
    fn hear_name(&mut self, body: &[u8]) -> Result<bool, LinkFault>
        ensures kind { IsNarrowed self.old.kind self.new.kind }
        ensures other { self.new.sends_bodies ≡ self.old.sends_bodies }
        ensures known { IfOk result (λ _. Learns self.new.kind self.old.kind.is_dialled
            (with_peer (known_of self.old)) body.now (known_of self.old) (known_of self.new)) }
        ensures healing { self.new.healing ≡ self.old.healing }
        ensures stock { IfOk result (λ _. IsOfStock self.old body.now) }
        ensures agrees { IfOk result (Agrees self.old.kind self.new.kind body.now) }
        ensures refused { IfErr result (EndsByFrame self.old body.now) }
    {
        let Some(said) = said_in(body, self.kind.is_dialled) else {
            return Ok(false);
        };
        if !is_stock(said.flags) {
            return Err(LinkFault::NotStock);
        }
        self.kind.in_parts &= said.is_bare;
        let peer = run_of(self.alloc, &said)?;
        self.peer = peer;
        self.meet();
        Ok(self.kind.in_parts)
    }

    fn take_body<T: Table>(
        &mut self,
        body: &[u8],
        used: usize,
        table: &T,
        now: Duration,
    ) -> Result<Taken, LinkFault>
        requires { used ≡ length (counted w32 body.now) }
        ensures kind { self.new.kind ≡ self.old.kind }
        ensures up { self.new.takes_bodies ≡ self.old.takes_bodies }
        ensures other { self.new.sends_bodies ≡ self.old.sends_bodies }
        ensures taken { IfOk result
            (TakesBody (T.lists table.now) (millis now) self.old self.new body.now) }
        ensures refused { IfErr result (EndsByBody self.old body.now) }
    {
        let Some(edge) = &mut self.edge else {
            return Err(LinkFault::NoMessage);
        };
        let dropped = edge.drops.of(Dropped::TooManyRows);
        let heard = hear_body(edge, self.alloc, body, table)?;
        self.healing.note(lacks(edge, dropped, &heard, table), now);
        Ok(Taken {
            used,
            handed: heard.link_bytes(self.alloc, self.kind.in_parts)?,
            owed: heard.owed,
        })
    }

    /// A body that isn't kept: it is skipped, where nothing is to be heard of it.
    fn take_long(&mut self, begin: &[u8], len: usize) -> Result<Taken, LinkFault>
        requires { len < 2 ^ 32 }
        ensures kind { self.new.kind ≡ self.old.kind }
        ensures up { self.new.takes_bodies ≡ self.old.takes_bodies }
        ensures other { self.new.sends_bodies ≡ self.old.sends_bodies }
        ensures taken { IfOk result (TakesLong self.old self.new begin.now len) }
        ensures refused { IfErr result (λ fault. fault ≡ faults.TooLong) }
    {
        let Some(edge) = &mut self.edge else {
            return Err(LinkFault::TooLong);
        };
        if !may_skip(edge, self.alloc, begin) {
            return Err(LinkFault::TooLong);
        }
        note_skipped(edge);
        Ok(self.only_used(len.saturating_add(LENGTH)))
    }
}

/// Counts a body that was skipped.
fn note_skipped(edge: &mut Edge)
    ensures stays { Stays edge.old edge.new }
    ensures same { KnowsTheSame edge.old edge.new }
{
    edge.drops.add(Dropped::ForMember);
}

/// How many bytes stand before the rest of them.
fn len_before(front: &[u8], rest: &[u8]) -> usize
    ensures { (piece : List ℕ) → front.now ≡ piece ++ rest.now → result ≡ length piece }
{
    front.len().saturating_sub(rest.len())
}

/// Whether the frame is the last one of the handshake: a Reply or an Ack.
pub(crate) fn is_last(body: &[u8]) -> bool
    ensures { result ≡ is_last_of body.now }
{
    matches!(body.first(), Some(b'r' | b'a'))
}

/// Whether rows of what was heard lack here: they were too many, which was so `dropped` times
/// before, or are refused.
fn lacks<T: Table>(edge: &Edge, dropped: u64, heard: &Heard, table: &T) -> bool {
    edge.drops.of(Dropped::TooManyRows) != dropped || are_refused(edge, heard, table)
}

/// Whether the node here refuses the rows that are handed in: they are of other nodes, or too many.
fn are_refused<T: Table>(edge: &Edge, heard: &Heard, table: &T) -> bool {
    match &heard.message {
        Some(Message::Sync(_, rows)) => are_foreign(edge, rows.as_slice()),
        Some(Message::Join(scope, rows)) => {
            let rows = rows.as_slice();
            let total = table.total(scope, &edge.peer.node);
            are_foreign(edge, rows) || total.saturating_add(rows.len()) > most_rows(edge)
        }
        _ => false,
    }
}

/// The most rows of the peer that the node here lists in a scope.
fn most_rows(edge: &Edge) -> usize {
    if edge.in_parts {
        16 * MAX_ROWS
    } else {
        MAX_ROWS
    }
}

fn are_foreign(edge: &Edge, rows: &[Row]) -> bool {
    rows.iter().any(|row| !edge.peer.has(&row.pid))
}
