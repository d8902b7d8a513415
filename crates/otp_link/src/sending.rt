//! What goes out to a stock node of what the node here says.
ghost use Rattle.std.specs.Prelude.{◌≡◌, not, IfErr, IfOk, MatchOption, length};
ghost use Rattle.otp_link.specs.Known.{Learns, known_of, with_own};
ghost use Rattle.otp_link.specs.Offer.{IsOwnFrame};
ghost use Rattle.otp_link.specs.Pieces.{IsUnsent, is_last_of};
ghost use Rattle.otp_link.specs.Sent.{SendsAll, SendsBody, SendsFront, stand_of};
ghost use Rattle.otp_link.specs.declared.fault.LinkFault.TheVariants as faults;

use crate::fault::LinkFault;
use crate::frames::{own_frame, put_frame};
use crate::link::OtpLink;
use crate::piece::{Piece, cut};
use crate::runs::{run_of, said_in};
use crate::taking::is_last;
use dist_types::OutOfMemory;
use link_frames::MessageFault;
use otp_edge::Life;

impl OtpLink {
    /// The bytes that go out of whole frames and messages of the node here, each behind its length.
    /// They may be none.
    pub fn send(&mut self, batch: &[u8], life: &mut Life) -> Result<Vec<u8>, LinkFault>
        ensures kind { self.new.kind ≡ self.old.kind }
        ensures other { self.new.takes_bodies ≡ self.old.takes_bodies }
        ensures healing { self.new.healing ≡ self.old.healing }
        ensures sent { IfOk result (λ out. SendsAll self.old.kind (stand_of self.old life.old)
            (stand_of self.new life.new) batch.now out.items) }
        ensures refused { IfErr result (λ fault. fault ≡ faults.OutOfMemory) }
    {
        let mut out = Vec::new(self.alloc);
        let mut left = batch;
        while !left.is_empty() {
            let Some(rest) = self.send_piece(left, life, &mut out)? else {
                return Ok(out);
            };
            left = rest;
        }
        Ok(out)
    }

    /// Appends what goes out of the piece at the front, and gives what stands behind it; none where
    /// it isn't whole.
    fn send_piece<'a>(
        &mut self,
        left: &'a [u8],
        life: &mut Life,
        out: &mut Vec<u8>,
    ) -> Result<Option<&'a [u8]>, LinkFault>
        ensures kind { self.new.kind ≡ self.old.kind }
        ensures other { self.new.takes_bodies ≡ self.old.takes_bodies }
        ensures healing { self.new.healing ≡ self.old.healing }
        ensures sent { IfOk result (λ read. MatchOption read
            ((stand_of self.new life.new ≡ stand_of self.old life.old)
            × (out.new.items ≡ out.old.items) × IsUnsent self.old.sends_bodies left.now)
            (λ rest. SendsFront self.old.kind (stand_of self.old life.old)
            (stand_of self.new life.new) left.now rest.now out.old.items out.new.items)) }
        ensures refused { IfErr result (λ fault. fault ≡ faults.OutOfMemory) }
    {
        match cut(left, self.sends_bodies) {
            Piece::Frame(body, rest) => {
                let frame = self.frame_sent(body)?;
                put_frame(&frame, out)?;
                Ok(Some(rest))
            }
            Piece::Body(body, rest) => {
                let bodies = self.bodies_sent(body, life)?;
                out.extend_from_slice(&bodies)?;
                Ok(Some(rest))
            }
            Piece::Tick(rest) => Ok(Some(rest)),
            Piece::Long(..) | Piece::More => Ok(None),
        }
    }

    /// A frame of the handshake, of which that with the own name is looked at. Behind a Reply and
    /// an Ack go bodies.
    fn frame_sent(&mut self, body: &[u8]) -> Result<Vec<u8>, LinkFault>
        ensures kind { self.new.kind ≡ self.old.kind }
        ensures other { self.new.takes_bodies ≡ self.old.takes_bodies }
        ensures healing { self.new.healing ≡ self.old.healing }
        ensures frame { IfOk result (λ sent. IsOwnFrame self.old.kind.is_visible body.now
            sent.items) }
        ensures long { IfOk result (λ sent. length sent.items ≡ length body.now) }
        ensures known { IfOk result (λ _. Learns self.old.kind (not self.old.kind.is_dialled)
            (with_own (known_of self.old)) body.now (known_of self.old) (known_of self.new)) }
        ensures sends { IfOk result (λ _. self.new.sends_bodies ≡ is_last_of body.now) }
        ensures refused { IfErr result (λ fault. fault ≡ faults.OutOfMemory) }
    {
        let frame = own_frame(self.alloc, body, self.kind.is_visible)?;
        self.note_name(body)?;
        self.sends_bodies = is_last(body);
        Ok(frame)
    }

    /// A frame with the own name: from then on the edge may begin.
    fn note_name(&mut self, body: &[u8]) -> Result<(), OutOfMemory>
        ensures kind { self.new.kind ≡ self.old.kind }
        ensures other { self.new.takes_bodies ≡ self.old.takes_bodies }
        ensures healing { self.new.healing ≡ self.old.healing }
        ensures known { IfOk result (λ _. Learns self.old.kind (not self.old.kind.is_dialled)
            (with_own (known_of self.old)) body.now (known_of self.old) (known_of self.new)) }
    {
        let Some(said) = said_in(body, !self.kind.is_dialled) else {
            return Ok(());
        };
        let own = run_of(self.alloc, &said)?;
        self.own = own;
        self.meet();
        Ok(())
    }

    /// A message of the node here, as the edge says it.
    fn bodies_sent(&mut self, body: &[u8], life: &mut Life) -> Result<Vec<u8>, LinkFault>
        ensures kind { self.new.kind ≡ self.old.kind }
        ensures other { self.new.takes_bodies ≡ self.old.takes_bodies }
        ensures healing { self.new.healing ≡ self.old.healing }
        ensures sends { self.new.sends_bodies ≡ self.old.sends_bodies }
        ensures said { IfOk result (λ out. SendsBody (stand_of self.old life.old)
            (stand_of self.new life.new) body.now out.items) }
        ensures refused { IfErr result (λ fault. fault ≡ faults.OutOfMemory) }
    {
        let Some(edge) = &mut self.edge else {
            return Ok(Vec::new(self.alloc));
        };
        match edge.say_body(self.alloc, body, life) {
            Ok(bodies) => Ok(bodies),
            // No message of the node's own is so.
            Err(MessageFault::BadFrame) => Ok(Vec::new(self.alloc)),
            Err(MessageFault::OutOfMemory) => Err(LinkFault::OutOfMemory),
        }
    }
}
