//! What the peer of a link is sent of the bodies that the node says.
ghost use Rattle.std.specs.Prelude.{◌≡◌, None, IfErr, IfOk, OnErr, option_map};
ghost use Rattle.link_frames.specs.Parts.{message_of};
ghost use Rattle.link_frames.specs.declared.fault.MessageFault.TheVariants as faults;
ghost use Rattle.otp_edge.specs.Said.{IsBodySaid, IsNoBody, IsPartSaid, IsSaidOnce, IsSameLink};
ghost use Rattle.otp_edge.specs.Said.{GoesOn, KnowsTheSame};

use crate::edge_state::Edge;
use crate::life::Life;
use dist_types::{OutOfMemory, Scope, TryClone};
use link_frames::{Message, Message2, MessageFault, PartKind, Rows, decode, decode_v2};
use std::alloc::Global;

impl Edge {
    /// The bodies, behind their lengths, that the peer is sent of a body that the node says,
    /// without its length. `BadFrame` where it is no message of the link's version.
    pub fn say_body(
        &mut self,
        alloc: Global,
        body: &[u8],
        life: &mut Life,
    ) -> Result<Vec<u8>, MessageFault>
        ensures said { IfOk result (λ out. IsBodySaid self.old self.new life.old life.new body.now
            out.items) }
        ensures refused { IfErr result (λ fault. fault ≡ faults.BadFrame →
            IsNoBody self.old body.now) }
        ensures memory { OnErr result (KnowsTheSame self.old self.new) }
        ensures link { IsSameLink self.old self.new }
        ensures life { GoesOn life.old life.new }
    {
        if self.in_parts {
            let message = decode_v2(alloc, body)?;
            let out = self.say_part(alloc, message, life)?;
            return Ok(out);
        }
        let message = decode(alloc, body)?;
        let out = self.say(alloc, message, life)?;
        Ok(out)
    }

    /// The same of a message in parts: of one that isn't whole nothing, until its last part comes.
    fn say_part(
        &mut self,
        alloc: Global,
        message: Message2,
        life: &mut Life,
    ) -> Result<Vec<u8>, OutOfMemory>
        ensures said { IfOk result (λ out. IsPartSaid self.old self.new life.old life.new message
            out.items) }
        ensures memory { OnErr result (KnowsTheSame self.old self.new) }
        ensures link { IsSameLink self.old self.new }
        ensures life { GoesOn life.old life.new }
    {
        match message {
            Message2::Discover(scope) => self.say(alloc, Message::Discover(scope), life),
            Message2::Down(scope) => self.say(alloc, Message::Down(scope), life),
            Message2::Part {
                kind,
                scope,
                number,
                last,
                rows,
            } => {
                self.parts.gather(kind, scope, number, rows)?;
                if !last {
                    return Ok(Vec::new(alloc));
                }
                self.say_gathered(alloc, life)
            }
        }
    }

    /// All parts of a message have come.
    fn say_gathered(&mut self, alloc: Global, life: &mut Life) -> Result<Vec<u8>, OutOfMemory>
        ensures said { IfOk result (λ out. IsSaidOnce self.old self.new life.old life.new
            (option_map (λ b. message_of b.kind b.scope b.rows) self.old.parts) out.items) }
        ensures memory { OnErr result (KnowsTheSame self.old self.new) }
        ensures link { IsSameLink self.old self.new }
        ensures life { GoesOn life.old life.new }
        ensures parts { self.new.parts ≡ None }
    {
        let Some(begun) = self.parts.take() else {
            return Ok(Vec::new(alloc));
        };
        let scope = begun.scope().try_clone(alloc)?;
        let message = whole(begun.kind(), scope, begun.into_rows());
        self.say(alloc, message, life)
    }
}

/// The message of that kind.
fn whole(kind: PartKind, scope: Scope, rows: Rows) -> Message
    ensures { result ≡ message_of kind scope rows }
{
    match kind {
        PartKind::Sync => Message::Sync(scope, rows),
        PartKind::Join => Message::Join(scope, rows),
        PartKind::Leave => Message::Leave(scope, rows),
    }
}
