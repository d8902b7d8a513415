//! What an event is answered, and its entry in the audit.
ghost use Rattle.std.specs.Prelude.{◌≡◌, ◌<◌, [], true, length, Ok, IfOk};
ghost use Rattle.node_core.specs.Step.{Says, one_more, reply_of};

use crate::fault::CoreFault;
use dist_types::{OutOfMemory, TryClone};
use policy_audit::{Audit, Change, Changes, Event, Reply, Verdict};
use std::alloc::Global;

/// What an accepted event is answered, once for the caller and once for the audit, and what it
/// changed.
pub struct Answered {
    reply: Reply,
    copy: Reply,
    changes: Vec<Change>,
}

impl Drop for Answered {
    fn drop(self) {
        let Answered {
            reply: _,
            copy: _,
            changes: _,
        } = self;
    }
}

impl Answered {
    /// Done, and no row has changed.
    pub fn done(alloc: Global) -> Answered
        ensures { Says result Reply.Done [] }
    {
        Answered::changed(Vec::new(alloc))
    }

    /// Done, with these changes.
    pub fn changed(changes: Vec<Change>) -> Answered
        ensures { Says result Reply.Done changes.items }
    {
        Answered {
            reply: Reply::Done,
            copy: Reply::Done,
            changes,
        }
    }

    /// This answer, and no row has changed.
    pub fn with(alloc: Global, reply: Reply) -> Result<Answered, OutOfMemory>
        ensures { IfOk result (λ answered. Says answered reply []) }
    {
        match reply.try_clone(alloc) {
            Ok(copy) => Ok(Answered::both(reply, copy, Vec::new(alloc))),
            Err(fault) => {
                drop(reply);
                Err(fault)
            }
        }
    }

    /// An answer that stands here twice, with these changes.
    pub fn both(reply: Reply, copy: Reply, changes: Vec<Change>) -> Answered
        requires { copy ≡ reply }
        ensures { Says result reply changes.items }
    {
        Answered {
            reply,
            copy,
            changes,
        }
    }

    /// Enters an event that is answered so, into the room that there is.
    fn enter(self, audit: &mut Audit, seat: u32, event: Event) -> Reply
        requires room { audit.old.has_room ≡ true }
        requires space { length audit.old.entries < audit.old.limit }
        ensures entries { audit.new.entries ≡ one_more audit.old.entries seat event (Ok self) }
        ensures limit { (audit.new.limit ≡ audit.old.limit)
            × (audit.new.forgotten ≡ audit.old.forgotten) }
        ensures reply { result ≡ self.reply }
    {
        let Answered {
            reply,
            copy,
            changes,
        } = self;
        audit.push_reserved(seat, event, Verdict::Accepted(copy), Changes::of(changes));
        reply
    }
}

/// Enters an event, into the room that there is, with what it was answered. Where memory was
/// wanting there is no entry.
pub fn enter(
    alloc: Global,
    audit: &mut Audit,
    seat: u32,
    event: Event,
    answered: Result<Answered, CoreFault>,
) -> Result<Reply, CoreFault>
    requires room { audit.old.has_room ≡ true }
    requires space { length audit.old.entries < audit.old.limit }
    ensures entries { audit.new.entries ≡ one_more audit.old.entries seat event answered }
    ensures limit { (audit.new.limit ≡ audit.old.limit)
        × (audit.new.forgotten ≡ audit.old.forgotten) }
    ensures reply { result ≡ reply_of answered }
{
    match answered {
        Ok(answered) => Ok(answered.enter(audit, seat, event)),
        Err(CoreFault::Refused(rule)) => {
            let nothing = Changes::of(Vec::new(alloc));
            audit.push_reserved(seat, event, Verdict::Refused(rule), nothing);
            Err(CoreFault::Refused(rule))
        }
        Err(CoreFault::OutOfMemory) => {
            drop(event);
            Err(CoreFault::OutOfMemory)
        }
    }
}
