//! What the peer of a link is sent back for signals that say nothing of rows.
ghost use Rattle.std.specs.Prelude.{◌≡◌, ◌<◌, ◌⊎◌, [], IfOk, IfSome, OnErr, vec_len};
ghost use Rattle.otp_edge.specs.Controls.{IsAnswer, missing_bytes};
ghost use Rattle.otp_edge.specs.Edges.{Stays, seens};
ghost use Rattle.otp_edge.specs.Said.{KnowsTheSame};

use crate::asked::{connect_in, ping_in, put_in_sync, put_pong};
use crate::body::Control;
use crate::drops::Dropped;
use crate::edge_state::Edge;
use crate::group::only_atom;
use crate::open_scope::Watcher;
use crate::own_terms::{NO_COOKIE, before_message, member_term, put_whole};
use crate::process::only_member;
use crate::signal::Signal;
use crate::told_control::{put_missing, put_unlinked, put_untied};
use dist_types::{OutOfMemory, Pid, TryClone};
use std::alloc::Global;

const SEND: u8 = 2;

const REG_SEND: u8 = 6;

const KERNEL: &[u8] = b"net_kernel";

const NAMES: &[u8] = b"global_name_server";
/// The atom `global_name_server`.
const NAME_SERVER: &[u8] = b"\x77\x12global_name_server";
/// The number of the process that speaks for the node itself: below those of scopes.
const OWN_KERNEL: u64 = 0x7FFF_FFFF_FFFF_FFFF;

impl Edge {
    /// The bodies that the peer is sent for a signal of which nothing is handed in; none for most.
    pub fn answer(&mut self, alloc: Global, signal: &Signal<'_>) -> Result<Vec<u8>, OutOfMemory>
        ensures sent { IfOk result (λ out. IsAnswer signal.now out.items) }
        ensures stays { Stays self.old self.new }
        ensures same { seens self.new ≡ seens self.old }
        ensures memory { OnErr result (KnowsTheSame self.old self.new) }
    {
        match signal {
            Signal::Asked(name, message) => self.answer_name(alloc, name, message),
            Signal::Monitor(from, to, reference) => self.watched(alloc, from, to, reference),
            Signal::Demonitor(_, to, reference) => self.unwatched(alloc, to, reference),
            Signal::Link(from, to) => {
                let mut out = Vec::new(alloc);
                put_unlinked(alloc, to, from, &mut out)?;
                Ok(out)
            }
            Signal::Unlink(id, from, to) => {
                let mut out = Vec::new(alloc);
                put_untied(alloc, id, to, from, &mut out)?;
                Ok(out)
            }
            _ => Ok(self.dropped(alloc, Dropped::Unanswered).owed),
        }
    }

    /// What is asked of a name: whether we are there, and to share names, which only a node asks
    /// that we are published to.
    fn answer_name(
        &mut self,
        alloc: Global,
        name: &[u8],
        message: &[u8],
    ) -> Result<Vec<u8>, OutOfMemory>
        ensures stays { Stays self.old self.new }
        ensures same { seens self.new ≡ seens self.old }
        ensures memory { OnErr result (KnowsTheSame self.old self.new) }
    {
        if name == KERNEL {
            return pong(alloc, message);
        }
        if name == NAMES && connect_in(message).is_some() {
            return self.in_sync(alloc);
        }
        Ok(self.dropped(alloc, Dropped::ForName).owed)
    }

    /// That there are no names to share.
    fn in_sync(&self, alloc: Global) -> Result<Vec<u8>, OutOfMemory> {
        let from = member_term(alloc, &self.kernel_pid(alloc)?)?;
        let control = Control {
            arity: 4,
            operation: REG_SEND,
            first: &from,
            second: &NO_COOKIE,
            rest: NAME_SERVER,
        };
        let mut body = before_message(alloc, &control)?;
        put_in_sync(self.own.node.as_bytes(), &mut body)?;
        let mut out = Vec::new(alloc);
        put_whole(&body, &mut out)?;
        Ok(out)
    }

    /// A process watches: that of a scope is told of its end later, any other isn't there. That of
    /// `net_kernel` is left alone: a ping that is told of its end ends the link.
    fn watched(
        &mut self,
        alloc: Global,
        from: &[u8],
        to: &[u8],
        reference: &[u8],
    ) -> Result<Vec<u8>, OutOfMemory>
        ensures sent { IfOk result (λ out. (out.items ≡ []) ⊎
            (out.items ≡ missing_bytes to.now from.now reference.now)) }
        ensures stays { Stays self.old self.new }
        ensures same { seens self.new ≡ seens self.old }
        ensures memory { OnErr result (KnowsTheSame self.old self.new) }
    {
        let mut out = Vec::new(alloc);
        if only_atom(to) == Some(KERNEL) {
            return Ok(out);
        }
        let watcher = Watcher {
            from: from.to_vec(alloc)?,
            reference: reference.to_vec(alloc)?,
        };
        match self.own_place(alloc, to)? {
            Some(place) if self.scopes[place].may_watch() => {
                self.scopes[place].watch(watcher)?;
                Ok(out)
            }
            _ => {
                put_missing(alloc, to, &watcher, &mut out)?;
                Ok(out)
            }
        }
    }

    fn unwatched(
        &mut self,
        alloc: Global,
        to: &[u8],
        reference: &[u8],
    ) -> Result<Vec<u8>, OutOfMemory>
        ensures sent { IfOk result (λ out. out.items ≡ []) }
        ensures stays { Stays self.old self.new }
        ensures same { seens self.new ≡ seens self.old }
        ensures memory { OnErr result (KnowsTheSame self.old self.new) }
    {
        let Some(place) = self.own_place(alloc, to)? else {
            return Ok(Vec::new(alloc));
        };
        self.scopes[place].unwatch(reference);
        Ok(Vec::new(alloc))
    }

    /// The scope here that the peer knows by the process of this term.
    fn own_place(&self, alloc: Global, term: &[u8]) -> Result<Option<usize>, OutOfMemory>
        ensures { IfOk result (λ read. IfSome read (λ place. place < vec_len self.now.scopes)) }
    {
        match only_member(alloc, term) {
            Ok(Some(pid)) => Ok(self.place_of_own(&pid)),
            Ok(None) => Ok(None),
            Err(_) => Err(OutOfMemory),
        }
    }

    /// The process that speaks for the node itself.
    fn kernel_pid(&self, alloc: Global) -> Result<Pid, OutOfMemory> {
        Ok(Pid {
            node: self.own.node.try_clone(alloc)?,
            creation: self.own.creation,
            number: OWN_KERNEL,
        })
    }
}

/// The answer to a ping.
fn pong(alloc: Global, message: &[u8]) -> Result<Vec<u8>, OutOfMemory> {
    let mut out = Vec::new(alloc);
    let Some(ping) = ping_in(message) else {
        return Ok(out);
    };
    let control = Control {
        arity: 3,
        operation: SEND,
        first: &NO_COOKIE,
        second: ping.from,
        rest: &[],
    };
    let mut body = before_message(alloc, &control)?;
    put_pong(ping.tag, &mut body)?;
    put_whole(&body, &mut out)?;
    Ok(out)
}
