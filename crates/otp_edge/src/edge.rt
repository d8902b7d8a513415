//! What the peer of a link sends, as what is handed in to the node here and what it is sent back.
ghost use Rattle.std.specs.Prelude.{◌≡◌, ◌<◌, ◌⊎◌, ℕ, List, IfOk, IfErr, OnErr, vec_len};
ghost use Rattle.std.specs.Prelude.{[], get_or};
ghost use Rattle.dist_types.specs.declared.pid.Pid.{Pid};
ghost use Rattle.otp_edge.specs.Bodies.{IsBody};
ghost use Rattle.otp_edge.specs.Drops.{CountsOnce};
ghost use Rattle.otp_edge.specs.Edges.{IsHeard, IsSentTo, IsAskedBy, IsDiscoverBy, IsEnded};
ghost use Rattle.otp_edge.specs.Edges.{Ends, Hears, HearsNothing, Stays, Takes};
ghost use Rattle.otp_edge.specs.Opens.{IsNothing, RunsNowhere};
ghost use Rattle.otp_edge.specs.Said.{KnowsTheSame};
ghost use Rattle.otp_edge.specs.Signals.{SaysTooMany};
ghost use Rattle.otp_edge.specs.declared.fault.HearFault.TheVariants as faults;
ghost use Rattle.otp_edge.specs.declared.open_scope.OpenScope.{OpenScope};

use crate::drops::Dropped;
use crate::edge_state::Edge;
use crate::fault::HearFault;
use crate::heard::Heard;
use crate::meaning::{Said, row_count};
use crate::process::only_member;
use crate::signal::Signal;
use crate::signal_reading::read_signal;
use dist_types::{MAX_ROWS, OutOfMemory, Pid, Scope, TextFault, TryClone};
use link_frames::Message;
use std::alloc::Global;

impl Edge {
    /// What comes of a body, without its length. `NoMessage` where it is none, and `TooManyRows`
    /// where it speaks of more than 65,536: the link has to end.
    pub fn hear(&mut self, alloc: Global, body: &[u8]) -> Result<Heard, HearFault>
        ensures found { IfOk result (IsHeard self.old body.now) }
        ensures hears { IfOk result (Hears self.old self.new body.now) }
        ensures refused { IfErr result (λ fault. fault ≡ faults.NoMessage →
            (control behind : List ℕ) → IsBody control behind body.now → ⊥) }
        ensures too_many { IfErr result (λ fault. fault ≡ faults.TooManyRows →
            SaysTooMany body.now) }
        ensures stays { Stays self.old self.new }
        ensures memory { OnErr result (KnowsTheSame self.old self.new) }
    {
        let signal = read_signal(alloc, body)?;
        match signal {
            Signal::Said(to, said) => {
                let sent = self.hear_sent(alloc, &to, said)?;
                Ok(sent)
            }
            Signal::Named(name, said) => {
                let named = self.hear_named(alloc, name, said)?;
                Ok(named)
            }
            Signal::MonitorExit(from, to) => self.hear_end(alloc, from, to),
            other => {
                let owed = self.answer(alloc, &other)?;
                Ok(Heard::only_owed(owed))
            }
        }
    }

    /// A message of `pg` to a process: to that of a scope.
    fn hear_sent(&mut self, alloc: Global, to: &Pid, said: Said) -> Result<Heard, OutOfMemory>
        ensures heard { IfOk result (λ heard. HearsNothing self.old self.new heard ⊎
            IsSentTo self.old self.new to.now said heard) }
        ensures stays { Stays self.old self.new }
        ensures memory { OnErr result (KnowsTheSame self.old self.new) }
    {
        match self.place_of_own(to) {
            Some(place) => self.hear_at(alloc, place, said),
            None => Ok(self.dropped(alloc, Dropped::ForMember)),
        }
    }

    /// A message of `pg` to a name: only a process that has just been found asks so.
    fn hear_named(&mut self, alloc: Global, name: &[u8], said: Said) -> Result<Heard, OutOfMemory>
        ensures heard { IfOk result (λ heard. HearsNothing self.old self.new heard ⊎
            ((p : Pid) × IsDiscoverBy self.old self.new name.now p said heard)) }
        ensures stays { Stays self.old self.new }
        ensures memory { OnErr result (KnowsTheSame self.old self.new) }
    {
        match said {
            Said::Discover(pid) => self.hear_asked(alloc, name, pid),
            _ => Ok(self.dropped(alloc, Dropped::ForName)),
        }
    }

    /// A process asks for the scope of that name.
    fn hear_asked(&mut self, alloc: Global, name: &[u8], pid: Pid) -> Result<Heard, OutOfMemory>
        ensures heard { IfOk result (λ heard. HearsNothing self.old self.new heard ⊎
            IsAskedBy self.old self.new name.now pid heard) }
        ensures stays { Stays self.old self.new }
        ensures memory { OnErr result (KnowsTheSame self.old self.new) }
    {
        match self.place_of(name) {
            Some(place) => self.hear_at(alloc, place, Said::Discover(pid)),
            None => self.asked_for(alloc, name, &pid),
        }
    }

    /// The peer asks for a scope that doesn't run here.
    fn asked_for(&mut self, alloc: Global, name: &[u8], pid: &Pid) -> Result<Heard, OutOfMemory>
        requires { RunsNowhere name.now self.old.scopes.items }
        ensures heard { IfOk result (λ heard. HearsNothing self.old self.new heard ⊎
            IsAskedBy self.old self.new name.now pid.now heard) }
        ensures stays { Stays self.old self.new }
        ensures memory { OnErr result (KnowsTheSame self.old self.new) }
    {
        if !self.peer.has(pid) {
            return Ok(self.dropped(alloc, Dropped::Unheard));
        }
        match Scope::parse(alloc, name) {
            Ok(scope) => Ok(Heard::only_message(alloc, Message::Discover(scope))),
            Err(TextFault::OutOfMemory) => Err(OutOfMemory),
            Err(_) => Ok(self.dropped(alloc, Dropped::ForName)),
        }
    }

    /// A message of `pg` to the process of a scope here.
    fn hear_at(&mut self, alloc: Global, place: usize, said: Said) -> Result<Heard, OutOfMemory>
        requires { place < vec_len self.old.scopes }
        ensures heard { IfOk result (λ heard. HearsNothing self.old self.new heard ⊎
            ((d : OpenScope) → Takes self.old self.new place said
            (get_or self.old.scopes.items place d) heard)) }
        ensures stays { Stays self.old self.new }
        ensures memory { OnErr result (KnowsTheSame self.old self.new) }
    {
        if row_count(&said) > self.max_rows() {
            return Ok(self.dropped(alloc, Dropped::TooManyRows));
        }
        let reference = self.watches;
        let ready = self.scopes[place].ready(alloc, &self.own, reference, &said)?;
        let heard = self.scopes[place].hear(ready, &self.peer, reference, said);
        self.watches = reference.wrapping_add(u32::from(!heard.owed.is_empty()));
        self.drops.add_unheard(&heard);
        Ok(heard)
    }

    /// The most rows that a message to the node brings.
    fn max_rows(&self) -> usize {
        if self.in_parts {
            16 * MAX_ROWS
        } else {
            MAX_ROWS
        }
    }

    /// A process that one here watched has ended: where it is that of the peer's scope, the scope.
    fn hear_end(&mut self, alloc: Global, from: &[u8], to: &[u8]) -> Result<Heard, HearFault>
        ensures heard { IfOk result (λ heard. HearsNothing self.old self.new heard ⊎
            IsEnded self.old self.new from.now to.now heard) }
        ensures refused { IfErr result (λ fault. fault ≡ faults.OutOfMemory) }
        ensures stays { Stays self.old self.new }
        ensures memory { OnErr result (KnowsTheSame self.old self.new) }
    {
        let Some(own) = only_member(alloc, to)? else {
            return Ok(self.dropped(alloc, Dropped::Unanswered));
        };
        let Some(other) = only_member(alloc, from)? else {
            return Ok(self.dropped(alloc, Dropped::Unanswered));
        };
        match self.place_of_own(&own) {
            Some(place) => {
                let end = self.end_at(alloc, place, &other)?;
                Ok(end)
            }
            None => Ok(self.dropped(alloc, Dropped::Unanswered)),
        }
    }

    fn end_at(&mut self, alloc: Global, place: usize, other: &Pid) -> Result<Heard, OutOfMemory>
        requires { place < vec_len self.old.scopes }
        ensures heard { IfOk result (λ heard. HearsNothing self.old self.new heard ⊎
            ((d : OpenScope) → Ends self.old self.new place other.now
            (get_or self.old.scopes.items place d) heard)) }
        ensures stays { Stays self.old self.new }
        ensures memory { OnErr result (KnowsTheSame self.old self.new) }
    {
        let open = &self.scopes[place];
        if !open.seen.is_known(other) {
            return Ok(self.dropped(alloc, Dropped::Unheard));
        }
        let scope = open.scope.try_clone(alloc)?;
        self.scopes[place].seen.forget();
        Ok(Heard::only_message(alloc, Message::Down(scope)))
    }

    /// Nothing comes of a body, and it is counted why.
    pub fn dropped(&mut self, alloc: Global, reason: Dropped) -> Heard
        ensures nothing { IsNothing result }
        ensures owed { result.owed.items ≡ [] }
        ensures counted { CountsOnce reason self.old.drops self.new.drops }
        ensures scopes { self.new.scopes ≡ self.old.scopes }
        ensures stays { Stays self.old self.new }
    {
        self.drops.add(reason);
        Heard::only_owed(Vec::new(alloc))
    }
}
