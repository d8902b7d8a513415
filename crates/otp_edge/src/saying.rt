//! What the peer of a link is sent of what the node says.
ghost use Rattle.std.specs.Prelude.{◌≡◌, ◌+◌, ◌^◌, ℕ, List, [], IfOk, OnErr};
ghost use Rattle.std.specs.List.{flat_map};
ghost use Rattle.link_frames.specs.Parts.{message_of};
ghost use Rattle.otp_edge.specs.Drops.{CountsOnce};
ghost use Rattle.otp_edge.specs.Endings.{asking_again};
ghost use Rattle.otp_edge.specs.Opens.{open_of, RunsNowhere};
ghost use Rattle.otp_edge.specs.Said.{GoesOn, IsSaid, IsSameLink, KnowsTheSame, Says};
ghost use Rattle.otp_edge.specs.Said.{started};
ghost use Rattle.link_frames.specs.declared.message.Message.TheVariants as messages;

use crate::drops::Dropped;
use crate::edge_state::{Edge, MAX_SCOPES};
use crate::life::Life;
use crate::open_scope::OpenScope;
use crate::rows::MAX_SAID;
use crate::scope_edge::ScopeEdge;
use dist_types::{OutOfMemory, Pid, Scope, TryClone};
use link_frames::{Message, PartKind, Rows};
use std::alloc::Global;

impl Edge {
    /// The bodies, behind their lengths, that the peer is sent of a message that the node says.
    pub fn say(
        &mut self,
        alloc: Global,
        message: Message,
        life: &mut Life,
    ) -> Result<Vec<u8>, OutOfMemory>
        ensures said { IfOk result (λ out. IsSaid self.old self.new life.old life.new
            message out.items) }
        ensures memory { OnErr result (KnowsTheSame self.old self.new) }
        ensures link { IsSameLink self.old self.new }
        ensures parts { self.new.parts ≡ self.old.parts }
        ensures life { GoesOn life.old life.new }
    {
        match message {
            Message::Discover(scope) => self.say_discover(alloc, scope, life),
            Message::Sync(scope, rows) => self.say_rows(alloc, PartKind::Sync, &scope, rows, life),
            Message::Join(scope, rows) => self.say_rows(alloc, PartKind::Join, &scope, rows, life),
            Message::Leave(scope, rows) => {
                self.say_rows(alloc, PartKind::Leave, &scope, rows, life)
            }
            Message::Down(scope) => self.say_down(alloc, &scope),
        }
    }

    /// A scope runs here: its process is a new one, unless it ran already. It is asked for at the
    /// peer.
    fn say_discover(
        &mut self,
        alloc: Global,
        scope: Scope,
        life: &mut Life,
    ) -> Result<Vec<u8>, OutOfMemory>
        ensures said { IfOk result (λ out. IsSaid self.old self.new life.old life.new
            (messages.Discover scope) out.items) }
        ensures memory { OnErr result (self.new.scopes.items ≡ self.old.scopes.items) }
        ensures link { IsSameLink self.old self.new }
        ensures parts { self.new.parts ≡ self.old.parts }
        ensures life { GoesOn life.old life.new }
    {
        match self.place_of(scope.as_bytes()) {
            Some(place) => {
                let mut out = Vec::new(alloc);
                self.scopes[place].ask(alloc, &mut out)?;
                Ok(out)
            }
            None => self.start(alloc, scope, life),
        }
    }

    /// A scope starts, unless there are too many.
    fn start(
        &mut self,
        alloc: Global,
        scope: Scope,
        life: &mut Life,
    ) -> Result<Vec<u8>, OutOfMemory>
        requires { RunsNowhere scope self.old.scopes.items }
        ensures said { IfOk result (λ out. IsSaid self.old self.new life.old life.new
            (messages.Discover scope) out.items) }
        ensures memory { OnErr result (self.new.scopes.items ≡ self.old.scopes.items) }
        ensures link { IsSameLink self.old self.new }
        ensures parts { self.new.parts ≡ self.old.parts }
        ensures life { GoesOn life.old life.new }
    {
        if self.scopes.len() >= MAX_SCOPES {
            return Ok(self.untold(alloc, Dropped::TooManyScopes));
        }
        let Some(number) = life.number() else {
            return Ok(self.untold(alloc, Dropped::TooManyScopes));
        };
        let open = self.opened(alloc, scope, number)?;
        let mut out = Vec::new(alloc);
        open.ask(alloc, &mut out)?;
        self.scopes.push(open)?;
        Ok(out)
    }

    /// A scope that has just started.
    fn opened(&self, alloc: Global, scope: Scope, number: u64) -> Result<OpenScope, OutOfMemory>
        ensures { IfOk result (λ item. (processes : ℕ) → number ≡ 2 ^ 63 + processes →
            open_of item ≡ started self.now.own processes scope) }
    {
        Ok(OpenScope {
            scope,
            own: Pid {
                node: self.own.node.try_clone(alloc)?,
                creation: self.own.creation,
                number,
            },
            seen: ScopeEdge::new(alloc),
            reference: 0,
            watchers: Vec::new(alloc),
        })
    }

    /// Rows of a scope that runs here.
    fn say_rows(
        &mut self,
        alloc: Global,
        kind: PartKind,
        scope: &Scope,
        rows: Rows,
        life: &mut Life,
    ) -> Result<Vec<u8>, OutOfMemory>
        ensures said { IfOk result (λ out. IsSaid self.old self.new life.old life.new
            (message_of kind scope.now rows) out.items) }
        ensures memory { OnErr result (KnowsTheSame self.old self.new) }
        ensures link { IsSameLink self.old self.new }
        ensures parts { self.new.parts ≡ self.old.parts }
        ensures life { GoesOn life.old life.new }
    {
        let Some(place) = self.place_of(scope.as_bytes()) else {
            return Ok(self.untold(alloc, Dropped::Untold));
        };
        if rows.as_slice().len() > MAX_SAID {
            return Ok(self.untold(alloc, Dropped::TooManyRows));
        }
        let out = self.scopes[place].tell(alloc, kind, rows, life)?;
        self.drops.add_untold(&out);
        Ok(out)
    }

    /// A scope stopped here: who watches its process is told, and it watches no longer.
    fn say_down(&mut self, alloc: Global, scope: &Scope) -> Result<Vec<u8>, OutOfMemory>
        ensures said { (processes later : ℕ) (atoms : List (List ℕ)) → IfOk result (λ out.
            Says self.old.own self.old.scopes.items self.new.scopes.items processes later atoms
            (messages.Down scope.now) out.items) }
        ensures memory { OnErr result (self.new.scopes.items ≡ self.old.scopes.items) }
        ensures link { IsSameLink self.old self.new }
        ensures parts { self.new.parts ≡ self.old.parts }
    {
        let Some(place) = self.place_of(scope.as_bytes()) else {
            return Ok(self.untold(alloc, Dropped::Untold));
        };
        let out = self.scopes[place].end(alloc, &self.own)?;
        self.scopes.swap_remove(place);
        Ok(out)
    }

    /// Nothing is told of a message, and it is counted why.
    fn untold(&mut self, alloc: Global, reason: Dropped) -> Vec<u8>
        ensures out { result.items ≡ [] }
        ensures counted { CountsOnce reason self.old.drops self.new.drops }
        ensures scopes { self.new.scopes ≡ self.old.scopes }
        ensures link { IsSameLink self.old self.new }
        ensures parts { self.new.parts ≡ self.old.parts }
    {
        self.drops.add(reason);
        Vec::new(alloc)
    }

    /// Asks the peer for its rows of the scopes that run here: of all, or of those whose process
    /// at the peer isn't known.
    pub fn ask(&self, alloc: Global, all: bool) -> Result<Vec<u8>, OutOfMemory>
        ensures { IfOk result (λ out. out.items ≡ flat_map (asking_again all)
            self.now.scopes.items) }
    {
        let mut out = Vec::new(alloc);
        for open in &self.scopes {
            open.ask_again(alloc, all, &mut out)?;
        }
        Ok(out)
    }
}
