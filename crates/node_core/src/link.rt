//! A link that is kept.
ghost use Rattle.std.specs.Prelude.{◌≡◌, ◌++◌, vec_len, vec_capacity, [], ◌≤◌, ◌+◌, ◌==◌, false, cond, length, None, OnOk, OnErr, IfOk};
ghost use Rattle.dist_types.specs.Listing.{same};
ghost use Rattle.link_frames.specs.declared.part.Message2.TheVariants as messages;
ghost use Rattle.link_frames.specs.Parts.{is_next, begun_after};
ghost use Rattle.link_frames.specs.Undoing.{undone};
ghost use Rattle.policy_audit.specs.Hearing.{rows_kept};
ghost use Rattle.node_core.specs.Ending.{is_overfull};
ghost use Rattle.node_core.specs.Links.{KeptLink, broken_off, with_frames, with_prepared, with_room, narrow_frames, is_shown, is_ended, in_state, takes, takes_parts, begun_with, row_limit};

use crate::link_state::LinkState;
use crate::running::{ROWS_OF_VERSION_1, ROWS_OF_VERSION_2};
use crate::slow::MAX_WAITING;
use crate::waiting::{put_bodies, put_copies, put_frames};
use dist_types::{OutOfMemory, Row, Scope};
use link_frames::{PartKind, Parts, Rows, Undo};
use link_states::Bodies;
use policy_audit::{OutFrame, OutFrames};
use std::alloc::Global;
use std::marker::Model;
use std::mem;

/// A link, with the frames that wait for it.
#[derive(Drop)]
pub struct Link {
    number: u32,
    state: LinkState,
    /// What is kept of a message of which parts came.
    begun: Parts,
    /// The frames that are owed, and behind them those that are prepared.
    waiting: Vec<OutFrame>,
    /// How many are owed.
    owed: usize,
}

impl Model for Link {
    ghost use Rattle.std.specs.Prelude.{take, drop, ◌≤◌, ◌-◌, vec_len, vec_capacity};
    ghost use Rattle.node_core.specs.Links.{KeptLink};

    ghost Value = { KeptLink };

    ghost view = { λ link. record {
      number = link.number;
      state = link.state;
      begun = link.begun;
      frames = take link.owed link.waiting.items;
      prepared = drop link.owed link.waiting.items;
      room = vec_capacity link.waiting - vec_len link.waiting;
    } };

    ghost invariant = { λ link. link.owed ≤ vec_len link.waiting };
}

/// A link without its state, which hears a frame of the handshake: it has begun no message.
#[derive(Drop)]
pub struct Stateless {
    number: u32,
    waiting: Vec<OutFrame>,
    owed: usize,
}

impl Model for Stateless {
    ghost use Rattle.std.specs.Prelude.{take, drop, ◌≤◌, ◌-◌, vec_len, vec_capacity};
    ghost use Rattle.node_core.specs.Links.{StatelessLink};

    ghost Value = { StatelessLink };

    ghost view = { λ link. record {
      number = link.number;
      frames = take link.owed link.waiting.items;
      prepared = drop link.owed link.waiting.items;
      room = vec_capacity link.waiting - vec_len link.waiting;
    } };

    ghost invariant = { λ link. link.owed ≤ vec_len link.waiting };
}

impl Stateless {
    /// The link in this state.
    pub fn in_state(self, state: LinkState) -> Link
        ensures { result ≡ in_state state self }
    {
        let Stateless {
            number,
            waiting,
            owed,
        } = self;
        Link {
            number,
            state,
            begun: Parts::new(),
            waiting,
            owed,
        }
    }

    pub fn number(&self) -> u32
        ensures { result ≡ self.now.number }
    {
        self.number
    }
}

impl Link {
    /// A link for which these frames wait.
    pub fn new(number: u32, state: LinkState, waiting: Vec<OutFrame>) -> Link
        ensures { result ≡ record {
          number = number;
          state = state;
          begun = None;
          frames = waiting.items;
          prepared = [];
          room = result.room;
        } }
    {
        let owed = waiting.len();
        Link {
            number,
            state,
            begun: Parts::new(),
            waiting,
            owed,
        }
    }

    pub fn number(&self) -> u32
        ensures { result ≡ self.now.number }
    {
        self.number
    }

    pub fn state(&self) -> &LinkState
        ensures { result.now ≡ self.now.state }
    {
        &self.state
    }

    /// The frames that wait.
    pub fn frames(&self) -> &[OutFrame]
        ensures { result.now ≡ self.now.frames }
    {
        &self.waiting[..self.owed]
    }

    /// Room for so many frames more.
    pub fn make_room(&mut self, frames: usize) -> Result<(), OutOfMemory>
        requires { self.old.prepared ≡ [] }
        ensures ok { OnOk result (frames ≤ self.new.room) }
        ensures same { self.new ≡ with_room self.old self.new.room }
    {
        self.waiting.reserve(frames)?;
        Ok(())
    }

    /// Frames that wait from now on, in the room that there is.
    pub fn owe(&mut self, frames: Vec<OutFrame>)
        requires room { length frames.items ≤ self.old.room }
        requires idle { self.old.prepared ≡ [] }
        ensures owed { self.new ≡ with_room (with_frames self.old frames.items) self.new.room }
        ensures room { self.old.room ≤ self.new.room + length frames.items }
    {
        put_frames(&mut self.waiting, frames);
        self.owed = self.waiting.len();
    }

    /// Frames of the handshake that wait from now on.
    pub fn owe_bodies(&mut self, bodies: Bodies)
        requires room { length bodies ≤ self.old.room }
        requires idle { self.old.prepared ≡ [] }
        ensures owed { self.new ≡ with_room (with_frames self.old (narrow_frames bodies))
            self.new.room }
        ensures room { self.old.room ≤ self.new.room + length bodies }
    {
        put_bodies(&mut self.waiting, bodies.into_vec());
        self.owed = self.waiting.len();
    }

    /// Prepares copies of frames, which wait once they are committed.
    pub fn prepare(&mut self, alloc: Global, frames: &[OutFrame]) -> Result<(), OutOfMemory>
        ensures ok { OnOk result
            (self.new ≡ with_room (with_prepared self.old (self.old.prepared ++ frames.now))
            self.new.room) }
        ensures same { OnErr result (self.new ≡ with_room self.old self.new.room) }
    {
        let before = self.waiting.len();
        if put_copies(alloc, &mut self.waiting, frames).is_err() {
            self.waiting.truncate(before);
            return Err(OutOfMemory);
        }
        Ok(())
    }

    /// The prepared frames wait from now on.
    pub fn commit(&mut self)
        ensures { self.new ≡ with_prepared (with_frames self.old self.old.prepared) [] }
    {
        self.owed = self.waiting.len();
    }

    /// The prepared frames are dropped.
    pub fn forget(&mut self)
        ensures { self.new ≡ with_room (with_prepared self.old []) self.new.room }
    {
        self.waiting.truncate(self.owed);
    }

    /// Hands the waiting frames over.
    pub fn hand_over(&mut self, alloc: Global) -> OutFrames
        requires { self.old.prepared ≡ [] }
        ensures frames { result ≡ self.old.frames }
        ensures left { self.new ≡ record {
          number = self.old.number;
          state = self.old.state;
          begun = self.old.begun;
          frames = [];
          prepared = [];
          room = self.new.room;
        } }
    {
        self.owed = 0;
        OutFrames::of(mem::replace(&mut self.waiting, Vec::new(alloc)))
    }

    /// Takes the state out, for a frame to be heard in it.
    pub fn into_parts(self) -> (LinkState, Stateless)
        requires { self.begun ≡ None }
        ensures { in_state result.0 result.1 ≡ self }
    {
        let Link {
            number,
            state,
            begun: _,
            waiting,
            owed,
        } = self;
        let rest = Stateless {
            number,
            waiting,
            owed,
        };
        (state, rest)
    }

    /// Whether a part may come: it is the first of its message, or follows those that are kept.
    pub fn is_next(&self, kind: PartKind, scope: &Scope, number: u32) -> bool
        ensures { result ≡ is_next self.now.begun kind scope.now number }
    {
        self.begun.is_next(kind, scope, number)
    }

    /// Keeps a part. What takes it back is handed out.
    pub fn gather(
        &mut self,
        kind: PartKind,
        scope: Scope,
        number: u32,
        rows: Rows,
    ) -> Result<Undo, OutOfMemory>
        ensures ok { OnOk result (self.new ≡ begun_with self.old
            (begun_after self.old.begun (messages.Part kind scope number false rows))) }
        ensures undo { IfOk result (λ undo. undone undo self.new.begun ≡ self.old.begun) }
        ensures same { OnErr result (self.new ≡ self.old) }
    {
        self.begun.gather(kind, scope, number, rows)
    }

    /// Takes the latest part back.
    pub fn undo(&mut self, undo: Undo)
        ensures { self.new ≡ begun_with self.old (undone undo self.old.begun) }
    {
        self.begun.undo(undo);
    }

    /// Nothing is kept of a message.
    pub fn clear(&mut self)
        ensures { self.new ≡ begun_with self.old None }
    {
        self.begun.clear();
    }

    /// Nothing is kept of a message whose last part has come.
    pub fn settle(&mut self, last: bool)
        ensures { self.new ≡ begun_with self.old (cond last None self.old.begun) }
    {
        if last {
            self.clear();
        }
    }

    /// The rows that are kept of a message of which parts came.
    pub fn begun_rows(&self) -> &[Row]
        ensures { result.now ≡ rows_kept self.now.begun }
    {
        self.begun.rows()
    }

    /// The answer to a Discover, for which there is room, waits from now on; and nothing is kept of
    /// a message.
    pub fn answer(&mut self, frames: Vec<OutFrame>)
        requires room { length frames.items ≤ self.old.room }
        requires idle { self.old.prepared ≡ [] }
        ensures { self.new
            ≡ with_room (begun_with (with_frames self.old frames.items) None) self.new.room }
    {
        self.owe(frames);
        self.clear();
    }

    /// Nothing is kept of a message of this scope.
    pub fn break_off(&mut self, scope: &Scope)
        ensures { self.new ≡ broken_off scope.now self.old }
    {
        self.begun.break_off(scope);
    }

    /// Whether too many frames wait for it, with those that are prepared.
    pub fn is_overfull(&self) -> bool
        ensures { result ≡ is_overfull self.now }
    {
        self.waiting.len() > MAX_WAITING
    }

    /// Whether the link is up and visible.
    pub fn is_shown(&self) -> bool
        ensures { result ≡ is_shown self.now.state }
    {
        match &self.state {
            LinkState::Up(up) => up.visible(),
            _ => false,
        }
    }

    /// Whether messages go over the link in parts.
    pub fn takes_parts(&self) -> bool
        ensures { result ≡ takes_parts self.now.state }
    {
        match &self.state {
            LinkState::Up(up) => up.version() == 2,
            _ => false,
        }
    }

    /// How many rows its peer may have in a scope.
    pub fn row_limit(&self) -> u32
        ensures { result ≡ row_limit self.now.state }
    {
        if self.takes_parts() {
            ROWS_OF_VERSION_2
        } else {
            ROWS_OF_VERSION_1
        }
    }

    /// Whether messages go over it in parts, or whole, as asked.
    pub fn takes(&self, parted: bool) -> bool
        ensures { result ≡ takes parted self.now.state }
    {
        self.takes_parts() == parted
    }

    /// Whether the link ended by a refused frame of its own.
    pub fn is_ended(&self) -> bool
        ensures { result ≡ is_ended self.now.state }
    {
        matches!(self.state, LinkState::Ended)
    }
}
