//! The parts that have come on a link, of a message that isn't whole.
ghost use Rattle.std.specs.Prelude.{◌≡◌, [], None, false, cond, IfOk, OnOk, OnErr};
ghost use Rattle.std.specs.Option.{option_map, option_map_or};
ghost use Rattle.dist_types.specs.Listing.{same};
ghost use Rattle.link_frames.specs.declared.part.Message2.TheVariants as frames;
ghost use Rattle.link_frames.specs.Parts.{is_next, begun_after};
ghost use Rattle.link_frames.specs.Undoing.{undone};

use crate::begun::Begun;
use crate::message::Rows;
use crate::part::PartKind;
use dist_types::{OutOfMemory, Row, Scope};
use std::marker::Model;
use std::mem;

/// What takes the latest part back.
#[derive(Debug, Drop)]
pub enum Undo {
    /// It began a message: what was kept before it.
    Before(Option<Begun>),
    /// It went on with one: the number of the part before it, and how many rows were kept.
    Behind { number: u32, rows: usize },
}

/// What is kept of the message that a link is in the middle of, if it is.
#[derive(Debug, Drop)]
pub struct Parts {
    begun: Option<Begun>,
}

impl Model for Parts {
    ghost use Rattle.std.specs.Prelude.{Option};
    ghost use Rattle.link_frames.specs.Parts.{Begun};

    ghost Value = { Option Begun };

    ghost view = { λ parts. parts.begun };
}

impl Parts {
    /// Nothing is kept.
    pub fn new() -> Parts
        ensures { result ≡ None }
    {
        Parts { begun: None }
    }

    /// Whether a part may come: it is a first one, or it follows those that are kept.
    pub fn is_next(&self, kind: PartKind, scope: &Scope, number: u32) -> bool
        ensures { result ≡ is_next self.now kind scope.now number }
    {
        number == 1
            || self
                .begun
                .as_ref()
                .is_some_and(|begun| begun.follows(kind, scope, number))
    }

    /// Keeps a part. The rows of one that follows go behind those that are kept. Any other begins
    /// anew, and takes no memory.
    pub fn gather(
        &mut self,
        kind: PartKind,
        scope: Scope,
        number: u32,
        rows: Rows,
    ) -> Result<Undo, OutOfMemory>
        ensures ok { OnOk result (self.new
            ≡ begun_after self.old (frames.Part kind scope number false rows)) }
        ensures undo { IfOk result (λ undo. undone undo self.new ≡ self.old) }
        ensures same { OnErr result (self.new ≡ self.old) }
    {
        if number != 1
            && let Some(begun) = &mut self.begun
            && begun.follows(kind, &scope, number)
        {
            return begun.append(number, rows);
        }
        let begun = Begun::new(kind, scope, number, rows);
        Ok(Undo::Before(mem::replace(&mut self.begun, Some(begun))))
    }

    /// Takes a part back: behind `gather` all is as it was before it.
    pub fn undo(&mut self, undo: Undo)
        ensures { self.new ≡ undone undo self.old }
    {
        match undo {
            Undo::Before(begun) => self.begun = begun,
            Undo::Behind { number, rows } => {
                if let Some(begun) = &mut self.begun {
                    begun.cut(number, rows);
                }
            }
        }
    }

    /// What is kept.
    pub fn begun(&self) -> Option<&Begun>
        ensures { option_map (λ b. b.now) result ≡ self.now }
    {
        self.begun.as_ref()
    }

    /// The rows that are kept.
    pub fn rows(&self) -> &[Row]
        ensures { result.now ≡ option_map_or (λ b. b.rows) self.now [] }
    {
        match &self.begun {
            Some(begun) => begun.rows(),
            None => &[],
        }
    }

    /// Hands out what is kept, so nothing is kept then. It takes no memory.
    pub fn take(&mut self) -> Option<Begun>
        ensures given { result ≡ self.old }
        ensures none { self.new ≡ None }
    {
        self.begun.take()
    }

    /// Lets go of what is kept.
    pub fn clear(&mut self)
        ensures { self.new ≡ None }
    {
        self.begun = None;
    }

    /// Lets go of what is kept, if it is of that scope.
    pub fn break_off(&mut self, scope: &Scope)
        ensures { self.new ≡ cond (option_map_or (λ b. same b.scope scope.now) self.old false) None
            self.old }
    {
        if let Some(begun) = &self.begun
            && begun.scope() == scope
        {
            self.clear();
        }
    }
}
