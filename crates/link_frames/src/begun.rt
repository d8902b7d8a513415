//! What is kept of a message of which parts have come, and not the last.
ghost use Rattle.std.specs.Prelude.{◌≡◌, Some, IfOk, OnOk, OnErr};
ghost use Rattle.link_frames.specs.Parts.{follows};
ghost use Rattle.link_frames.specs.Undoing.{with_part, undone, undone_of};

use crate::message::Rows;
use crate::part::PartKind;
use crate::parts::Undo;
use dist_types::{OutOfMemory, Row, Scope};
use std::marker::Model;

/// What is kept of a message of which parts have come: the number of the latest, and the rows of
/// all.
#[derive(Debug, Drop)]
pub struct Begun {
    kind: PartKind,
    scope: Scope,
    number: u32,
    rows: Vec<Row>,
}

impl Model for Begun {
    ghost use Rattle.link_frames.specs.Parts.{Begun};

    ghost Value = { Begun };

    ghost view = { λ begun. record {
      kind = begun.kind;
      scope = begun.scope;
      number = begun.number;
      rows = begun.rows.items;
    } };
}

impl Begun {
    /// A message of which this part has come. It takes no memory.
    pub(crate) fn new(kind: PartKind, scope: Scope, number: u32, rows: Rows) -> Begun
        ensures { result ≡ record { kind = kind; scope = scope; number = number; rows = rows } }
    {
        Begun {
            kind,
            scope,
            number,
            rows: rows.into_vec(),
        }
    }

    pub fn kind(&self) -> PartKind
        ensures { result ≡ self.now.kind }
    {
        self.kind
    }

    pub fn scope(&self) -> &Scope
        ensures { result.now ≡ self.now.scope }
    {
        &self.scope
    }

    /// The number of the latest part.
    pub fn number(&self) -> u32
        ensures { result ≡ self.now.number }
    {
        self.number
    }

    /// The rows of all parts, in the order in which they came.
    pub fn rows(&self) -> &[Row]
        ensures { result.now ≡ self.now.rows }
    {
        &self.rows
    }

    /// Hands the rows out. It takes no memory.
    pub fn into_rows(self) -> Rows
        ensures { result ≡ self.rows }
    {
        let Begun {
            kind: _,
            scope: _,
            number: _,
            rows,
        } = self;
        Rows::of(rows)
    }

    /// Whether a part is the one behind those that have come.
    pub fn follows(&self, kind: PartKind, scope: &Scope, number: u32) -> bool
        ensures { result ≡ follows kind scope.now number self.now }
    {
        self.kind == kind && self.scope == *scope && self.number.checked_add(1) == Some(number)
    }

    /// Takes the rows of the next part.
    pub(crate) fn append(&mut self, number: u32, rows: Rows) -> Result<Undo, OutOfMemory>
        ensures ok { OnOk result (self.new ≡ with_part number rows self.old) }
        ensures undo { IfOk result (λ undo. undone undo (Some self.new) ≡ Some self.old) }
        ensures same { OnErr result (self.new ≡ self.old) }
    {
        let undo = Undo::Behind {
            number: self.number,
            rows: self.rows.len(),
        };
        self.rows.append(&mut rows.into_vec())?;
        self.number = number;
        Ok(undo)
    }

    /// Lets go of all rows but that many, the latest part having that number.
    pub(crate) fn cut(&mut self, number: u32, rows: usize)
        ensures { self.new ≡ undone_of number rows self.old }
    {
        self.number = number;
        self.rows.truncate(rows);
    }
}
