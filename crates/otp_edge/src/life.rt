//! What the edges of all links share for the life of a node.
ghost use Rattle.std.specs.Prelude.{◌≡◌, ◌≤◌, ◌<◌, ◌^◌, ◌+◌, ◌-◌, [], vec_len, true, false};
ghost use Rattle.std.specs.Prelude.{cond, min, IfOk, IfSome, IsNone, OnErr};
ghost use Rattle.otp_edge.specs.Grouped.{IsOneTooMany, Keeps, MayBeTold};

use crate::group::begins_marked;
use dist_types::{Group, OutOfMemory, TryClone};
use std::alloc::Global;

/// The most texts of groups that are told as atoms. An atom stays in the other node for good.
pub const MAX_ATOMS: usize = 65_536;

/// The number of the first process of a scope: above all that a node gives out.
const FIRST_PROCESS: u64 = 0x8000_0000_0000_0000;

/// What the edges of all links share for the life of a node: the texts of groups that were told as
/// atoms, and the numbers of processes of scopes.
#[derive(Debug, Drop)]
pub struct Life {
    /// The texts, in order.
    pub atoms: Vec<Group>,
    /// How many processes of scopes there were.
    pub processes: u64,
    /// How often a group wasn't told, since there were too many atoms.
    pub refused: u64,
    ghost few: { vec_len atoms ≤ 65536 },
    ghost numbered: { processes < 2 ^ 63 },
}

impl Life {
    /// Nothing was told yet.
    pub fn new(alloc: Global) -> Life
        ensures atoms { result.atoms.items ≡ [] }
        ensures processes { result.processes ≡ 0 }
        ensures refused { result.refused ≡ 0 }
    {
        Life {
            atoms: Vec::new(alloc),
            processes: 0,
            refused: 0,
        }
    }

    /// How often the rows of a group weren't told, since there were too many atoms.
    pub fn refused(&self) -> u64
        ensures { result ≡ self.now.refused }
    {
        self.refused
    }

    /// A number for a process of a scope: from 2^63 on, and none twice. None once there are no
    /// more.
    pub fn number(&mut self) -> Option<u64>
        ensures new { IfSome result (λ number. number ≡ 2 ^ 63 + self.old.processes) }
        ensures next { IfSome result (λ _. self.new.processes ≡ self.old.processes + 1) }
        ensures none { IsNone result → self.new.processes ≡ self.old.processes }
        ensures spent { IsNone result → 2 ^ 63 ≤ self.old.processes + 1 }
        ensures atoms { self.new.atoms ≡ self.old.atoms }
        ensures refused { self.new.refused ≡ self.old.refused }
    {
        if self.processes >= FIRST_PROCESS - 1 {
            return None;
        }
        let number = FIRST_PROCESS + self.processes;
        self.processes += 1;
        Some(number)
    }

    /// Whether rows of this group may be told: then its text is kept, if it is told as an atom.
    pub fn admit(&mut self, alloc: Global, group: &Group) -> Result<bool, OutOfMemory>
        ensures admitted { IfOk result (λ may. may ≡ true →
            MayBeTold self.new.atoms.items group.now) }
        ensures refused { IfOk result (λ may. may ≡ false →
            IsOneTooMany self.new.atoms.items group.now) }
        ensures keeps { Keeps self.old.atoms.items self.new.atoms.items }
        ensures counts { IfOk result (λ may. self.new.refused
            ≡ cond may self.old.refused (min (self.old.refused + 1) (2 ^ 64 - 1))) }
        ensures uncounted { OnErr result (self.new.refused ≡ self.old.refused) }
        ensures processes { self.new.processes ≡ self.old.processes }
    {
        if begins_marked(group.as_bytes()) {
            return Ok(true);
        }
        let Err(place) = self.atoms.binary_search(group) else {
            return Ok(true);
        };
        if self.atoms.len() >= MAX_ATOMS {
            self.refused = self.refused.saturating_add(1);
            return Ok(false);
        }
        self.atoms.insert(place, group.try_clone(alloc)?)?;
        Ok(true)
    }
}
