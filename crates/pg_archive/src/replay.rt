//! A life of a node, played again.
ghost use Rattle.std.specs.Prelude.{◌≡◌, ◌↔◌, ◌+◌, [], Some, IfOk, IfErr, IsTrue, OnOk};
ghost use Rattle.policy_audit.specs.History.{past, entered};
ghost use Rattle.node_core.specs.Step.{IsOpenFault};
ghost use Rattle.pg_archive.specs.Entries.{opened, entry_text};
ghost use Rattle.pg_archive.specs.Following.{line_at, Steps, IsJudgedSo, IsFault, Differs};

use crate::life::Life;
use crate::lines::{add_entry, add_judged};
use dist_types::{Cookie, OutOfMemory};
use node_core::{CoreFault, NodeCore, OpenFault};
use policy_audit::{Entry, Event, PAGE_SIZE};
use std::alloc::Global;
use std::marker::Model;
use thiserror::Error as ErrorDerive;

/// Why a line isn't that of the entry which its event makes.
#[derive(Clone, Copy, Debug, PartialEq, Eq, ErrorDerive)]
pub enum ReplayFault {
    /// The number isn't the next one of the life. Nothing was played.
    #[error("entry {0} doesn't follow the one before it")]
    Order(u32),
    /// The event is judged otherwise.
    #[error("entry {0}: the verdict isn't that of the policy")]
    Verdict(u32),
    /// The event changes other rows.
    #[error("entry {0}: the change isn't that of the policy")]
    Change(u32),
    #[error("out of memory")]
    Memory,
}

impl From<OutOfMemory> for ReplayFault {
    ghost use Rattle.std.specs.Prelude.{◌≡◌};
    ghost use Rattle.pg_archive.specs.declared.replay.ReplayFault.TheVariants as faults;

    ghost from_gives = { λ _ fault. fault ≡ faults.Memory };

    fn from(_fault: OutOfMemory) -> ReplayFault {
        ReplayFault::Memory
    }
}

/// A node that is played as the lines of an archive tell. It keeps few entries.
pub struct Replay {
    alloc: Global,
    core: NodeCore,
    /// The line of an entry, used again for each.
    spelled: Vec<u8>,
}

impl Drop for Replay {
    fn drop(self) {
        let Replay {
            alloc: _,
            core: _,
            spelled: _,
        } = self;
    }
}

impl Model for Replay {
    ghost use Rattle.node_core.specs.Recorded.{Recorded};

    ghost Value = { Recorded };

    ghost view = { λ replay. replay.core };
}

impl Replay {
    /// A node that has seen nothing, opened as the life says, with this cookie.
    pub fn open(alloc: Global, life: Life, cookie: Cookie) -> Result<Replay, OpenFault>
        ensures ok { IfOk result (λ replay. replay.history ≡ past (opened life cookie) []) }
        ensures refused { IfErr result (λ fault. IsOpenFault fault (opened life cookie)) }
    {
        let core = NodeCore::new(alloc, life.opening(cookie))?;
        Ok(Replay {
            alloc,
            core,
            spelled: Vec::new(alloc),
        })
    }

    /// Plays the event of the entry of this number, and compares the whole line, without its line
    /// feed, with that of the entry which it makes: the verdict and the change too. After a fault
    /// nothing more is to be played.
    pub fn follow(
        &mut self,
        number: u32,
        seat: u32,
        event: Event,
        line: &[u8],
    ) -> Result<(), ReplayFault>
        ensures next { OnOk result (number ≡ entered self.old.history.entries + 1) }
        ensures ok { OnOk result (line_at number self.new.history ≡ Some line.now) }
        ensures stepped { OnOk result (Steps self.old.history seat event self.new.history) }
        ensures fault { IfErr result (λ fault.
            IsFault fault number seat event line.now self.old.history self.new.history) }
    {
        if self.core.audit().len() as u64 + 1 != u64::from(number) {
            drop(event);
            return Err(ReplayFault::Order(number));
        }
        self.play(seat, event)?;
        let Some(entry) = self.core.audit().get(number) else {
            return Err(ReplayFault::Verdict(number));
        };
        let compared = compare(self.alloc, number, entry, line, &mut self.spelled);
        self.forget(number);
        compared
    }

    /// Plays an event, whatever it is answered.
    #[tactic(auto, using(crate::proofs::Played::accepted, crate::proofs::Played::refused))]
    fn play(&mut self, seat: u32, event: Event) -> Result<(), OutOfMemory>
        ensures stepped { OnOk result (Steps self.old.history seat event self.new.history) }
        ensures forgotten { self.new.forgotten ≡ self.old.forgotten }
    {
        match self.core.step(seat, event) {
            Ok(_) | Err(CoreFault::Refused(_)) => Ok(()),
            Err(CoreFault::OutOfMemory) => Err(OutOfMemory),
        }
    }

    /// Lets the oldest page of entries go, twice for each page of new ones.
    fn forget(&mut self, number: u32)
        ensures { self.new.history ≡ self.old.history }
    {
        if number as usize % (PAGE_SIZE / 2) == 0 {
            drop(self.core.forget());
        }
    }
}

/// Compares a line with that of an entry, the one of this number.
fn compare(
    alloc: Global,
    number: u32,
    entry: &Entry,
    line: &[u8],
    text: &mut Vec<u8>,
) -> Result<(), ReplayFault>
    ensures ok { OnOk result (line.now ≡ entry_text entry.now) }
    ensures fault { IfErr result (λ fault. Differs fault number (Some entry.now) line.now) }
{
    if is_line_of(alloc, entry, line, text)? {
        return Ok(());
    }
    if is_judged_so(alloc, entry, line, text)? {
        Err(ReplayFault::Change(number))
    } else {
        Err(ReplayFault::Verdict(number))
    }
}

/// Whether a line is that of an entry.
#[tactic(auto, using(crate::proofs::Compared::same_bytes, crate::proofs::Compared::bytes_same))]
fn is_line_of(
    alloc: Global,
    entry: &Entry,
    line: &[u8],
    text: &mut Vec<u8>,
) -> Result<bool, OutOfMemory>
    ensures { IfOk result (λ same. IsTrue same ↔ (line.now ≡ entry_text entry.now)) }
{
    text.clear();
    add_entry(alloc, entry, text)?;
    Ok(line == text.as_slice())
}

/// Whether a line begins as that of an entry, up to what it changed.
#[tactic(auto, using(crate::proofs::Compared::begins, crate::proofs::Compared::begun))]
fn is_judged_so(
    alloc: Global,
    entry: &Entry,
    line: &[u8],
    text: &mut Vec<u8>,
) -> Result<bool, OutOfMemory>
    ensures { IfOk result (λ so. IsTrue so ↔ IsJudgedSo entry.now line.now) }
{
    text.clear();
    add_judged(alloc, entry, text)?;
    Ok(line.starts_with(text.as_slice()))
}
