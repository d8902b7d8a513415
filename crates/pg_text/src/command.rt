//! Commands, and how a line says one.
ghost use Rattle.std.specs.Prelude.{◌≡◌, IfOk, IfErr, OnOk, OnErr, Some, true, false};
ghost use Rattle.dist_types.specs.Difference.{is_empty};
ghost use Rattle.pg_text.specs.Commands.{said_by};
ghost use Rattle.pg_text.specs.declared.command.LineFault.TheVariants as faults;
ghost use Rattle.pg_text.specs.Faults.{IsUnread, fault_of};
ghost use Rattle.pg_text.specs.WordsLeft.{words_left};

use crate::node_commands::node_command;
use crate::words::{first_word, next_word};
use dist_types::{OutOfMemory, TextFault};
use policy_audit::Event;
use std::alloc::{AllocError, AllocFailed, Global};

/// What a line may ask for.
#[derive(Drop)]
pub enum Command {
    /// An event, by the present seat.
    Step(Event),
    /// The seat of the lines that follow.
    Seat(u32),
    /// How many entries there are.
    Size,
    /// The entry of that number.
    Audit(u32),
}

/// Why a line has no answer.
#[derive(Clone, Copy, Debug, PartialEq, Eq)]
pub enum LineFault {
    /// The line can't be read.
    Script,
    Memory,
}

impl From<OutOfMemory> for LineFault {
    ghost use Rattle.pg_text.specs.declared.command.LineFault.TheVariants as faults;

    ghost from_gives = { λ _ fault. fault ≡ faults.Memory };

    fn from(_error: OutOfMemory) -> LineFault {
        LineFault::Memory
    }
}

impl From<AllocError> for LineFault {
    ghost use Rattle.pg_text.specs.declared.command.LineFault.TheVariants as faults;

    ghost from_gives = { λ _ fault. fault ≡ faults.Memory };

    fn from(_error: AllocError) -> LineFault {
        LineFault::Memory
    }
}

impl<T: Drop> From<AllocFailed<T>> for LineFault {
    ghost use Rattle.pg_text.specs.declared.command.LineFault.TheVariants as faults;

    ghost from_gives = { λ _ fault. fault ≡ faults.Memory };

    fn from(_error: AllocFailed<T>) -> LineFault {
        LineFault::Memory
    }
}

impl From<TextFault> for LineFault {
    ghost use Rattle.pg_text.specs.Faults.{fault_of};

    ghost from_gives = { λ text fault. fault ≡ fault_of text };

    fn from(error: TextFault) -> LineFault {
        match error {
            TextFault::OutOfMemory => LineFault::Memory,
            _ => LineFault::Script,
        }
    }
}

/// What a line that is not quiet says.
pub fn parse(alloc: Global, line: &[u8]) -> Result<Command, LineFault>
    ensures ok { IfOk result (λ command. said_by line.now ≡ Some command) }
    ensures fault { IfErr result (λ fault. IsUnread fault (said_by line.now)) }
{
    let (name, words) = first_word(line);
    node_command(alloc, name, words)
}

/// That no word stands behind a command.
pub fn nothing(words: Option<&[u8]>) -> Result<(), LineFault>
    ensures ok { OnOk result (is_empty (words_left words.entry) ≡ true) }
    ensures script { IfErr result (λ fault. fault ≡ faults.Script) }
    ensures some { OnErr result (is_empty (words_left words.entry) ≡ false) }
{
    match next_word(words) {
        Some(_) => Err(LineFault::Script),
        None => Ok(()),
    }
}
