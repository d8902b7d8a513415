//! A node as the lines of a script see it.
ghost use Rattle.std.specs.Prelude.{◌≡◌, ◌++◌, ◌+◌, ℕ, Bool, true, false, IfOk, IfErr, IfSome, OnOk};
ghost use Rattle.policy_audit.specs.History.{audited};
ghost use Rattle.std.specs.Option.{IfNone};
ghost use Rattle.policy_audit.specs.Pages.{IsPageBehind, page_size};
ghost use Rattle.pg_script.specs.Playing.{opened_with, forgotten_to, MayOpen};
ghost use Rattle.pg_script.specs.Transcript.{answer_to, left_by, line_text, line_left, is_fault};
ghost use Rattle.pg_text.specs.declared.command.LineFault.TheVariants as faults;
ghost use Rattle.node_core.specs.Step.{IsOpenFault};

use dist_types::OutOfMemory;
use node_core::{NodeCore, OpenFault};
use pg_text::{
    Command, LineFault, is_quiet, parse, put_found, put_numbered_line, put_step, put_word,
};
use policy_audit::{Event, Opening, PAGE_SIZE, Page};
use std::alloc::Global;
use std::marker::Model;

/// The node that a script is played on, and the seat that asks.
pub struct Console {
    core: NodeCore,
    seat: u32,
}

impl Model for Console {
    ghost use Rattle.pg_script.specs.Playing.{Playing};

    ghost Value = { Playing };

    ghost view = { λ console. record {
      history = console.core.history;
      seat = console.seat;
      forgotten = console.core.forgotten;
    } };
}

impl Console {
    /// A console over a node that has seen nothing, asked by seat 0.
    pub fn open(alloc: Global, opening: Opening) -> Result<Console, OpenFault>
        ensures ok { IfOk result (λ console. console ≡ opened_with opening) }
        ensures good { OnOk result (MayOpen opening) }
        ensures refused { IfErr result (λ fault. IsOpenFault fault opening) }
    {
        let core = NodeCore::new(alloc, opening)?;
        Ok(Console { core, seat: 0 })
    }

    /// Adds the answer to a line. After a fault nothing more is asked.
    pub fn answer(&mut self, alloc: Global, line: &[u8], out: &mut Vec<u8>) -> Result<(), LineFault>
        ensures ok { OnOk result ((lacks : Bool) × (is_fault line.now ≡ false)
            × (out.new.items ≡ out.old.items ++ line_text lacks self.old line.now)
            × (self.new ≡ line_left lacks self.old line.now)) }
        ensures fault { IfErr result (λ fault. fault ≡ faults.Script → is_fault line.now ≡ true) }
    {
        if is_quiet(line) {
            return Ok(());
        }
        let command = parse(alloc, line)?;
        self.follow(alloc, command, out)?;
        Ok(())
    }

    /// Adds the answer to a command. Without memory for the answer the console is not used again.
    fn follow(
        &mut self,
        alloc: Global,
        command: Command,
        out: &mut Vec<u8>,
    ) -> Result<(), OutOfMemory>
        ensures { OnOk result ((lacks : Bool)
            × (out.new.items ≡ out.old.items ++ answer_to lacks self.old command)
            × (self.new ≡ left_by lacks self.old command)) }
    {
        match command {
            Command::Step(event) => self.step(alloc, event, out),
            Command::Seat(seat) => {
                self.seat = seat;
                put_word("ok\n", out)
            }
            Command::Size => put_numbered_line("size ", self.core.audit().len() as u64, out),
            Command::Audit(number) => put_found(self.core.audit(), number, out),
        }
    }

    /// Adds the answer to an event.
    fn step(&mut self, alloc: Global, event: Event, out: &mut Vec<u8>) -> Result<(), OutOfMemory>
        ensures { OnOk result ((lacks : Bool)
            × (out.new.items ≡ out.old.items ++ answer_to lacks self.old (Command.Step event))
            × (self.new ≡ left_by lacks self.old (Command.Step event))) }
    {
        let stepped = self.core.step(self.seat, event);
        let added = put_step(alloc, &stepped, out);
        drop(stepped);
        added
    }

    /// Hands out the oldest page of entries, where `keep` newer ones stay, and no monitor has still
    /// to be told of one in it. That is tried twice for each page of new ones, so that many are
    /// gone soon once no monitor waits for them.
    pub fn forget(&mut self, keep: u32) -> Option<Page>
        ensures left { (handed : ℕ) × (self.new ≡ forgotten_to keep handed self.old) }
        ensures page { IfSome result (λ page.
            IsPageBehind self.old.forgotten (audited self.old.history.entries) page
            × (self.new.forgotten ≡ self.old.forgotten + page_size)) }
        ensures none { IfNone result (self.new ≡ self.old) }
    {
        let audit = self.core.audit();
        let handed = audit.forgotten() as usize + PAGE_SIZE;
        if audit.len() % (PAGE_SIZE / 2) != 0 || audit.len() < handed + keep as usize {
            return None;
        }
        self.core.forget()
    }

    /// The node, to read from.
    pub fn core(&self) -> &NodeCore
        ensures history { result.now.history ≡ self.now.history }
        ensures forgotten { result.now.forgotten ≡ self.now.forgotten }
    {
        &self.core
    }
}

/// Lets go of the node in one call, so that the proof of a caller has one step for it.
impl Drop for Console {
    fn drop(self) {
        let Console { core: _, seat: _ } = self;
    }
}
