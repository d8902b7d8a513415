//! The run of a whole script.
ghost use Rattle.std.specs.Prelude.{◌≡◌, ◌≢◌, ◌⊎◌, ◌<◌, ◌≤◌, ◌↔◌, ℕ, Bool, true, false, OnOk, OnErr, IfOk, IfErr, Some, IfSome, Err, length, take};
ghost use Rattle.std.specs.Io.KnownBytes.{Appends, Keeps, IsAtEnd};
ghost use Rattle.std.specs.Io.BufRead.{take_through, drop_through, strip_last};
ghost use Rattle.std.specs.IoError.{error_kind};
ghost use Rattle.std.specs.declared.io.ErrorKind.TheVariants as kinds;
ghost use Rattle.pg_text.specs.Answers.{fault_line};
ghost use Rattle.pg_script.specs.Playing.{opened_with, MayOpen, IsBadOpening};
ghost use Rattle.pg_script.specs.Runs.{RunsAs};
ghost use Rattle.pg_script.specs.Transcript.{is_fault, line_text, line_left, owed_line};
ghost use Rattle.policy_audit.specs.declared.opening.Opening.{Opening};
ghost use Rattle.pg_script.specs.declared.script.RunFault.TheVariants as faults;

use crate::console::Console;
use node_core::OpenFault;
use pg_text::{LineFault, put_numbered_line, without_feed};
use policy_audit::Opening;
use std::alloc::Global;
use std::io::{BufRead, Error, ErrorKind, Write};
use thiserror::Error as ErrorDerive;

/// Why a run did not end with the script.
#[derive(Clone, Copy, Debug, PartialEq, Eq, ErrorDerive)]
pub enum RunFault {
    #[error("a number of the opening is outside its limits")]
    BadOpening,
    #[error("line {0} of the script can't be read")]
    Script(u64),
    #[error("standard input can't be read")]
    Read,
    #[error("standard output can't be written")]
    Write,
    #[error("out of memory")]
    Memory,
}

/// The most lines that are read, and the most writes of one answer.
pub const TURNS: u64 = 1 << 32;

/// Plays a script on a new node: one answer line for each command, up to the first line that can't
/// be read. Each answer is written and flushed before the next line is read.
pub fn run<A: AllocGlobal, R: BufRead, W: Write>(
    rt: &A,
    opening: Opening,
    reader: &mut R,
    writer: &mut W,
) -> Result<(), RunFault>
    ensures bad { (result ≡ Err faults.BadOpening) ↔ IsBadOpening opening }
    ensures untouched { result ≡ Err faults.BadOpening → (reader.new ≡ reader.old)
        × (writer.new ≡ writer.old) }
    ensures text { MayOpen opening → IfSome (R.remaining reader.old) (λ script.
        RunsAs opening script (W.contents writer.old) (W.contents writer.new) result) }
{
    let mut line = Vec::new(rt.alloc());
    play(rt.alloc(), opening, reader, &mut line, writer)
}

/// The same, and leaves in `line` the line that was read last: at a fault of the script, the line
/// that can't be read.
pub fn play<R: BufRead, W: Write>(
    alloc: Global,
    opening: Opening,
    reader: &mut R,
    line: &mut Vec<u8>,
    writer: &mut W,
) -> Result<(), RunFault>
    ensures bad { (result ≡ Err faults.BadOpening) ↔ IsBadOpening opening }
    ensures untouched { result ≡ Err faults.BadOpening → (reader.new ≡ reader.old)
        × (writer.new ≡ writer.old) }
    ensures text { MayOpen opening → IfSome (R.remaining reader.old) (λ script.
        RunsAs opening script (W.contents writer.old) (W.contents writer.new) result) }
    ensures last { (k : ℕ) → result ≡ Err (faults.Script k)
        → is_fault (strip_last 10 line.new.items) ≡ true }
{
    match Console::open(alloc, opening) {
        Ok(mut console) => play_lines(alloc, &mut console, reader, line, writer),
        Err(OpenFault::BadLimit | OpenFault::BadLinks) => Err(RunFault::BadOpening),
        Err(OpenFault::OutOfMemory) => Err(RunFault::Memory),
    }
}

/// Plays the lines of a script, up to the first that can't be read.
fn play_lines<R: BufRead, W: Write>(
    alloc: Global,
    console: &mut Console,
    reader: &mut R,
    line: &mut Vec<u8>,
    writer: &mut W,
) -> Result<(), RunFault>
    ensures good { IfErr result (λ fault. fault ≢ faults.BadOpening) }
    ensures text { (o : Opening) → console.old ≡ opened_with o
        → IfSome (R.remaining reader.old) (λ script.
        RunsAs o script (W.contents writer.old) (W.contents writer.new) result) }
    ensures last { (k : ℕ) → result ≡ Err (faults.Script k)
        → is_fault (strip_last 10 line.new.items) ≡ true }
{
    let mut out = Vec::new(alloc);
    for turn in 0..TURNS {
        if !read_line(line, reader)? {
            return Ok(());
        }
        let said = without_feed(line.as_slice());
        answer_line(alloc, turn + 1, said, console, &mut out, writer)?;
    }
    Err(RunFault::Read)
}

/// Reads the next line, with its line feed, over the last. At the end of the script there is none.
pub fn read_line<R: BufRead>(line: &mut Vec<u8>, reader: &mut R) -> Result<bool, RunFault>
    ensures read { OnOk result (IfSome (R.remaining reader.old) (λ rest.
        (line.new.items ≡ take_through 10 rest)
        × (R.remaining reader.new ≡ Some (drop_through 10 rest)))) }
    ensures found { IfOk result (λ found. found ≡ true → 0 < length line.new.items) }
    ensures ended { IfOk result (λ found. found ≡ false → IsAtEnd (R.remaining reader.old)) }
    ensures fault { IfErr result (λ fault. (fault ≡ faults.Read) ⊎ (fault ≡ faults.Memory)) }
{
    line.clear();
    match reader.read_until(b'\n', line) {
        Ok(count) => Ok(count > 0),
        Err(error) => Err(read_fault(error)),
    }
}

/// Writes the answer to the line of this number, or that it can't be read.
pub(crate) fn answer_line<W: Write>(
    alloc: Global,
    number: u64,
    line: &[u8],
    console: &mut Console,
    out: &mut Vec<u8>,
    writer: &mut W,
) -> Result<(), RunFault>
    ensures ok { OnOk result ((lacks : Bool) × (is_fault line.now ≡ false)
        × Appends (W.contents writer.old) (W.contents writer.new)
        (line_text lacks console.old line.now)
        × (console.new ≡ line_left lacks console.old line.now)) }
    ensures fault { IfErr result (λ fault. (fault ≡ faults.Script number) ⊎ (fault ≡ faults.Memory)
        ⊎ (fault ≡ faults.Write)) }
    ensures told { result ≡ Err (faults.Script number) → (is_fault line.now ≡ true)
        × Appends (W.contents writer.old) (W.contents writer.new) (fault_line number) }
    ensures untold { result ≡ Err faults.Memory → writer.new ≡ writer.old }
    ensures begun { result ≡ Err faults.Write → (lacks : Bool) × (n : ℕ)
        × Appends (W.contents writer.old) (W.contents writer.new)
        (take n (owed_line lacks console.old number line.now)) }
{
    out.clear();
    match console.answer(alloc, line, out) {
        Ok(()) => send(out.as_slice(), writer),
        Err(LineFault::Memory) => Err(RunFault::Memory),
        Err(LineFault::Script) => Err(tell_fault(number, out, writer)),
    }
}

/// Writes the last line of a script that can't be read further, and says what the run ends with.
pub fn tell_fault<W: Write>(line: u64, out: &mut Vec<u8>, writer: &mut W) -> RunFault
    ensures ended { (result ≡ faults.Script line) ⊎ (result ≡ faults.Memory)
        ⊎ (result ≡ faults.Write) }
    ensures told { result ≡ faults.Script line
        → Appends (W.contents writer.old) (W.contents writer.new) (fault_line line) }
    ensures untold { result ≡ faults.Memory → writer.new ≡ writer.old }
    ensures begun { result ≡ faults.Write → (n : ℕ)
        × Appends (W.contents writer.old) (W.contents writer.new) (take n (fault_line line)) }
{
    out.clear();
    if put_numbered_line("fault line ", line, out).is_err() {
        return RunFault::Memory;
    }
    match send(out.as_slice(), writer) {
        Ok(()) => RunFault::Script(line),
        Err(fault) => fault,
    }
}

/// What a reader's error ends a run with.
fn read_fault(error: Error) -> RunFault
    ensures ended { (result ≡ faults.Read) ⊎ (result ≡ faults.Memory) }
    ensures memory { (result ≡ faults.Memory) ↔ (error_kind error ≡ kinds.OutOfMemory) }
{
    if error.kind() == ErrorKind::OutOfMemory {
        RunFault::Memory
    } else {
        RunFault::Read
    }
}

/// Writes all bytes, and sees that they go out. After a fault a beginning of them was written.
pub fn send<W: Write>(bytes: &[u8], writer: &mut W) -> Result<(), RunFault>
    ensures ok { OnOk result (Appends (W.contents writer.old) (W.contents writer.new) bytes.now) }
    ensures err { IfErr result (λ fault. fault ≡ faults.Write) }
    ensures begun { OnErr result ((n : ℕ) × Appends (W.contents writer.old) (W.contents writer.new)
        (take n bytes.now)) }
{
    let mut sent = 0;
    for _ in 0..TURNS {
        if sent == bytes.len() {
            return writer.flush().map_err(|_| RunFault::Write);
        }
        sent += write_some(&bytes[sent..], writer)?;
    }
    Err(RunFault::Write)
}

/// Writes some of these bytes, and says how many: none where the write was interrupted.
fn write_some<W: Write>(rest: &[u8], writer: &mut W) -> Result<usize, RunFault>
    ensures within { IfOk result (λ count. count ≤ length rest.now) }
    ensures ok { IfOk result (λ count. Appends (W.contents writer.old) (W.contents writer.new)
        (take count rest.now)) }
    ensures err { IfErr result (λ fault. fault ≡ faults.Write) }
    ensures none { OnErr result (Keeps (W.contents writer.old) (W.contents writer.new)) }
{
    match writer.write(rest) {
        Ok(0) => Err(RunFault::Write),
        Ok(count) => Ok(count),
        Err(error) if error.kind() == ErrorKind::Interrupted => Ok(0),
        Err(_) => Err(RunFault::Write),
    }
}
