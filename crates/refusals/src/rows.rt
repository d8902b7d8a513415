//! Lines that are read and printed.
use dist_types::OutOfMemory;
use pg_text::{Command, LineFault, kind, parse, put_number, put_word};
use policy_audit::{Event, Reply, Verdict};
use std::alloc::Global;
use std::fmt::Display;
use std::io::Write;

/// What a line asks for. A line that says nothing asks for the size.
pub fn command_of(alloc: Global, line: &[u8]) -> Result<Command, OutOfMemory> {
    match parse(alloc, line) {
        Ok(command) => Ok(command),
        Err(LineFault::Memory) => Err(OutOfMemory),
        Err(LineFault::Script) => Ok(Command::Size),
    }
}

/// The event of a line; one that says none spawns a process.
pub fn step_of(alloc: Global, line: &[u8]) -> Result<Event, OutOfMemory> {
    match command_of(alloc, line)? {
        Command::Step(event) => Ok(event),
        _ => Ok(Event::Spawn),
    }
}

/// Adds a fault as a line.
pub fn put_fault<T: Display>(fault: &T, out: &mut Vec<u8>) -> Result<(), OutOfMemory> {
    match writeln!(out, "{fault}") {
        Ok(()) => Ok(()),
        Err(_) => Err(OutOfMemory),
    }
}

/// Adds an event by its kind, with the body of a frame, and how it was judged.
pub fn put_judged(event: &Event, verdict: &Verdict, out: &mut Vec<u8>) -> Result<(), OutOfMemory> {
    put_word(kind(event), out)?;
    put_word(" ", out)?;
    if let Event::Frame(_, body) = event {
        put_hex(body.as_slice(), out)?;
        put_word(" ", out)?;
    }
    match verdict {
        Verdict::Accepted(Reply::Up { .. }) => put_word("up", out),
        Verdict::Accepted(_) => put_word("ok", out),
        Verdict::Refused(rule) => put_number("refused ", u64::from(rule.number()), out),
    }
}

const DIGITS: [u8; 16] = *b"0123456789abcdef";

/// Adds bytes in hexadecimal. It takes no memory but that of what is added.
pub fn put_hex(bytes: &[u8], out: &mut Vec<u8>) -> Result<(), OutOfMemory> {
    for byte in bytes {
        out.push(DIGITS[usize::from(byte >> 4)])?;
        out.push(DIGITS[usize::from(byte & 15)])?;
    }
    Ok(())
}
