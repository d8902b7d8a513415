//! The command line of a program: its words, what they say, and how a program ends that can't
//! begin.
#![tactic(auto)]

mod standard;

use clap::error::{Error as LineError, ErrorKind as LineFault};
use clap::{ArgMatches, Command};
pub use standard::held_streams;
use std::alloc::{AllocError, Global};
use std::env::Env;
use std::fmt::Display;
use std::io::ErrorKind;
use std::process::ExitCode;

/// The version of all programs of this workspace.
pub const VERSION: &str = "0.1.0";

/// What a program says that finds no memory.
pub const OUT_OF_MEMORY: &str = "error: out of memory";

/// The words of the command line, or the status of a program that can't have them.
pub fn words<R: AllocGlobal + Env + Eprint>(rt: &R) -> Result<Vec<String>, ExitCode> {
    match std::env::args(rt) {
        Ok(words) => words
            .collect(rt.alloc())
            .map_err(|_| failed(rt, 1, OUT_OF_MEMORY)),
        Err(error) if error.kind() == ErrorKind::InvalidData => Err(failed(
            rt,
            2,
            "error: the command line has a word that is not UTF-8",
        )),
        Err(_) => Err(failed(rt, 1, OUT_OF_MEMORY)),
    }
}

/// What the words of the command line say, or the status of a program that has nothing else to do.
/// Without a command for them there was no memory.
pub fn matched<'a, R: AllocGlobal + Print + Eprint>(
    rt: &R,
    command: Result<Command<'a>, LineError>,
    words: &'a [String],
) -> Result<ArgMatches<'a>, ExitCode> {
    let Ok(command) = command else {
        return Err(failed(rt, 1, OUT_OF_MEMORY));
    };
    command
        .try_get_matches_from(words)
        .map_err(|error| unmatched(rt, &error))
}

/// Ends a program whose command line has no matches: it is refused, or it asks for a text, as
/// `--help` does.
fn unmatched<R: AllocGlobal + Print + Eprint>(rt: &R, error: &LineError) -> ExitCode {
    if error.kind() == LineFault::OutOfMemory {
        return failed(rt, 1, OUT_OF_MEMORY);
    }
    if error.use_stderr() {
        return match refusal(rt.alloc(), error) {
            Ok(line) => failed(rt, 2, line.as_str()),
            Err(_) => failed(rt, 1, OUT_OF_MEMORY),
        };
    }
    match error.print(rt) {
        Ok(()) => ExitCode::SUCCESS,
        // Who has read enough of a help needs no word.
        Err(fault) if fault.kind() == ErrorKind::BrokenPipe => ExitCode::from(1),
        Err(fault) => match format!(in rt.alloc(); "error: standard output: {fault}") {
            Ok(line) => failed(rt, 1, line.as_str()),
            Err(_) => failed(rt, 1, OUT_OF_MEMORY),
        },
    }
}

/// What the parser of the command line says, as one line: its first paragraph, which names the
/// words at fault.
fn refusal(alloc: Global, error: &LineError) -> Result<String, AllocError> {
    let text = error.to_string(alloc)?;
    let mut line = String::new(alloc);
    for part in text.lines().take_while(|part| !part.is_empty()) {
        if !line.is_empty() {
            line.push(' ')?;
        }
        line.push_str(part.trim())?;
    }
    Ok(line)
}

/// Ends the program for this reason.
pub fn told<R: AllocGlobal + Eprint, D: Display>(rt: &R, status: u8, reason: &D) -> ExitCode {
    match format!(in rt.alloc(); "error: {reason}") {
        Ok(text) => failed(rt, status, text.as_str()),
        Err(_) => failed(rt, 1, OUT_OF_MEMORY),
    }
}

/// One line on standard error, and this status.
pub fn failed(rt: &impl Eprint, status: u8, line: &str) -> ExitCode {
    // There is nobody left to be told where standard error is closed.
    rt.eprintln(line).ok();
    ExitCode::from(status)
}
