//! What a line asks for.
ghost use Rattle.std.specs.Prelude.{◌≡◌, ◌++◌, List, ℕ, IfOk, IfErr, OnOk, Some, codes};
ghost use Rattle.pg_text.specs.Faults.{IsUnread};
ghost use Rattle.std.specs.Option.{option_and_then};
ghost use Rattle.pg_text.specs.Commands.{said_by};
ghost use Rattle.pg_text.specs.Lines.{words_of};
ghost use Rattle.pg_session.specs.Asked.{asked_by, asked_changing, asked_of, asked_of_event, change_of, IsAsked};

use crate::kind::Kind;
use crate::surroundings::{Change, Report};
use dist_types::OutOfMemory;
use pg_text::{Command, LineFault, Reason, diagnose, first_word, parse, put_bytes, put_word};
use policy_audit::Event;
use std::alloc::Global;

const NODES: &str = "nodes";

const HELP: &str = "help";

const QUIT: &str = "quit";

const DRAIN: &str = "drain";

/// Commands of a script alone.
const OF_SCRIPTS: [&str; 7] = [
    "frame", "lost", "opened", "restart", "seat", "take", "updates",
];

/// What a line asks for.
#[derive(Drop)]
pub enum Request {
    /// A call by the seat of the connection.
    Call(Event),
    /// A query, which makes no entry.
    Query(Event),
    /// How many entries there are.
    Size,
    /// The entry of that number.
    Audit(u32),
    /// Which peers are up.
    Nodes,
    Report(Report),
    Change(Change),
    Help,
    /// The end of the program.
    Quit,
    /// The same, once what connections have has ended and peers are told.
    Drain,
}

/// What a line that is not quiet asks for.
pub fn read_request(alloc: Global, line: &[u8]) -> Result<Request, LineFault>
    ensures ok { IfOk result (λ request. asked_by line.now ≡ Some request) }
    ensures call { IfOk result IsAsked }
    ensures fault { IfErr result (λ fault. IsUnread fault (asked_by line.now)) }
{
    if line == NODES.as_bytes() {
        return Ok(Request::Nodes);
    }
    if line == HELP.as_bytes() {
        return Ok(Request::Help);
    }
    if line == QUIT.as_bytes() {
        return Ok(Request::Quit);
    }
    if line == DRAIN.as_bytes() {
        return Ok(Request::Drain);
    }
    match Report::of(line) {
        Some(report) => Ok(Request::Report(report)),
        None => read_other(alloc, line),
    }
}

/// What a line asks for that may be a change, or a command of the console.
fn read_other(alloc: Global, line: &[u8]) -> Result<Request, LineFault>
    ensures ok { IfOk result (λ request. asked_changing (change_of (words_of line.now)) line.now
        ≡ Some request) }
    ensures call { IfOk result IsAsked }
    ensures fault { IfErr result (λ fault.
        IsUnread fault (asked_changing (change_of (words_of line.now)) line.now)) }
{
    match Change::of(line) {
        Some(change) => Ok(Request::Change(change)),
        None => read_command(alloc, line),
    }
}

/// What a line asks for that may be a command of the console.
fn read_command(alloc: Global, line: &[u8]) -> Result<Request, LineFault>
    ensures ok { IfOk result (λ request. option_and_then asked_of (said_by line.now)
        ≡ Some request) }
    ensures call { IfOk result IsAsked }
    ensures fault { IfErr result (λ fault.
        IsUnread fault (option_and_then asked_of (said_by line.now))) }
{
    match parse(alloc, line)? {
        Command::Step(event) => request_of(event),
        Command::Size => Ok(Request::Size),
        Command::Audit(number) => Ok(Request::Audit(number)),
        Command::Seat(_) => Err(LineFault::Script),
    }
}

fn request_of(event: Event) -> Result<Request, LineFault>
    ensures ok { IfOk result (λ request. asked_of_event event ≡ Some request) }
    ensures call { IfOk result IsAsked }
    ensures fault { IfErr result (λ fault. IsUnread fault (asked_of_event event)) }
{
    match Kind::of(&event) {
        Kind::Query => Ok(Request::Query(event)),
        Kind::Barred => {
            drop(event);
            Err(LineFault::Script)
        }
        _ => Ok(Request::Call(event)),
    }
}

/// Adds the line for a line that asks for nothing: why it doesn't.
pub fn put_fault(alloc: Global, line: &[u8], out: &mut Vec<u8>) -> Result<(), OutOfMemory>
    ensures { OnOk result ((reason : List ℕ)
        × (out.new.items ≡ out.old.items ++ codes "fault " ++ reason)) }
{
    let reason = reason(alloc, line)?;
    put_word("fault ", out)?;
    put_bytes(reason.as_slice(), out)
}

/// Why a line asks for nothing, with the word at fault, and a line feed.
fn reason(alloc: Global, line: &[u8]) -> Result<Vec<u8>, OutOfMemory> {
    let mut text = Vec::new(alloc);
    let (name, rest) = first_word(line);
    match diagnose(alloc, line) {
        Some((Reason::NoSuchCommand, _)) | None if is_bare(name) => {
            put_word("a word too many: ", &mut text)?;
            put_bytes(rest.unwrap_or(&[]), &mut text)?;
        }
        Some((reason, part)) if !is_of_scripts(name) => {
            put_word(format!(in alloc; "{reason}")?.as_str(), &mut text)?;
            if !part.is_empty() {
                put_word(": ", &mut text)?;
                put_word(part, &mut text)?;
            }
        }
        _ => {
            put_word("no such command: ", &mut text)?;
            put_bytes(name, &mut text)?;
        }
    }
    put_word("\n", &mut text)?;
    Ok(text)
}

/// Whether this is a command of the console that no connection may say, whatever stands behind it.
fn is_of_scripts(name: &[u8]) -> bool {
    OF_SCRIPTS.iter().any(|command| command.as_bytes() == name)
}

/// Whether this is a command of the program that the console lacks. None of them takes a word.
fn is_bare(name: &[u8]) -> bool {
    name == NODES.as_bytes()
        || name == HELP.as_bytes()
        || name == QUIT.as_bytes()
        || name == DRAIN.as_bytes()
        || Report::of(name).is_some()
}
