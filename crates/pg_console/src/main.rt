//! Plays scripts on a node of process groups.
#![tactic(auto)]

mod archive;
mod asking;
mod cookies;
mod options;
mod pair;
mod replaying;
mod sockets;
mod world;

use anyhow::{Result, bail};
use archive::Archive;
use clap::ArgMatches;
use command_line::{OUT_OF_MEMORY, failed, held_streams, matched, told, words};
use named_files::ShownPath;
use options::{command, opening};
use pair::{PairEnd, pair};
use pg_script::{KeepFault, RunFault, play_keeping};
use pg_text::{diagnose, without_feed};
use policy_audit::Opening;
use replaying::Player;
use std::fmt::Display;
use std::fs::{File, Files};
use std::io::{self, BufReader};
use std::net::{Net, TcpListener, TcpStream};
use std::process::ExitCode;
use std::sync::Wait;
use std::thread::Threads;
use std::time::Clock;
use world::{Stop, play_world};
use world_script::why_unread;

/// Status 0 at the end of a script, 1 at a fault of the script, of a stream or of memory, 2 at one
/// of the command line.
fn main(rt: HostRuntime) -> ExitCode {
    let _streams = held_streams(&rt);
    let words = match words(&rt) {
        Ok(words) => words,
        Err(status) => return status,
    };
    match matched(&rt, command(rt.alloc()), words.as_slice()) {
        Ok(matches) => follow(&rt, &matches),
        Err(status) => status,
    }
}

/// Does what the command line asks for.
fn follow<R>(rt: &R, matches: &ArgMatches<'_>) -> ExitCode
where
    R: AllocGlobal
        + Input
        + Print
        + Eprint
        + Files<File = File>
        + Net<Listener = TcpListener, Stream = TcpStream>
        + Threads
        + Wait
        + Clock
        + Sync,
{
    let Some((name, matches)) = matches.subcommand() else {
        return failed(rt, 2, "error: no command was given");
    };
    match name {
        "pair" => meet(rt),
        "world" => try_out(rt),
        "replay" => play_again(rt, matches),
        _ => run(rt, matches),
    }
}

/// Lets two nodes meet.
fn meet<
    R: AllocGlobal
        + Print
        + Eprint
        + Net<Listener = TcpListener, Stream = TcpStream>
        + Threads
        + Wait
        + Clock
        + Sync,
>(rt: &R) -> ExitCode {
    match pair(rt, &mut io::writer(rt)) {
        PairEnd::Done => ExitCode::SUCCESS,
        PairEnd::Late => ExitCode::from(1),
        PairEnd::Failed(error) => told(rt, 1, &error),
    }
}

/// Plays standard input on one node.
fn run<R: AllocGlobal + Input + Print + Eprint + Files<File = File>>(
    rt: &R,
    matches: &ArgMatches<'_>,
) -> ExitCode {
    let opening = match opening(rt.alloc(), matches) {
        Ok(opening) => opening,
        Err(fault) => return told(rt, fault.status(), &fault),
    };
    match (matches.get_one::<u32>("keep"), matches.get_str("archive")) {
        (None, None) => play(rt, opening),
        (keep, path) => play_kept(rt, opening, keep.unwrap_or(u32::MAX), path),
    }
}

/// Plays standard input on a node that is opened so.
fn play<R: AllocGlobal + Input + Print + Eprint>(rt: &R, opening: Opening) -> ExitCode {
    let mut line = Vec::new(rt.alloc());
    match play_lines(rt, opening, &mut line) {
        Ok(()) => ExitCode::SUCCESS,
        Err(fault) => faulted(rt, fault, line.as_slice()),
    }
}

fn play_lines<R: AllocGlobal + Input + Print>(
    rt: &R,
    opening: Opening,
    line: &mut Vec<u8>,
) -> Result<(), RunFault> {
    match BufReader::new(rt.alloc(), rt.reader()) {
        Ok(mut reader) => {
            pg_script::play(rt.alloc(), opening, &mut reader, line, &mut io::writer(rt))
        }
        Err(_) => Err(RunFault::Memory),
    }
}

/// Plays standard input on a node that hands out its old entries, never one of the `keep` newest,
/// into the archive of this path.
fn play_kept<R: AllocGlobal + Input + Print + Eprint + Files<File = File>>(
    rt: &R,
    opening: Opening,
    keep: u32,
    path: Option<&str>,
) -> ExitCode {
    let file = match created(rt, path) {
        Ok(file) => file,
        Err(error) => return unwritten(rt, path, &error),
    };
    let alloc = rt.alloc();
    let Ok(mut reader) = BufReader::new(alloc, rt.reader()) else {
        return failed(rt, 1, OUT_OF_MEMORY);
    };
    let Ok(mut archive) = Archive::begin(alloc, file, &opening) else {
        return failed(rt, 1, OUT_OF_MEMORY);
    };
    let mut line = Vec::new(alloc);
    let mut writer = io::writer(rt);
    let played = play_keeping(
        alloc,
        opening,
        keep,
        &mut reader,
        &mut line,
        &mut writer,
        &mut archive,
    );
    if let Err(error) = archive.end() {
        return unwritten(rt, path, &error);
    }
    match played {
        Ok(()) => ExitCode::SUCCESS,
        Err(KeepFault::Run(fault)) => faulted(rt, fault, line.as_slice()),
        Err(fault) => told(rt, 1, &fault),
    }
}

fn created<R: Files<File = File>>(rt: &R, path: Option<&str>) -> io::Result<Option<File>> {
    match path {
        Some(path) => Ok(Some(File::create(rt, path)?)),
        None => Ok(None),
    }
}

/// Ends a run whose archive can't be written. What was written of it stays.
fn unwritten<R: AllocGlobal + Eprint>(rt: &R, path: Option<&str>, error: &io::Error) -> ExitCode {
    let path = path.unwrap_or("");
    let path = ShownPath(path);
    told(rt, 1, &format_args!("--archive: {path}: {error}"))
}

/// Plays archives again, and prints how many of their lives and entries agreed.
fn play_again<R: AllocGlobal + Print + Eprint + Files<File = File>>(
    rt: &R,
    matches: &ArgMatches<'_>,
) -> ExitCode {
    let mut player = Player::new(rt.alloc());
    if let Err(fault) = player.cookies.add_shown(rt.alloc(), matches) {
        return told(rt, fault.status(), &fault);
    }
    match replay(rt, matches, &mut player) {
        Ok(()) => ExitCode::SUCCESS,
        Err(error) => told(rt, 1, &error),
    }
}

fn replay<R: AllocGlobal + Print + Files<File = File>>(
    rt: &R,
    matches: &ArgMatches<'_>,
    player: &mut Player,
) -> Result<()> {
    player.cookies.add_filed(rt, rt.alloc(), matches)?;
    let played = play_files(rt, matches, player);
    let agreed = player.agreed();
    let written = println!(rt; "lives {} entries {}", agreed.lives, agreed.entries);
    played?;
    Ok(written?)
}

/// Plays the files that are named, one behind the other.
fn play_files<R: AllocGlobal + Files<File = File>>(
    rt: &R,
    matches: &ArgMatches<'_>,
    player: &mut Player,
) -> Result<()> {
    for path in matches.get_strs("ARCHIVE").unwrap_or(&[]) {
        let file = match File::open(rt, path) {
            Ok(file) => file,
            Err(error) => bail!("{}: {error}", ShownPath(path)),
        };
        let mut reader = BufReader::new(rt.alloc(), file)?;
        player.play(path, &mut reader)?;
    }
    Ok(())
}

/// Plays standard input on several nodes and their wires.
fn try_out<R: AllocGlobal + Input + Print + Eprint>(rt: &R) -> ExitCode {
    let Ok(mut reader) = BufReader::new(rt.alloc(), rt.reader()) else {
        return failed(rt, 1, OUT_OF_MEMORY);
    };
    let mut line = Vec::new(rt.alloc());
    match play_world(rt.alloc(), &mut reader, &mut line, &mut io::writer(rt)) {
        Ok(()) => ExitCode::SUCCESS,
        Err(stop) => stopped(rt, stop, without_feed(line.as_slice())),
    }
}

/// Ends a script of world steps at this line.
fn stopped<R: AllocGlobal + Eprint>(rt: &R, stop: Stop, line: &[u8]) -> ExitCode {
    match stop {
        Stop::SameName(number) => misread(rt, 2, number, &"an earlier node has this name", ""),
        Stop::Run(RunFault::Script(number)) => {
            let (reason, part) = why_unread(rt.alloc(), line);
            misread(rt, 1, number, &reason, part)
        }
        Stop::Run(fault) => told(rt, 1, &fault),
    }
}

/// Ends a run on one node, at this line if that says no command.
fn faulted<R: AllocGlobal + Eprint>(rt: &R, fault: RunFault, line: &[u8]) -> ExitCode {
    let RunFault::Script(number) = fault else {
        return told(rt, 1, &fault);
    };
    match diagnose(rt.alloc(), without_feed(line)) {
        Some((reason, part)) => misread(rt, 1, number, &reason, part),
        None => failed(rt, 1, "error: the line can't be read"),
    }
}

/// Says of the line of this number why it can't be read, and what that is about.
fn misread<R: AllocGlobal + Eprint, D: Display>(
    rt: &R,
    status: u8,
    number: u64,
    reason: &D,
    part: &str,
) -> ExitCode {
    let text = match part {
        "" => format!(in rt.alloc(); "line {number}: {reason}"),
        _ => format!(in rt.alloc(); "line {number}: {reason}: {part:.80}"),
    };
    match text {
        Ok(text) => failed(rt, status, text.as_str()),
        Err(_) => failed(rt, 1, OUT_OF_MEMORY),
    }
}
