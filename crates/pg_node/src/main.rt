//! A node of process groups, linked with others over TCP, that plays commands from standard input
//! and from a control socket.
#![tactic(auto)]

mod run;

use clap::ArgMatches;
use command_line::{failed, held_streams, matched, told, words};
use pg_options::{Fault, Options, command, read_options, with_config};
use pg_places::{Queues, start_connecting};
use pg_streams::{read_input, write_output, write_warnings};
use rand_chacha::ChaCha20Rng;
use run::run;
use std::alloc::Global;
use std::fs::{File, Files};
use std::net::{Net, TcpListener, TcpStream};
use std::process::ExitCode;
use std::random::RandomSource;
use std::sync::Wait;
use std::thread;
use std::thread::Threads;
use std::time::Clock;

/// The options, a generator that nobody can foresee, and the queues, for the run and for the
/// threads beside it.
#[derive(Drop)]
struct Start<'a> {
    options: Options<'a>,
    source: ChaCha20Rng,
    queues: Queues,
    theirs: Queues,
}

/// What a run begins with.
#[derive(Drop)]
struct Ready<'a> {
    alloc: Global,
    options: Options<'a>,
    source: ChaCha20Rng,
    queues: Queues,
}

/// Status 0 at the end of standard input or at `quit`, 1 at a fault of a file, a socket or standard
/// output, or for want of memory, 2 at one of the command line.
fn main(rt: HostRuntime) -> ExitCode {
    let _streams = held_streams(&rt);
    let alloc = rt.alloc();
    let words = match words(&rt) {
        Ok(words) => words,
        Err(status) => return status,
    };
    let words = match all_words(&rt, alloc, words.as_slice()) {
        Ok(words) => words,
        Err(status) => return status,
    };
    let start = match begun(&rt, alloc, words.as_slice()) {
        Ok(start) => start,
        Err(status) => return status,
    };
    let Start {
        options,
        source,
        queues,
        theirs,
    } = start;
    let Queues {
        lines,
        output,
        warnings,
    } = theirs;
    // Nothing can end a read or a write of a standard stream, so these threads may outlive the run,
    // and aren't joined.
    let (reader, writer, warner) = (rt, rt, rt);
    let is_read = thread::spawn(&rt, move || read_input(&reader, alloc, &lines)).is_ok();
    let is_written = thread::spawn(&rt, move || write_output(&writer, alloc, &output)).is_ok();
    let is_warned = thread::spawn(&rt, move || write_warnings(&warner, alloc, &warnings)).is_ok();
    let ready = Ready {
        alloc,
        options,
        source,
        queues,
    };
    serve(rt, &rt, ready, is_read && is_written && is_warned)
}

/// Runs a node with these options, if the standard streams are served. (Its bounds are spelled out:
/// `Host` would have to be shown of the system's own handle in `main`, which names none of the
/// types that this takes.)
fn serve<R>(rt: R, files: &HostRuntime, ready: Ready<'_>, are_served: bool) -> ExitCode
where
    R: Net<Listener = TcpListener, Stream = TcpStream>
        + Threads
        + Wait
        + Clock
        + Files<File = File>
        + Eprint
        + Sync
        + Copy
        + Send
        + 'static,
{
    let Ready {
        alloc,
        options,
        source,
        queues,
    } = ready;
    if !(are_served && start_connecting(rt, &options.targets)) {
        return failed(&rt, 1, "error: no thread can be made");
    }
    let ended = run(&rt, files, alloc, options, source, &queues);
    queues.finish(&rt, alloc, ended)
}

/// The words of the command line, and those of the file of settings that it names.
fn all_words<R: AllocGlobal + Print + Eprint + Files>(
    rt: &R,
    alloc: Global,
    words: &[String],
) -> Result<Vec<String>, ExitCode> {
    let matches = matches(rt, alloc, words)?;
    let all = with_config(rt, alloc, &matches, words);
    all.map_err(|fault| told(rt, fault.status, &fault.reason))
}

/// What the words of the command line say, or the status of a program that they don't start.
fn matches<'a, R: AllocGlobal + Print + Eprint>(
    rt: &R,
    alloc: Global,
    words: &'a [String],
) -> Result<ArgMatches<'a>, ExitCode> {
    matched(rt, command(alloc), words)
}

/// What the program runs with, by these words, or the status of the fault that was told.
fn begun<'a, R: AllocGlobal + Print + Eprint + RandomSource + Files>(
    rt: &R,
    alloc: Global,
    words: &'a [String],
) -> Result<Start<'a>, ExitCode> {
    let matches = matches(rt, alloc, words)?;
    prepare(rt, alloc, &matches).map_err(|fault| told(rt, fault.status, &fault.reason))
}

/// What the program runs with.
fn prepare<'a, R: RandomSource + Files>(
    rt: &R,
    alloc: Global,
    matches: &ArgMatches<'a>,
) -> Result<Start<'a>, Fault> {
    let mut source: ChaCha20Rng = match rand::make_rng(rt) {
        Ok(source) => source,
        Err(error) => return Err(Fault::of_system(error)),
    };
    let options = read_options(rt, alloc, &mut source, matches)?;
    match Queues::two(alloc, options.faces.control.is_none()) {
        Ok((queues, theirs)) => Ok(Start {
            options,
            source,
            queues,
            theirs,
        }),
        Err(_) => Err(Fault::of_memory()),
    }
}
