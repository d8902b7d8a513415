//! Asks a node that runs, at its control socket.
#![tactic(auto)]

mod bell;
mod errand;
mod fault;
mod hold;
mod line;
mod run;
mod socket;
mod talk;

use bell::Outcome;
use clap::ArgMatches;
use command_line::{held_streams, matched, told, words};
use errand::{command, read_errand};
use fault::Fault;
use run::{Start, do_errand, end_with_input, no_thread};
use std::alloc::Global;
use std::process::ExitCode;
use std::thread;

/// Status 0 where what was asked is done, 1 where a rule refuses it, 2 at a fault, 3 where no node
/// answers.
fn main(rt: HostRuntime) -> ExitCode {
    let _streams = held_streams(&rt);
    let alloc = rt.alloc();
    let words = match words(&rt) {
        Ok(words) => words,
        Err(status) => return status,
    };
    let matches = match matched(&rt, command(alloc), words.as_slice()) {
        Ok(matches) => matches,
        Err(status) => return status,
    };
    let start = match prepare(alloc, &matches) {
        Ok(start) => start,
        Err(fault) => return end(&rt, Err(fault)),
    };
    let Start {
        errand,
        bell,
        talking,
        reading,
    } = start;
    let patience = errand.patience;
    // Nothing can end a connect or a read in time, so these threads may outlive the wait, and
    // aren't joined. They start here, where the type of the handle is known: what a thread is sent
    // is proved of types with names alone.
    let (talker, reader) = (rt, rt);
    if thread::spawn(&rt, move || do_errand(&talker, alloc, &errand, &talking)).is_err() {
        return end(&rt, Err(no_thread()));
    }
    bell.wait_for_answer(&rt, patience);
    let is_read = match reading {
        Some(bell) => thread::spawn(&rt, move || end_with_input(&reader, &bell)).is_ok(),
        None => true,
    };
    if !is_read {
        return end(&rt, Err(no_thread()));
    }
    end(&rt, bell.wait_for_end(&rt))
}

/// What the program runs with.
fn prepare(alloc: Global, matches: &ArgMatches<'_>) -> Result<Start, Fault> {
    let errand = read_errand(alloc, matches)?;
    Start::new(alloc, errand)
}

/// The status of a program that has ended so. A fault is said.
fn end<R: AllocGlobal + Eprint>(rt: &R, ended: Outcome) -> ExitCode {
    match ended {
        Ok(status) => ExitCode::from(status),
        Err(fault) => told(rt, fault.status, &fault.reason),
    }
}
