//! Makes calls of a node, a world, a table, readers and frames, and makes each again that wants
//! memory; and lets the reader and the writer of a link fail. tests/memory/calls runs it while its
//! allocations are refused, and judges what it prints.
#![tactic(auto)]

mod calls;
mod failing;
mod frames;
mod input;
mod links;
mod nodes;
mod rows;
mod tables;
mod worlds;

use anyhow::{Result, bail};
use calls::{Log, insisted};
use std::env::Env;
use std::process::ExitCode;
use std::sync::Wait;

/// Status 1 where memory was wanting again and again, or a stream failed.
fn main(rt: HostRuntime) -> ExitCode {
    let Err(error) = play(&rt) else {
        return ExitCode::SUCCESS;
    };
    // There is nobody left to be told where standard error is closed.
    eprintln!(rt; "error: {error}").ok();
    ExitCode::FAILURE
}

/// Plays the part that the command line names.
fn play<R: AllocGlobal + Env + Input + Print + Eprint + Wait + Sync>(rt: &R) -> Result<()> {
    let word = insisted(rt, "word", || input::first_word(rt))?;
    let mut log = insisted(rt, "log", || Log::new(rt.alloc()))?;
    match word.as_str() {
        "frames" => frames::play(rt, rt.alloc(), &mut log),
        "tables" => tables::play(rt, rt.alloc(), &mut log),
        "worlds" => worlds::play(rt, rt.alloc(), &mut log),
        word => play_text(rt, &mut log, word),
    }
}

/// Plays a part that needs a script, which comes on standard input. For the parts of a link its
/// first line names the link, and the bytes that come or go.
fn play_text<R: AllocGlobal + Input + Print + Eprint + Wait + Sync>(
    rt: &R,
    log: &mut Log,
    word: &str,
) -> Result<()> {
    let text = input::read_all(rt)?;
    let text = text.as_str();
    match word {
        "nodes" => nodes::play_script(rt, rt.alloc(), log, text),
        "reads" => links::fail_reads(rt, rt.alloc(), log, text),
        "read" => links::read_once(rt, rt.alloc(), log, text),
        "writes" => links::fail_writes(rt, rt.alloc(), log, text),
        "write" => links::write_once(rt, rt.alloc(), log, text),
        _ => bail!("the part is frames, tables, worlds, nodes, reads, read, writes or write"),
    }
}
