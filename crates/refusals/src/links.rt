//! The workers of a link over a reader and a writer that fail: why each stopped, and what its pass
//! has called.
use crate::calls::{Log, insisted};
use crate::failing::{Giving, Taking};
use crate::nodes::{close_node, new_node};
use crate::rows::{put_hex, put_judged, step_of};
use anyhow::{Result, bail};
use dist_types::{Body, OutOfMemory};
use node_core::CoreFault;
use node_threads::{CallFault, Node, OpenGate, Pass, read_link, write_link};
use pg_text::{put_number, put_word};
use policy_audit::Event;
use std::alloc::Global;
use std::fmt::Debug;
use std::io::Write;
use std::sync::Wait;

/// A link, the bytes that come or go on it, and the lines of the script behind which they do.
#[derive(Drop)]
struct Scene<'a> {
    link: u32,
    bytes: Body,
    script: &'a str,
}

/// A node that has played a script, the pass that has, and behind it that of a worker.
#[derive(Drop)]
struct Crew {
    node: Node,
    passes: Vec<Pass>,
}

/// Reads the bytes again and again, and fails at each in turn, and behind the last not at all.
pub fn fail_reads<R: Print + Eprint + Wait + Sync>(
    rt: &R,
    alloc: Global,
    log: &mut Log,
    text: &str,
) -> Result<()> {
    let scene = scene_of(alloc, text)?;
    for fails_at in 0..scene.bytes.as_slice().len().saturating_add(2) {
        read(rt, alloc, log, &scene, fails_at)?;
    }
    Ok(())
}

/// Reads all bytes.
pub fn read_once<R: Print + Eprint + Wait + Sync>(
    rt: &R,
    alloc: Global,
    log: &mut Log,
    text: &str,
) -> Result<()> {
    let scene = set_scene(rt, alloc, text)?;
    read(rt, alloc, log, &scene, usize::MAX)
}

/// Writes again and again, and fails at each byte in turn.
pub fn fail_writes<R: Print + Eprint + Wait + Sync>(
    rt: &R,
    alloc: Global,
    log: &mut Log,
    text: &str,
) -> Result<()> {
    let scene = scene_of(alloc, text)?;
    for fails_at in 0..scene.bytes.as_slice().len() {
        write(rt, alloc, log, &scene, fails_at)?;
    }
    Ok(())
}

/// Writes all bytes but the last.
pub fn write_once<R: Print + Eprint + Wait + Sync>(
    rt: &R,
    alloc: Global,
    log: &mut Log,
    text: &str,
) -> Result<()> {
    let scene = set_scene(rt, alloc, text)?;
    let fails_at = scene.bytes.as_slice().len().saturating_sub(1);
    write(rt, alloc, log, &scene, fails_at)
}

fn set_scene<'a, R: Eprint>(rt: &R, alloc: Global, text: &'a str) -> Result<Scene<'a>> {
    insisted(rt, "scene", || scene_of(alloc, text))
}

/// What a text says: a frame with the link and the bytes, and the lines of a script.
fn scene_of<'a>(alloc: Global, text: &'a str) -> Result<Scene<'a>, OutOfMemory> {
    let (first, script) = text.split_once('\n').unwrap_or((text, ""));
    let Some((link, bytes)) = frame_of(step_of(alloc, first.as_bytes())?) else {
        return Err(OutOfMemory);
    };
    Ok(Scene {
        link,
        bytes,
        script,
    })
}

fn frame_of(event: Event) -> Option<(u32, Body)> {
    match event {
        Event::Frame(link, bytes) => Some((link, bytes)),
        _ => None,
    }
}

/// A new node that has played the script.
fn set_crew<R: Eprint + Wait + Sync>(rt: &R, alloc: Global, script: &str) -> Result<Crew> {
    insisted(rt, "crew", || crew_of(rt, alloc, script))
}

fn crew_of<R: Wait + Sync>(rt: &R, alloc: Global, script: &str) -> Result<Crew, OutOfMemory> {
    let mut crew = new_crew(alloc)?;
    call_lines(rt, alloc, &mut crew, script)?;
    Ok(crew)
}

fn new_crew(alloc: Global) -> Result<Crew, OutOfMemory> {
    let (node, passes) = new_node(alloc)?;
    Ok(Crew { node, passes })
}

/// Calls each line's event by the first pass.
fn call_lines<R: Wait + Sync>(
    rt: &R,
    alloc: Global,
    crew: &mut Crew,
    script: &str,
) -> Result<(), OutOfMemory> {
    let Some(caller) = crew.passes.first_mut() else {
        return Err(OutOfMemory);
    };
    for line in script.lines() {
        call_line(rt, alloc, &crew.node, caller, line)?;
    }
    Ok(())
}

fn call_line<R: Wait + Sync>(
    rt: &R,
    alloc: Global,
    node: &Node,
    caller: &mut Pass,
    line: &str,
) -> Result<(), OutOfMemory> {
    let event = step_of(alloc, line.as_bytes())?;
    match node.call(rt, caller, event) {
        Err(CallFault::Core(CoreFault::OutOfMemory)) => Err(OutOfMemory),
        _ => Ok(()),
    }
}

fn read<R: Print + Eprint + Wait + Sync>(
    rt: &R,
    alloc: Global,
    log: &mut Log,
    scene: &Scene<'_>,
    fails_at: usize,
) -> Result<()> {
    let mut crew = set_crew(rt, alloc, scene.script)?;
    let told = tell_read(rt, alloc, log, &mut crew, scene, fails_at);
    settle(crew, told)
}

fn write<R: Print + Eprint + Wait + Sync>(
    rt: &R,
    alloc: Global,
    log: &mut Log,
    scene: &Scene<'_>,
    fails_at: usize,
) -> Result<()> {
    let mut crew = set_crew(rt, alloc, scene.script)?;
    let told = tell_write(rt, alloc, log, &mut crew, scene.link, fails_at);
    settle(crew, told)
}

/// Reads, and prints how that ended.
fn tell_read<R: Print + Wait + Sync>(
    rt: &R,
    alloc: Global,
    log: &mut Log,
    crew: &mut Crew,
    scene: &Scene<'_>,
    fails_at: usize,
) -> Result<()> {
    put_read(rt, alloc, crew, scene, fails_at, log.begin())?;
    log.print(rt)
}

fn put_read<R: Wait + Sync>(
    rt: &R,
    alloc: Global,
    crew: &mut Crew,
    scene: &Scene<'_>,
    fails_at: usize,
    out: &mut Vec<u8>,
) -> Result<()> {
    let mut input = Giving {
        bytes: scene.bytes.as_slice(),
        at: 0,
        fails_at,
    };
    let Some(worker) = crew.passes.last_mut() else {
        bail!("a node without passes");
    };
    let end = read_link(
        rt, alloc, &crew.node, worker, scene.link, &mut input, &OpenGate,
    );
    put_number("read ", input.at as u64, out)?;
    put_worked(&end, worker, out)?;
    put_word("\n", out)?;
    Ok(())
}

/// Writes, and prints how that ended.
fn tell_write<R: Print + Eprint + Wait + Sync>(
    rt: &R,
    alloc: Global,
    log: &mut Log,
    crew: &mut Crew,
    link: u32,
    fails_at: usize,
) -> Result<()> {
    let mut output = insisted(rt, "output", || Taking::new(alloc, fails_at))?;
    put_written(rt, alloc, crew, link, &mut output, log.begin())?;
    log.print(rt)
}

fn put_written<R: Wait + Sync>(
    rt: &R,
    alloc: Global,
    crew: &mut Crew,
    link: u32,
    output: &mut Taking,
    out: &mut Vec<u8>,
) -> Result<()> {
    let Some(worker) = crew.passes.last_mut() else {
        bail!("a node without passes");
    };
    let end = write_link(rt, alloc, &crew.node, worker, link, output);
    put_number("written ", output.taken.len() as u64, out)?;
    put_worked(&end, worker, out)?;
    put_output(output, out)?;
    Ok(())
}

/// Adds what was taken, and how it ended.
fn put_output(output: &Taking, out: &mut Vec<u8>) -> Result<(), OutOfMemory> {
    put_word("; ", out)?;
    put_hex(output.taken.as_slice(), out)?;
    put_word(
        if output.is_hung_up {
            " hung up"
        } else {
            " not hung up"
        },
        out,
    )?;
    put_number(" late ", u64::from(output.late), out)?;
    put_word("\n", out)
}

/// Adds why a worker stopped, and what its pass has called.
fn put_worked<E: Debug>(end: &E, worker: &Pass, out: &mut Vec<u8>) -> Result<()> {
    write!(out, " {end:?}")?;
    put_calls(worker, out)?;
    Ok(())
}

fn put_calls(worker: &Pass, out: &mut Vec<u8>) -> Result<(), OutOfMemory> {
    for call in worker.calls() {
        put_word("; ", out)?;
        put_judged(&call.event, &call.verdict, out)?;
    }
    Ok(())
}

/// Closes the node, where it was told what came of it.
fn settle(crew: Crew, told: Result<()>) -> Result<()> {
    told?;
    let Crew { node, passes } = crew;
    if close_node(node, passes).is_none() {
        bail!("the node is not closed");
    }
    Ok(())
}
