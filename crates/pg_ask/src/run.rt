//! What a run begins with, and what its threads do.
use crate::bell::{Bell, Outcome};
use crate::errand::{Deed, Errand, line_of};
use crate::fault::Fault;
use crate::hold::Hold;
use crate::line::read_line;
use crate::socket::{socket_at, wait_until_gone};
use crate::talk::{Talk, connect};
use anyhow::anyhow;
use pg_answers::Said;
use std::alloc::Global;
use std::fs::Files;
use std::io::{ErrorKind, Read};
use std::net::Net;
use std::sync::{Arc, Wait};
use std::time::Clock;

/// How many bytes of standard input are read at a time.
const PIECE: usize = 4_096;

/// What a run begins with.
#[derive(Drop)]
pub struct Start {
    pub errand: Errand,
    /// For the thread that waits.
    pub bell: Arc<Bell, Global>,
    /// For the thread that talks with the node.
    pub talking: Arc<Bell, Global>,
    /// For the one that reads standard input, where its end is the end of the program.
    pub reading: Option<Arc<Bell, Global>>,
}

impl Start {
    pub fn new(alloc: Global, errand: Errand) -> Result<Start, Fault> {
        let bell = Arc::new(alloc, Bell::new())?;
        let talking = Arc::try_clone(&bell)?;
        let reading = match &errand.deed {
            Deed::Hold { .. } => Some(Arc::try_clone(&bell)?),
            Deed::Ask(_) | Deed::AskInput => None,
        };
        Ok(Start {
            errand,
            bell,
            talking,
            reading,
        })
    }
}

/// Does what the command line asks for, and ends the program.
pub fn do_errand<R>(rt: &R, alloc: Global, errand: &Errand, bell: &Bell)
where
    R: Net + Files + Wait + Clock + Print + Input,
{
    let outcome = converse(rt, alloc, errand, bell);
    bell.end(rt, outcome);
}

/// Ends the program at the end of standard input.
pub fn end_with_input<R: Wait + Input>(rt: &R, bell: &Bell) {
    read_out(rt);
    bell.end(rt, Ok(0));
}

/// What a program says that can't start one of them.
pub fn no_thread() -> Fault {
    Fault::of(anyhow!("no thread can be made"))
}

/// Reads standard input to its end.
fn read_out<R: Wait + Input>(rt: &R) {
    let mut reader = rt.reader();
    let mut piece = [0; PIECE];
    for _ in rt.forever() {
        match reader.read(&mut piece) {
            Ok(0) => return,
            Ok(_) => {}
            Err(error) if error.kind() == ErrorKind::Interrupted => {}
            Err(_) => return,
        }
    }
    unreachable!()
}

/// Talks with the node until it is to end.
fn converse<R>(rt: &R, alloc: Global, errand: &Errand, bell: &Bell) -> Outcome
where
    R: Net + Files + Wait + Clock + Print + Input,
{
    match &errand.deed {
        Deed::Ask(line) => ask(rt, alloc, line.as_str(), errand, bell),
        Deed::AskInput => {
            let said = read_line(rt, alloc)?;
            let line = line_of(alloc, &[said.as_str()])?;
            ask(rt, alloc, line.as_str(), errand, bell)
        }
        Deed::Hold { scope, group } => {
            let hold = Hold::new(alloc, scope.as_str(), group.as_str())?;
            let stream = connect(rt, errand.control.as_str())?;
            let mut talk = Talk::new(rt, alloc, &stream, errand.show)?;
            hold.keep(rt, &mut talk, bell)
        }
    }
}

/// Shows the answer to a line, and what comes unasked behind it. Where the line ends the node, that
/// has ended by then.
fn ask<R: Net + Files + Wait + Clock + Print>(
    rt: &R,
    alloc: Global,
    line: &str,
    errand: &Errand,
    bell: &Bell,
) -> Outcome {
    let path = errand.control.as_str();
    let stream = connect(rt, path)?;
    let socket = socket_at(rt, path);
    let mut talk = Talk::new(rt, alloc, &stream, errand.show)?;
    let said = talk.ask(line)?;
    if said == Said::Done
        && ends_node(line)
        && let Some(socket) = socket
    {
        wait_until_gone(rt, path, socket);
    }
    // The answer has come, however slowly it is read from here.
    bell.answer(rt);
    talk.print()?;
    if said != Said::Done || !errand.show.follows {
        return Ok(said.status());
    }
    for _ in rt.forever() {
        talk.next()?;
    }
    unreachable!()
}

/// Whether the node ends behind the answer to this line.
fn ends_node(line: &str) -> bool {
    matches!(line.trim(), "drain" | "quit")
}
