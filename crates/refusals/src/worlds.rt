//! Two nodes and the wire between them: `a@h` is node 0, `b@h` is node 1.
use crate::calls::{Log, Subject, insisted, play_all};
use crate::rows::{put_fault, step_of};
use anyhow::Result;
use dist_types::{Cookie, NodeName, OutOfMemory};
use node_core::{CoreFault, NodeCore};
use pg_text::{put_accepted, put_numbered_line, put_unanswered};
use pg_world::{Side, World, WorldFault, WorldReply, WorldStep};
use policy_audit::Opening;
use std::alloc::Global;
use std::sync::Wait;

/// What happens in the world. Calls are lines as in a script, each of one node.
#[derive(Clone, Copy, Debug)]
enum Move {
    Call(usize, &'static str),
    Dial(usize, usize),
    Accept,
    Hand(Side),
    Deliver(Side),
    Cut(Side),
    Restart(usize),
}

/// A link comes up, rows come and go, the link is cut, and a node begins anew; faults of each kind
/// on the way.
static MOVES: [Move; 49] = [
    Move::Call(0, "start pg"),
    Move::Call(1, "start pg"),
    Move::Call(0, "spawn"),
    Move::Call(0, "join pg g a@h/1/1 a@h/1/1"),
    Move::Call(0, "join pg g b@h/1/1"),
    Move::Call(1, "monitor_scope pg"),
    Move::Call(1, "take 1"),
    Move::Call(2, "spawn"),
    Move::Dial(0, 2),
    Move::Cut(Side::Dialler),
    Move::Dial(0, 1),
    Move::Hand(Side::Acceptor),
    Move::Deliver(Side::Acceptor),
    Move::Accept,
    Move::Accept,
    // The name, the status and the challenge, the reply, the acknowledgement with the first
    // messages.
    Move::Hand(Side::Dialler),
    Move::Deliver(Side::Acceptor),
    Move::Hand(Side::Acceptor),
    Move::Deliver(Side::Dialler),
    Move::Deliver(Side::Dialler),
    Move::Hand(Side::Dialler),
    Move::Deliver(Side::Acceptor),
    Move::Hand(Side::Acceptor),
    Move::Deliver(Side::Dialler),
    Move::Deliver(Side::Dialler),
    Move::Hand(Side::Dialler),
    Move::Deliver(Side::Acceptor),
    Move::Deliver(Side::Acceptor),
    Move::Call(1, "members pg g"),
    Move::Hand(Side::Acceptor),
    Move::Deliver(Side::Dialler),
    Move::Call(0, "leave pg g a@h/1/1"),
    Move::Call(0, "join pg h a@h/1/1"),
    Move::Hand(Side::Dialler),
    Move::Deliver(Side::Acceptor),
    Move::Deliver(Side::Acceptor),
    Move::Deliver(Side::Acceptor),
    Move::Call(1, "updates 2"),
    Move::Call(1, "groups pg"),
    Move::Call(0, "exit a@h/1/1"),
    Move::Hand(Side::Dialler),
    Move::Cut(Side::Acceptor),
    Move::Call(1, "members pg h"),
    Move::Call(1, "updates 2"),
    Move::Deliver(Side::Acceptor),
    Move::Cut(Side::Acceptor),
    Move::Restart(0),
    Move::Call(0, "spawn"),
    Move::Call(0, "members pg g"),
];

/// A world, and what it answered last.
#[derive(Drop)]
struct Field {
    alloc: Global,
    world: World,
    answer: Result<WorldReply, WorldFault>,
}

pub fn play<R: Print + Eprint + Wait>(rt: &R, alloc: Global, log: &mut Log) -> Result<()> {
    let mut field = insisted(rt, "world", || Field::new(alloc))?;
    play_all(rt, log, &mut field, &MOVES)
}

impl Field {
    fn new(alloc: Global) -> Result<Field, OutOfMemory> {
        let mut nodes = Vec::new(alloc);
        nodes.push(node(alloc, b"a@h")?)?;
        nodes.push(node(alloc, b"b@h")?)?;
        // The names differ.
        let Ok(world) = World::new(alloc, nodes) else {
            return Err(OutOfMemory);
        };
        Ok(Field {
            alloc,
            world,
            answer: Err(WorldFault::NoNode),
        })
    }
}

fn node(alloc: Global, name: &[u8]) -> Result<NodeCore, OutOfMemory> {
    let (Ok(name), Ok(cookie)) = (
        NodeName::parse(alloc, name),
        Cookie::parse(alloc, b"password"),
    ) else {
        return Err(OutOfMemory);
    };
    let opening = Opening {
        name,
        cookie,
        hidden: false,
        creation: 1,
        entries: 1_000,
        links: 2,
    };
    match NodeCore::new(alloc, opening) {
        Ok(node) => Ok(node),
        Err(_) => Err(OutOfMemory),
    }
}

impl Subject for Field {
    type Deed = Move;

    fn make<R: Wait>(&mut self, _rt: &R, deed: Move) -> Result<(), OutOfMemory> {
        let answer = self.world.step(world_step(self.alloc, deed)?);
        if is_lack(&answer) {
            return Err(OutOfMemory);
        }
        self.answer = answer;
        Ok(())
    }

    fn tell<R: Wait>(&self, _rt: &R, out: &mut Vec<u8>) -> Result<(), OutOfMemory> {
        match &self.answer {
            Ok(WorldReply::Wire(wire)) => put_numbered_line("wire ", *wire as u64, out),
            Ok(WorldReply::Handed(count)) => put_numbered_line("handed ", *count as u64, out),
            Ok(WorldReply::Answer(reply)) => put_accepted(self.alloc, reply, out),
            Err(WorldFault::Core(fault)) => put_unanswered(*fault, out),
            Err(fault) => put_fault(fault, out),
        }
    }

    /// A world is asked by its steps alone, so that what it has kept shows in what they are
    /// answered later.
    fn show<R: Wait>(&self, _rt: &R, _out: &mut Vec<u8>) -> Result<(), OutOfMemory> {
        Ok(())
    }
}

/// Whether memory was wanting.
fn is_lack(answer: &Result<WorldReply, WorldFault>) -> bool {
    match answer {
        Err(WorldFault::Core(CoreFault::OutOfMemory)) => true,
        _ => false,
    }
}

fn world_step(alloc: Global, deed: Move) -> Result<WorldStep, OutOfMemory> {
    let (wire, seat) = (0, 0);
    Ok(match deed {
        Move::Call(node, line) => WorldStep::Call {
            node,
            seat,
            event: step_of(alloc, line.as_bytes())?,
        },
        Move::Dial(from, to) => WorldStep::Dial {
            from,
            to,
            seat,
            challenge: 7,
        },
        Move::Accept => WorldStep::Accept {
            wire,
            seat,
            challenge: 9,
        },
        Move::Hand(side) => WorldStep::Hand { wire, side, seat },
        Move::Deliver(side) => WorldStep::Deliver { wire, side, seat },
        Move::Cut(side) => WorldStep::Cut { wire, side, seat },
        Move::Restart(node) => WorldStep::Restart { node, seat },
    })
}
