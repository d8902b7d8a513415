//! A node for two seats, called in each of three ways, and what its readers answer.
use crate::calls::{Log, Subject, begin, insisted, play};
use crate::rows::command_of;
use anyhow::Result;
use dist_types::{Cookie, Group, NodeName, OutOfMemory, Scope};
use node_core::{Awaiting, CoreFault, NodeCore, Query};
use node_threads::{CallFault, CloseFault, Closed, Node, Pass};
use pg_text::{
    Command, is_quiet, put_accepted, put_bytes, put_found, put_number, put_numbered_line, put_step,
    put_unanswered, put_word,
};
use policy_audit::{Event, Opening, Reply, Verdict};
use std::alloc::Global;
use std::io::Write;
use std::sync::Wait;

/// How a call is made.
#[derive(Clone, Copy, Debug)]
enum Way {
    PassCall,
    PassApply,
    SharedApply,
}

/// A line of a script, and how its event is called.
#[derive(Clone, Copy, Debug)]
pub struct Said<'a> {
    way: Way,
    line: &'a str,
}

/// What a line was answered.
#[derive(Clone, Copy)]
enum Told {
    /// What the last call of the seat's pass says.
    Reply,
    Fault(CallFault),
    Seat,
    Size,
    Audit(u32),
}

/// A node with its passes, the seat that asks, and what was answered last.
#[derive(Drop)]
pub struct Room<'t> {
    script: &'t str,
    alloc: Global,
    node: Node,
    passes: Vec<Pass>,
    seat: usize,
    told: Told,
    scopes: Vec<Scope>,
    group: Group,
}

/// Plays a script, each line in the next way, and closes the node.
pub fn play_script<R: Print + Eprint + Wait>(
    rt: &R,
    alloc: Global,
    log: &mut Log,
    text: &str,
) -> Result<()> {
    let mut room = insisted(rt, "node", || Room::new(alloc, text))?;
    play_lines(rt, log, &mut room)?;
    put_closed(room.close(), log.begin())?;
    log.print(rt)
}

fn play_lines<R: Print + Eprint + Wait>(rt: &R, log: &mut Log, room: &mut Room<'_>) -> Result<()> {
    begin(rt, log, room)?;
    let script = room.script;
    for (place, line) in script.lines().enumerate() {
        if !is_quiet(line.as_bytes()) {
            let way = way_of(place);
            play(rt, log, room, Said { way, line })?;
        }
    }
    Ok(())
}

fn way_of(place: usize) -> Way {
    match place % 3 {
        0 => Way::PassCall,
        1 => Way::PassApply,
        _ => Way::SharedApply,
    }
}

fn opening(alloc: Global) -> Result<Opening, OutOfMemory> {
    let (Ok(name), Ok(cookie)) = (
        NodeName::parse(alloc, b"b@h"),
        Cookie::parse(alloc, b"password"),
    ) else {
        return Err(OutOfMemory);
    };
    Ok(Opening {
        name,
        cookie,
        hidden: false,
        creation: 1,
        entries: 1_000_000,
        links: 2,
    })
}

fn scopes(alloc: Global) -> Result<Vec<Scope>, OutOfMemory> {
    let mut scopes = Vec::new(alloc);
    for text in [b"pg".as_slice(), b"s".as_slice()] {
        let Ok(scope) = Scope::parse(alloc, text) else {
            return Err(OutOfMemory);
        };
        scopes.push(scope)?;
    }
    Ok(scopes)
}

/// What is looked up behind each call: the scopes, and a group of each.
fn looked_up(alloc: Global) -> Result<(Vec<Scope>, Group), OutOfMemory> {
    let scopes = scopes(alloc)?;
    match Group::parse(alloc, b"g") {
        Ok(group) => Ok((scopes, group)),
        Err(_) => Err(OutOfMemory),
    }
}

/// A node for two seats, with their passes.
pub fn new_node(alloc: Global) -> Result<(Node, Vec<Pass>), OutOfMemory> {
    match Node::new(alloc, opening(alloc)?, 2) {
        Ok(made) => Ok(made),
        Err(_) => Err(OutOfMemory),
    }
}

impl<'t> Room<'t> {
    pub fn new(alloc: Global, script: &'t str) -> Result<Room<'t>, OutOfMemory> {
        let (scopes, group) = looked_up(alloc)?;
        let (node, passes) = new_node(alloc)?;
        Ok(Room {
            script,
            alloc,
            node,
            passes,
            seat: 0,
            told: Told::Seat,
            scopes,
            group,
        })
    }

    fn close(self) -> Option<usize> {
        let Room { node, passes, .. } = self;
        close_node(node, passes)
    }

    fn told_of<R: Wait>(
        &mut self,
        rt: &R,
        way: Way,
        command: Command,
    ) -> Result<Told, OutOfMemory> {
        match command {
            Command::Step(event) => self.call(rt, way, event),
            Command::Seat(seat) => {
                self.seat = seat as usize;
                Ok(Told::Seat)
            }
            Command::Size => Ok(Told::Size),
            Command::Audit(number) => Ok(Told::Audit(number)),
        }
    }

    /// Calls the event for the seat that asks.
    fn call<R: Wait>(&mut self, rt: &R, way: Way, event: Event) -> Result<Told, OutOfMemory> {
        let Some(pass) = self.passes.get_mut(self.seat) else {
            return Ok(Told::Seat);
        };
        match called(rt, &self.node, pass, way, event) {
            None => Ok(Told::Reply),
            Some(CallFault::Core(CoreFault::OutOfMemory)) => Err(OutOfMemory),
            Some(fault) => Ok(Told::Fault(fault)),
        }
    }

    fn put_size<R: Wait>(&self, rt: &R, out: &mut Vec<u8>) -> Result<(), OutOfMemory> {
        let shared = self.node.shared.lock(rt);
        put_numbered_line("size ", shared.core().audit().len() as u64, out)
    }

    /// Adds the entry with this number.
    fn put_asked<R: Wait>(
        &self,
        rt: &R,
        number: u32,
        out: &mut Vec<u8>,
    ) -> Result<(), OutOfMemory> {
        let shared = self.node.shared.lock(rt);
        put_found(shared.core().audit(), number, out)
    }

    fn put_reply(&self, out: &mut Vec<u8>) -> Result<(), OutOfMemory> {
        let Some(call) = self
            .passes
            .get(self.seat)
            .and_then(|pass| pass.calls().last())
        else {
            return put_word("no call\n", out);
        };
        match &call.verdict {
            Verdict::Accepted(reply) => put_accepted(self.alloc, reply, out),
            Verdict::Refused(_) => put_word("no reply\n", out),
        }
    }
}

/// Calls the event in this way: why there is no reply, if there is none.
fn called<R: Wait>(
    rt: &R,
    node: &Node,
    pass: &mut Pass,
    way: Way,
    event: Event,
) -> Option<CallFault> {
    match way {
        Way::PassCall => pass.call(node, rt, event).err(),
        Way::PassApply => {
            let mut shared = node.shared.lock(rt);
            pass.apply(&mut shared, event).err()
        }
        Way::SharedApply => {
            let mut shared = node.shared.lock(rt);
            shared.apply(pass, event).err()
        }
    }
}

impl<'t> Subject for Room<'t> {
    type Deed = Said<'t>;

    fn make<R: Wait>(&mut self, rt: &R, deed: Said<'t>) -> Result<(), OutOfMemory> {
        let command = command_of(self.alloc, deed.line.as_bytes())?;
        self.told = self.told_of(rt, deed.way, command)?;
        Ok(())
    }

    fn tell<R: Wait>(&self, rt: &R, out: &mut Vec<u8>) -> Result<(), OutOfMemory> {
        match self.told {
            Told::Reply => self.put_reply(out),
            Told::Fault(CallFault::Core(fault)) => put_unanswered(fault, out),
            Told::Fault(CallFault::StrangePass) => put_word("strange pass\n", out),
            Told::Seat => put_word("ok\n", out),
            Told::Size => self.put_size(rt, out),
            Told::Audit(number) => self.put_asked(rt, number, out),
        }
    }

    fn show<R: Wait>(&self, rt: &R, out: &mut Vec<u8>) -> Result<(), OutOfMemory> {
        for pass in &self.passes {
            put_number("calls ", pass.calls().len() as u64, out)?;
            put_word(", ", out)?;
        }
        let shared = self.node.shared.lock(rt);
        put_core(self.alloc, shared.core(), &self.scopes, &self.group, out)
    }
}

/// Adds what the readers of a node answer.
fn put_core(
    alloc: Global,
    core: &NodeCore,
    scopes: &[Scope],
    group: &Group,
    out: &mut Vec<u8>,
) -> Result<(), OutOfMemory> {
    put_number("entries ", core.audit().len() as u64, out)?;
    put_number(", creation ", u64::from(core.creation()), out)?;
    put_word(", up", out)?;
    for peer in core.peers()?.as_slice() {
        put_word(" ", out)?;
        put_bytes(peer.as_bytes(), out)?;
    }
    put_links(core, out)?;
    for scope in scopes {
        put_looks(alloc, core, scope, group, out)?;
    }
    Ok(())
}

/// Adds each kept link with what it awaits, and how many frames wait for it.
fn put_links(core: &NodeCore, out: &mut Vec<u8>) -> Result<(), OutOfMemory> {
    for kept in &core.links()? {
        let waiting = core.waiting(kept.link).unwrap_or(0);
        put_link(kept, waiting, out)?;
    }
    Ok(())
}

fn put_link(kept: &Awaiting, waiting: usize, out: &mut Vec<u8>) -> Result<(), OutOfMemory> {
    let (link, frame) = (kept.link, &kept.frame);
    match write!(out, ", {link} awaits {frame:?}, {waiting} wait") {
        Ok(()) => Ok(()),
        Err(_) => Err(OutOfMemory),
    }
}

/// Adds a line for each query of a scope.
fn put_looks(
    alloc: Global,
    core: &NodeCore,
    scope: &Scope,
    group: &Group,
    out: &mut Vec<u8>,
) -> Result<(), OutOfMemory> {
    for query in [
        Query::Members(group),
        Query::LocalMembers(group),
        Query::Groups,
        Query::LocalGroups,
    ] {
        put_look(alloc, core, scope, query, out)?;
    }
    Ok(())
}

fn put_look(
    alloc: Global,
    core: &NodeCore,
    scope: &Scope,
    query: Query<'_>,
    out: &mut Vec<u8>,
) -> Result<(), OutOfMemory> {
    put_looked(alloc, &core.look(scope, query), out)
}

fn put_looked(
    alloc: Global,
    looked: &Result<Reply, CoreFault>,
    out: &mut Vec<u8>,
) -> Result<(), OutOfMemory> {
    if let Err(CoreFault::OutOfMemory) = looked {
        return Err(OutOfMemory);
    }
    put_word("\n= ", out)?;
    put_step(alloc, looked, out)?;
    trim(out);
    Ok(())
}

/// Takes the line feed from the end.
fn trim(out: &mut Vec<u8>) {
    if out.last() == Some(&b'\n') {
        out.pop();
    }
}

/// Closes a node: how many entries it has, if it is closed.
pub fn close_node(node: Node, passes: Vec<Pass>) -> Option<usize> {
    entries_of(&node.close(passes))
}

fn entries_of(end: &Result<Closed, CloseFault>) -> Option<usize> {
    match end {
        Ok(closed) => Some(closed.core.audit().len()),
        Err(_) => None,
    }
}

fn put_closed(entries: Option<usize>, out: &mut Vec<u8>) -> Result<(), OutOfMemory> {
    match entries {
        Some(count) => put_numbered_line("closed ", count as u64, out),
        None => put_word("not closed\n", out),
    }
}
