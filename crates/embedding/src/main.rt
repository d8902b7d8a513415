//! Two nodes in one process, joined by streams of bytes that are cut at odd places. A process of
//! the one is listed at the other while the link is up, and no longer once it is lost.
#![tactic(auto)]

mod connection;

use anyhow::{Result, bail};
use connection::{Connection, Fate};
use dist_types::{Cookie, Group, Items, NodeName, Scope};
use node_core::{NodeCore, Query};
use policy_audit::{Event, Opening, Reply};
use std::alloc::Global;
use std::str;

/// The bytes of a piece: frames begin and end anywhere in it.
const PIECE: usize = 7;

/// The most turns of an exchange.
const TURNS: u32 = 16;

/// A node, with its end of the link.
#[derive(Drop)]
struct End {
    alloc: Global,
    node: NodeCore,
    connection: Connection,
}

fn main(rt: HostRuntime) -> Result<()> {
    let alloc = rt.alloc();
    // Challenges are constants here. A node in use draws each from a source that nobody can
    // foresee.
    let dial = Event::Dial(NodeName::parse(alloc, b"b@h")?, 1234);
    let mut dialler = End::open(alloc, b"a@h", dial)?;
    let mut acceptor = End::open(alloc, b"b@h", Event::Opened(5678))?;
    acceptor.join_one()?;

    println!(rt; "at first")?;
    dialler.show(&rt)?;
    exchange(&mut dialler, &mut acceptor)?;
    println!(rt; "linked")?;
    dialler.show(&rt)?;
    dialler.connection.lose(&mut dialler.node)?;
    println!(rt; "lost")?;
    dialler.show(&rt)
}

impl End {
    /// A node of that name, and the link that the event opens.
    fn open(alloc: Global, name: &[u8], event: Event) -> Result<End> {
        let mut node = started(alloc, name)?;
        let connection = Connection::open(alloc, &mut node, event)?;
        Ok(End {
            alloc,
            node,
            connection,
        })
    }

    /// A new process of the node joins the group.
    fn join_one(&mut self) -> Result<()> {
        let Reply::Pid(pid) = self.node.step(0, Event::Spawn)? else {
            bail!("there is no process");
        };
        let pids = Items::of(vec![in self.alloc; pid]?);
        let join = Event::Join(scope(self.alloc)?, group(self.alloc)?, pids);
        self.node.step(0, join)?;
        Ok(())
    }

    /// Takes the bytes of the other end, in pieces.
    fn receive(&mut self, bytes: &[u8]) -> Result<()> {
        for piece in bytes.chunks(PIECE) {
            if self.connection.receive(&mut self.node, piece)? == Fate::Close {
                bail!("the link has ended");
            }
        }
        Ok(())
    }

    /// The bytes for the other end.
    fn owed(&mut self) -> Result<Vec<u8>> {
        let Some(bytes) = self.connection.owed(&mut self.node)? else {
            bail!("the link has ended");
        };
        Ok(bytes)
    }

    /// Prints who is listed in the group. To look makes no entry in the audit.
    fn show(&self, rt: &impl Print) -> Result<()> {
        let group = group(self.alloc)?;
        let Reply::Pids(pids) = self.node.look(&scope(self.alloc)?, Query::Members(&group))? else {
            bail!("no processes were listed");
        };
        for pid in pids.as_slice() {
            println!(rt; "  {}/{}/{}", pid.node.as_str(), pid.creation, pid.number)?;
        }
        Ok(())
    }
}

/// Carries what each end owes to the other, until neither owes anything.
fn exchange(one: &mut End, other: &mut End) -> Result<()> {
    for _ in 0..TURNS {
        let there = one.owed()?;
        other.receive(there.as_slice())?;
        let back = other.owed()?;
        one.receive(back.as_slice())?;
        if there.is_empty() && back.is_empty() {
            return Ok(());
        }
    }
    bail!("the ends do not come to rest")
}

/// A node of that name with the scope `pg`.
fn started(alloc: Global, name: &[u8]) -> Result<NodeCore> {
    let mut node = NodeCore::new(alloc, opening(alloc, name)?)?;
    node.step(0, Event::StartScope(scope(alloc)?))?;
    Ok(node)
}

fn opening(alloc: Global, name: &[u8]) -> Result<Opening> {
    Ok(Opening {
        name: NodeName::parse(alloc, name)?,
        cookie: Cookie::parse(alloc, b"password")?,
        hidden: false,
        creation: 1,
        entries: 1_000,
        links: 1,
    })
}

fn scope(alloc: Global) -> Result<Scope> {
    Ok(Scope::parse(alloc, b"pg")?)
}

fn group(alloc: Global) -> Result<Group> {
    Ok(Group::parse(alloc, b"workers")?)
}
