//! Two nodes in one process, linked over the loopback: each has a process in one group, and lists
//! that of the other.
use crate::asking::{ask, watch};
use crate::sockets::{connected, second_of};
use anyhow::{Error, Result, bail};
use cookie_digest::ChallengeSource;
use dist_types::{Cookie, NodeName, TextFault};
use node_threads::{Connection, Node, OpenGate, Pair, Pass, serve_link};
use policy_audit::{Event, Opening, Reply};
use rand_chacha::ChaCha20Rng;
use rand_core::SeedableRng;
use std::alloc::Global;
use std::io::Write;
use std::net::{Net, Shutdown, TcpListener, TcpStream};
use std::sync::Wait;
use std::thread;
use std::thread::Threads;
use std::time::Clock;

/// What the challenges are drawn with. They are the same in each run: nobody else speaks on this
/// link.
const KEY: [u8; 32] = [0; 32];

/// How the two nodes parted.
#[derive(Drop)]
pub enum PairEnd {
    /// Each node has listed both processes, and is closed.
    Done,
    /// A node didn't list both processes in time.
    Late,
    /// A fault of a socket, a thread, a node, memory or the writer.
    Failed(Error),
}

/// A node with a process in the group, the pass that asks it, and those that serve its link.
struct Member {
    node: Node,
    caller: Pass,
    pair: Pair,
}

/// Lets go of a node in one call, so that the proof of a caller has one step for it.
impl Drop for Member {
    fn drop(self) {
        let Member {
            node: _,
            caller: _,
            pair: _,
        } = self;
    }
}

impl Member {
    fn into_parts(self) -> (Node, Pass, Pair) {
        let Member { node, caller, pair } = self;
        (node, caller, pair)
    }

    /// Closes the node with all its passes.
    fn close(self, alloc: Global) -> Result<()> {
        let Member { node, caller, pair } = self;
        let passes = vec![in alloc; caller, pair.reader, pair.writer]?;
        if let Err(fault) = node.close(passes) {
            bail!("the node is not closed: {}", fault.rule);
        }
        Ok(())
    }
}

/// The node that dials, and the other one.
struct Both {
    near: Member,
    far: Member,
}

impl Drop for Both {
    fn drop(self) {
        let Both { near: _, far: _ } = self;
    }
}

impl Both {
    fn into_parts(self) -> (Member, Member) {
        let Both { near, far } = self;
        (near, far)
    }
}

/// Both ends of the link, and a handle of its socket that cuts it.
#[derive(Drop)]
struct Wire {
    near: Connection<TcpStream, TcpStream>,
    far: Connection<TcpStream, TcpStream>,
    hook: TcpStream,
}

/// Links the nodes a@h and b@h over 127.0.0.1, until each lists the process of the other, and parts
/// and closes them. It writes a line for whom each node has seen and one for each that is closed,
/// or the line `late`.
pub fn pair<R, W>(rt: &R, writer: &mut W) -> PairEnd
where
    R: AllocGlobal
        + Net<Listener = TcpListener, Stream = TcpStream>
        + Threads
        + Wait
        + Clock
        + Sync,
    W: Write,
{
    match meet(rt, rt.alloc(), writer) {
        Ok(true) => PairEnd::Done,
        Ok(false) => PairEnd::Late,
        Err(error) => PairEnd::Failed(error),
    }
}

/// Whether each node has listed both processes in time.
fn meet<R, W>(rt: &R, alloc: Global, writer: &mut W) -> Result<bool>
where
    R: Net<Listener = TcpListener, Stream = TcpStream> + Threads + Wait + Clock + Sync,
    W: Write,
{
    let mut both = start_both(rt, alloc)?;
    let wire = link_both(rt, alloc, &mut both)?;
    let (both, seen) = run_both(rt, alloc, both, wire);
    match tell_seen(writer, seen) {
        Ok(true) => close_both(alloc, writer, both),
        told => told,
    }
}

/// Serves both ends of the link, until each node has listed both processes or one didn't in time.
fn run_both<R: Threads + Wait + Clock + Sync>(
    rt: &R,
    alloc: Global,
    both: Both,
    wire: Wire,
) -> (Both, Result<Option<Vec<u8>>>) {
    let (near, far) = both.into_parts();
    let (a, mut first, near) = near.into_parts();
    let (b, mut second, far) = far.into_parts();
    let Wire {
        near: out,
        far: back,
        hook,
    } = wire;
    let ((near, far), seen) = thread::join(
        rt,
        || serve_both(rt, alloc, (&a, near, out), (&b, far, back)),
        || watch_and_cut(rt, alloc, (&a, &mut first), (&b, &mut second), &hook),
    );
    let near = Member {
        node: a,
        caller: first,
        pair: near,
    };
    let far = Member {
        node: b,
        caller: second,
        pair: far,
    };
    (Both { near, far }, seen)
}

fn watch_and_cut<R: Wait + Clock + Sync>(
    rt: &R,
    alloc: Global,
    first: (&Node, &mut Pass),
    second: (&Node, &mut Pass),
    hook: &TcpStream,
) -> Result<Option<Vec<u8>>> {
    let mut text = Vec::new(alloc);
    let seen = watch(rt, alloc, first, second, &mut text);
    // Both workers of both nodes end with the socket, whatever was seen.
    hook.shutdown(Shutdown::Both).ok();
    match seen {
        Ok(true) => Ok(Some(text)),
        Ok(false) => Ok(None),
        Err(error) => Err(error),
    }
}

/// Joins both nodes by a socket.
fn link_both<R>(rt: &R, alloc: Global, both: &mut Both) -> Result<Wire>
where
    R: Net<Listener = TcpListener, Stream = TcpStream> + Wait + Sync,
{
    let (near, far) = challenges();
    let dial = dial(alloc, near)?;
    let (out, back, hook) = connected(rt)?;
    let near = link(rt, &mut both.near, dial, out)?;
    let far = link(rt, &mut both.far, Event::Opened(far), back)?;
    Ok(Wire { near, far, hook })
}

/// Those of the end that dials, and of the other one.
fn challenges() -> (u32, u32) {
    let mut source = ChallengeSource::new(ChaCha20Rng::from_seed(KEY));
    let near = source.draw();
    (near, source.draw())
}

fn dial(alloc: Global, challenge: u32) -> Result<Event, TextFault> {
    let peer = NodeName::parse(alloc, b"b@h")?;
    Ok(Event::Dial(peer, challenge))
}

fn start_both<R: Wait + Sync>(rt: &R, alloc: Global) -> Result<Both> {
    let near = start(rt, alloc, b"a@h", "join pg g a@h/1/1")?;
    let far = start(rt, alloc, b"b@h", "join pg g b@h/1/1")?;
    Ok(Both { near, far })
}

/// A node of that name, whose process joins the group by this line.
fn start<R: Wait + Sync>(rt: &R, alloc: Global, name: &[u8], join: &'static str) -> Result<Member> {
    let (node, passes) = Node::new(alloc, opening(alloc, name)?, 3)?;
    let Some((mut caller, pair)) = seats_of(passes) else {
        bail!("a node without passes");
    };
    let joined = join_group(rt, alloc, &node, &mut caller, join);
    let member = Member { node, caller, pair };
    joined?;
    Ok(member)
}

fn seats_of(passes: Vec<Pass>) -> Option<(Pass, Pair)> {
    let mut passes = passes;
    let writer = passes.pop()?;
    let reader = passes.pop()?;
    Some((passes.pop()?, Pair { reader, writer }))
}

fn opening(alloc: Global, name: &[u8]) -> Result<Opening, TextFault> {
    Ok(Opening {
        name: NodeName::parse(alloc, name)?,
        cookie: Cookie::parse(alloc, b"password")?,
        hidden: false,
        creation: 1,
        entries: 1_000_000,
        links: 1,
    })
}

/// Spawns a process, which joins the group by this line.
fn join_group<R: Wait + Sync>(
    rt: &R,
    alloc: Global,
    node: &Node,
    caller: &mut Pass,
    join: &'static str,
) -> Result<()> {
    for line in ["start pg", "spawn", join] {
        ask(rt, alloc, node, caller, line)?;
    }
    Ok(())
}

/// An end of the link that the event opens over this socket.
fn link<R: Wait + Sync>(
    rt: &R,
    member: &mut Member,
    event: Event,
    input: TcpStream,
) -> Result<Connection<TcpStream, TcpStream>> {
    let link = open_link(rt, member, event)?;
    let output = second_of(&input)?;
    Ok(Connection {
        link,
        input,
        output,
    })
}

/// The number of the link that the event opens.
fn open_link<R: Wait + Sync>(rt: &R, member: &mut Member, event: Event) -> Result<u32> {
    match member.pair.reader.call(&member.node, rt, event)? {
        Reply::Link(link) => Ok(*link),
        _ => bail!("no link"),
    }
}

/// A node at its end of the link.
type End<'a> = (&'a Node, Pair, Connection<TcpStream, TcpStream>);

/// Serves an end until the link has ended.
fn serve<R: Threads + Wait + Sync>(rt: &R, alloc: Global, end: End<'_>) -> Pair {
    let (node, pair, connection) = end;
    serve_link(rt, alloc, node, pair, connection, &OpenGate).pair
}

/// Serves both ends until the link has ended.
fn serve_both<R: Threads + Wait + Sync>(
    rt: &R,
    alloc: Global,
    near: End<'_>,
    far: End<'_>,
) -> (Pair, Pair) {
    thread::join(
        rt,
        move || serve(rt, alloc, near),
        move || serve(rt, alloc, far),
    )
}

/// Writes whom each node has seen, or that one didn't see both in time: whether both did.
fn tell_seen<W: Write>(writer: &mut W, seen: Result<Option<Vec<u8>>>) -> Result<bool> {
    let seen = seen?;
    match &seen {
        Some(text) => writer.write_all(text.as_slice())?,
        None => writer.write_all(b"late\n")?,
    }
    Ok(seen.is_some())
}

/// Closes both nodes, and writes that.
fn close_both<W: Write>(alloc: Global, writer: &mut W, both: Both) -> Result<bool> {
    let (near, far) = both.into_parts();
    near.close(alloc)?;
    writer.write_all(b"a@h closed\n")?;
    far.close(alloc)?;
    writer.write_all(b"b@h closed\n")?;
    Ok(true)
}
