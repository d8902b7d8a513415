//! Both workers of a link.
ghost use Rattle.std.specs.Prelude.{◌≡◌};
ghost use Rattle.node_threads.specs.Serving.{HasRead, HasWritten};

use crate::ends::{Gate, LinkOut, ReadEnd, WriteEnd};
use crate::node::Node;
use crate::pass::Pass;
use crate::reading::read_to_end;
use crate::work::LinkWork;
use crate::writing::write_to_end;
use std::alloc::Global;
use std::io::Read;
use std::sync::Wait;
use std::thread;
use std::thread::Threads;

/// The passes that serve one link.
#[derive(Debug, Drop)]
pub struct Pair {
    /// It opens the link, and reads.
    pub reader: Pass,
    pub writer: Pass,
}

/// A link that was opened or dialled, and both sides of its connection.
#[derive(Drop)]
pub struct Connection<I, W> {
    pub link: u32,
    pub input: I,
    pub output: W,
}

impl<I, W> Connection<I, W> {
    /// The connection of this link.
    pub fn new(link: u32, input: I, output: W) -> Connection<I, W>
        ensures { (result.link ≡ link) × (result.input ≡ input) × (result.output ≡ output) }
    {
        Connection {
            link,
            input,
            output,
        }
    }
}

/// The passes of a link that has ended, and why both its workers stopped.
#[derive(Debug, Drop)]
pub struct ServedLink {
    pub pair: Pair,
    pub read: ReadEnd,
    pub written: WriteEnd,
}

/// Serves a link until both workers have ended: one reads on this thread, one writes on a thread of
/// its own. Where no thread can be made the writer runs after the reader.
pub fn serve_link<R, I, W, G>(
    rt: &R,
    alloc: Global,
    node: &Node,
    pair: Pair,
    connection: Connection<I, W>,
    gate: &G,
) -> ServedLink
where
    R: Threads + Wait + Sync,
    I: Read + Drop,
    W: LinkOut + Send + Drop,
    G: Gate,
    ensures read { HasRead connection.link pair.reader (I.remaining connection.input) result.read
        result.pair.reader }
    ensures written { HasWritten connection.link pair.writer (W.contents connection.output)
        result.written result.pair.writer }
{
    let Pair { reader, writer } = pair;
    let Connection {
        link,
        input,
        output,
    } = connection;
    let work = LinkWork {
        rt,
        alloc,
        node,
        link,
    };
    let work = &work;
    let (wrote, has_read) = thread::join(
        rt,
        move || write_side(work, writer, output),
        move || read_side(work, reader, input, gate),
    );
    ServedLink {
        pair: Pair {
            reader: has_read.0,
            writer: wrote.0,
        },
        read: has_read.1,
        written: wrote.1,
    }
}

fn read_side<R: Wait, I: Read + Drop, G: Gate>(
    work: &LinkWork<'_, R>,
    mut pass: Pass,
    mut input: I,
    gate: &G,
) -> (Pass, ReadEnd)
    ensures { HasRead work.now.link pass (I.remaining input) result.1 result.0 }
{
    let end = read_to_end(work, &mut pass, &mut input, gate);
    (pass, end)
}

fn write_side<R: Wait, W: LinkOut + Drop>(
    work: &LinkWork<'_, R>,
    mut pass: Pass,
    mut output: W,
) -> (Pass, WriteEnd)
    ensures { HasWritten work.now.link pass (W.contents output) result.1 result.0 }
{
    let end = write_to_end(work, &mut pass, &mut output);
    (pass, end)
}
