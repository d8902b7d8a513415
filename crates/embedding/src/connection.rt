//! One link of a node, over a stream of bytes.
ghost use Rattle.std.specs.Prelude.{◌<◌, ◌≤◌, IfOk, length};

use anyhow::{Result, bail};
use dist_types::Body;
use handshake_frames::{Fed, HsReader};
use link_frames::LinkReader;
use node_core::{CoreFault, NodeCore};
use policy_audit::{Event, Reply, Rule};
use std::alloc::Global;

/// The caller in whose name links are kept.
const SEAT: u32 = 0;

/// What cuts the stream into the bodies of frames.
#[derive(Drop)]
enum Reader {
    /// Up to the frame that is answered `Up`: lengths have 2 bytes.
    Handshake(HsReader),
    /// From the byte behind that frame on: lengths have 4 bytes.
    Messages(LinkReader),
}

/// What is to be done with a stream of which bytes were taken.
#[derive(Clone, Copy, PartialEq, Eq)]
pub enum Fate {
    GoOn,
    /// What still waits is sent, and then the stream is closed.
    Close,
}

/// A link of a node, over a stream of bytes.
#[derive(Drop)]
pub struct Connection {
    alloc: Global,
    link: u32,
    reader: Reader,
}

impl Connection {
    /// The link that the event opens: a `Dial` or an `Opened`.
    pub fn open(alloc: Global, node: &mut NodeCore, event: Event) -> Result<Connection> {
        let Reply::Link(link) = node.step(SEAT, event)? else {
            bail!("the event opens no link");
        };
        Ok(Connection {
            alloc,
            link,
            reader: Reader::Handshake(HsReader::new(alloc)),
        })
    }

    /// Hands the node each frame that ends in these bytes, which came over the stream.
    pub fn receive(&mut self, node: &mut NodeCore, bytes: &[u8]) -> Result<Fate> {
        let mut left = bytes;
        while !left.is_empty() {
            let fed = self.reader.feed(left)?;
            left = &left[fed.used..];
            if let Some(body) = fed.body
                && self.hear(node, body)? == Fate::Close
            {
                return Ok(Fate::Close);
            }
        }
        Ok(Fate::GoOn)
    }

    /// Hands the node one frame.
    fn hear(&mut self, node: &mut NodeCore, body: Body) -> Result<Fate> {
        match node.step(SEAT, Event::Frame(self.link, body)) {
            Ok(Reply::Up { .. }) => {
                self.reader = Reader::Messages(LinkReader::new(self.alloc));
                Ok(Fate::GoOn)
            }
            Ok(_) => Ok(Fate::GoOn),
            Err(CoreFault::Refused(rule)) => Ok(self.fate(rule)),
            Err(CoreFault::OutOfMemory) => bail!("a frame found no memory"),
        }
    }

    /// A refused frame ends an unfinished handshake. A link that is up stays up.
    fn fate(&self, rule: Rule) -> Fate {
        match (&self.reader, rule) {
            (Reader::Handshake(_), _) => Fate::Close,
            (Reader::Messages(_), Rule::EntriesFull | Rule::NoSuchLink) => Fate::Close,
            (Reader::Messages(_), _) => Fate::GoOn,
        }
    }

    /// The bytes that the node owes to the stream. There are none where the node has given the link
    /// up: the stream is closed.
    pub fn owed(&self, node: &mut NodeCore) -> Result<Option<Vec<u8>>> {
        let mut out = Vec::new(self.alloc);
        match node.waiting(self.link) {
            None => return Ok(None),
            // A `Take` is an entry of the audit, also where nothing waits.
            Some(0) => return Ok(Some(out)),
            Some(_) => {}
        }
        let Reply::Out(frames) = node.step(SEAT, Event::Take(self.link))? else {
            bail!("no frames were handed over");
        };
        for frame in frames.as_slice() {
            frame.wire(&mut out)?;
        }
        Ok(Some(out))
    }

    /// Tells the node that the stream is gone.
    pub fn lose(&self, node: &mut NodeCore) -> Result<()> {
        node.step(SEAT, Event::Lost(self.link))?;
        Ok(())
    }
}

impl Reader {
    /// Uses the bytes up to the end of one body at most.
    fn feed(&mut self, bytes: &[u8]) -> Result<Fed>
        requires { 0 < length bytes.now }
        ensures { IfOk result (λ fed. (0 < fed.used) × (fed.used ≤ length bytes.now)) }
    {
        match self {
            Reader::Handshake(reader) => Ok(reader.feed(bytes)?),
            Reader::Messages(reader) => Ok(reader.feed(bytes)?),
        }
    }
}
