//! Texts, frames and messages: the readers of both streams, and what is written.
use crate::calls::{Log, Subject, play_all};
use crate::rows::{put_hex, step_of};
use anyhow::Result;
use dist_types::{
    Body, Cookie, Group, NodeName, OutOfMemory, Pid, Scope, Shared, TextFault, TryClone,
};
use handshake_frames::{Fed, HsFrame, HsReader, StatusWord};
use link_frames::{FeedFault, LinkReader, Message, Message2, MessageFault, Parts, Undo};
use policy_audit::{Event, OutFrame};
use std::alloc::Global;
use std::io::Write;
use std::sync::Wait;

type Bytes = &'static [u8];

/// A body of fewer bytes fits behind a length of 2 bytes.
const MOST_WIRED: usize = 1 << 16;

/// What is done.
#[derive(Clone, Copy, Debug)]
enum Deed {
    Name(Bytes),
    Cookie(Bytes),
    Scope(Bytes),
    Group(Bytes),
    /// A list of two processes, and the copy that shares it.
    Share,
    /// The event of a line, and a copy of it.
    Copy(&'static str),
    /// A piece of the stream of a handshake.
    Handshake(Bytes),
    /// A piece of the stream behind it.
    Messages(Bytes),
    Read(Bytes),
    ReadPart(Bytes),
    /// Keeps the part that these bytes are.
    Gather(Bytes),
    /// Keeps it, and takes it back.
    TakeBack(Bytes),
    /// Cuts the message that these bytes are into parts.
    Cut(Bytes),
    /// Appends the message that these bytes are.
    Write(Bytes),
    /// Appends a status.
    WriteStatus,
    /// Appends a frame with its length, of 4 bytes where it is wide.
    Wire(bool, Bytes),
    /// Appends the part that these bytes are.
    WritePart(Bytes),
}

const FIRST_PART: Bytes =
    b"J\x02pg\x00\x00\x00\x01\x00\x00\x00\x00\x01\x01g\x00\x03a@h\x00\x00\x00\x01\x00\x00\x00\x00\x00\x00\x00\x07";

const NEXT_PART: Bytes =
    b"J\x02pg\x00\x00\x00\x02\x01\x00\x00\x00\x01\x01g\x00\x03a@h\x00\x00\x00\x01\x00\x00\x00\x00\x00\x00\x00\x08";

static DEEDS: [Deed; 37] = [
    Deed::Name(b"a@h"),
    Deed::Name(b"a"),
    Deed::Cookie(b"password"),
    Deed::Scope(b"pg"),
    Deed::Group(b""),
    Deed::Group(b"g"),
    Deed::Share,
    Deed::Copy("allow a@h c@h"),
    Deed::Copy("join pg g b@h/1/1 b@h/1/2"),
    Deed::Copy("cookie_for a@h other"),
    Deed::Copy("frame 1 736f6b"),
    Deed::Handshake(b"\x00"),
    Deed::Handshake(b"\x03so"),
    Deed::Handshake(b"k\x00\x01"),
    Deed::Handshake(b"\x00\x01x\x00"),
    Deed::Handshake(b""),
    Deed::Messages(b"\x00\x00\x00\x00\x00\x00\x00"),
    Deed::Messages(b"\x04D\x02"),
    Deed::Messages(b"pg\x00\x00\x00\x00\x00"),
    Deed::Messages(b"\x00\x00\x00\x00\x00"),
    Deed::Messages(b"\x00\x00\x04X\x02pg"),
    Deed::Messages(b"\x7f\x00\x00\x00"),
    Deed::Messages(b"\x00"),
    Deed::Read(b"D\x02pgx"),
    Deed::Read(
        b"J\x02pg\x00\x00\x00\x01\x01g\x00\x03a@h\x00\x00\x00\x01\x00\x00\x00\x00\x00\x00\x00\x07",
    ),
    Deed::ReadPart(NEXT_PART),
    Deed::ReadPart(b"S\x02pg\x00\x00\x00\x00\x01\x00\x00\x00\x00"),
    Deed::Gather(FIRST_PART),
    Deed::TakeBack(NEXT_PART),
    Deed::Gather(NEXT_PART),
    Deed::TakeBack(FIRST_PART),
    Deed::Cut(
        b"L\x02pg\x00\x00\x00\x01\x01g\x00\x03a@h\x00\x00\x00\x01\x00\x00\x00\x00\x00\x00\x00\x07",
    ),
    Deed::Write(b"D\x02pg"),
    Deed::Write(
        b"L\x02pg\x00\x00\x00\x01\x01g\x00\x03a@h\x00\x00\x00\x01\x00\x00\x00\x00\x00\x00\x00\x07",
    ),
    Deed::WriteStatus,
    Deed::Wire(true, b"D\x02pg"),
    Deed::WritePart(NEXT_PART),
];

/// What was answered.
#[derive(Debug, Drop)]
enum Answer {
    Done,
    Text(Result<(), TextFault>),
    Shared(Shared<Pid>, Shared<Pid>),
    Copied(bool),
    Fed(Fed),
    NotFed(FeedFault),
    Read(Message),
    ReadPart(Message2),
    NotRead(MessageFault),
    /// How many rows are kept.
    Gathered(usize),
    /// How many rows were kept with the part, and without it.
    TakenBack(usize, usize),
    Cut(Vec<Body>),
}

/// The readers of two streams, the parts that were gathered, what was written, and what was
/// answered last.
#[derive(Drop)]
struct Desk {
    alloc: Global,
    handshake: HsReader,
    messages: LinkReader,
    parts: Parts,
    written: Vec<u8>,
    answer: Answer,
}

pub fn play<R: Print + Eprint + Wait>(rt: &R, alloc: Global, log: &mut Log) -> Result<()> {
    let mut desk = Desk {
        alloc,
        handshake: HsReader::new(alloc),
        messages: LinkReader::new(alloc),
        parts: Parts::new(),
        written: Vec::new(alloc),
        answer: Answer::Done,
    };
    play_all(rt, log, &mut desk, &DEEDS)
}

impl Subject for Desk {
    type Deed = Deed;

    fn make<R: Wait>(&mut self, _rt: &R, deed: Deed) -> Result<(), OutOfMemory> {
        self.answer = self.answer_to(deed)?;
        Ok(())
    }

    fn tell<R: Wait>(&self, _rt: &R, out: &mut Vec<u8>) -> Result<(), OutOfMemory> {
        match writeln!(out, "{:?}", self.answer) {
            Ok(()) => Ok(()),
            Err(_) => Err(OutOfMemory),
        }
    }

    fn show<R: Wait>(&self, _rt: &R, out: &mut Vec<u8>) -> Result<(), OutOfMemory> {
        match write!(
            out,
            "{:?} {:?} {:?} ",
            self.handshake, self.messages, self.parts
        ) {
            Ok(()) => put_hex(self.written.as_slice(), out),
            Err(_) => Err(OutOfMemory),
        }
    }
}

fn parsed<T: Drop>(text: Result<T, TextFault>) -> Result<Answer, OutOfMemory> {
    match text {
        Ok(_) => Ok(Answer::Text(Ok(()))),
        Err(TextFault::OutOfMemory) => Err(OutOfMemory),
        Err(fault) => Ok(Answer::Text(Err(fault))),
    }
}

fn shared(alloc: Global) -> Result<Answer, OutOfMemory> {
    let list = Shared::of(pids(alloc)?)?;
    let copy = list.try_clone(alloc)?;
    Ok(Answer::Shared(list, copy))
}

fn pids(alloc: Global) -> Result<Vec<Pid>, OutOfMemory> {
    match NodeName::parse(alloc, b"a@h") {
        Ok(node) => pids_of(alloc, &node),
        Err(_) => Err(OutOfMemory),
    }
}

/// The first two processes of a node.
fn pids_of(alloc: Global, node: &NodeName) -> Result<Vec<Pid>, OutOfMemory> {
    let mut pids = Vec::new(alloc);
    for number in [1, 2] {
        pids.push(pid(alloc, node, number)?)?;
    }
    Ok(pids)
}

fn pid(alloc: Global, node: &NodeName, number: u64) -> Result<Pid, OutOfMemory> {
    Ok(Pid {
        node: node.try_clone(alloc)?,
        creation: 1,
        number,
    })
}

fn copied(alloc: Global, line: &str) -> Result<Answer, OutOfMemory> {
    let event = step_of(alloc, line.as_bytes())?;
    compared(alloc, &event)
}

/// Whether a copy of the event is the event.
fn compared(alloc: Global, event: &Event) -> Result<Answer, OutOfMemory> {
    let copy = event.try_clone(alloc)?;
    Ok(Answer::Copied(is_same(event, &copy)))
}

fn is_same(event: &Event, copy: &Event) -> bool {
    *event == *copy
}

fn read(alloc: Global, body: &[u8]) -> Result<Answer, OutOfMemory> {
    match link_frames::decode(alloc, body) {
        Ok(message) => Ok(Answer::Read(message)),
        Err(MessageFault::OutOfMemory) => Err(OutOfMemory),
        Err(fault) => Ok(Answer::NotRead(fault)),
    }
}

fn read_part(alloc: Global, body: &[u8]) -> Result<Answer, OutOfMemory> {
    match link_frames::decode_v2(alloc, body) {
        Ok(part) => Ok(Answer::ReadPart(part)),
        Err(MessageFault::OutOfMemory) => Err(OutOfMemory),
        Err(fault) => Ok(Answer::NotRead(fault)),
    }
}

fn cut(alloc: Global, body: &[u8]) -> Result<Answer, OutOfMemory> {
    match link_frames::decode(alloc, body) {
        Ok(message) => Ok(Answer::Cut(link_frames::encode_parts(alloc, &message)?)),
        Err(MessageFault::OutOfMemory) => Err(OutOfMemory),
        Err(fault) => Ok(Answer::NotRead(fault)),
    }
}

impl Desk {
    fn answer_to(&mut self, deed: Deed) -> Result<Answer, OutOfMemory> {
        match deed {
            Deed::Name(text) => parsed(NodeName::parse(self.alloc, text)),
            Deed::Cookie(text) => parsed(Cookie::parse(self.alloc, text)),
            Deed::Scope(text) => parsed(Scope::parse(self.alloc, text)),
            Deed::Group(text) => parsed(Group::parse(self.alloc, text)),
            Deed::Share => shared(self.alloc),
            Deed::Copy(line) => copied(self.alloc, line),
            Deed::Handshake(piece) => self.shake(piece),
            Deed::Messages(piece) => self.feed(piece),
            Deed::Read(body) => read(self.alloc, body),
            Deed::ReadPart(body) => read_part(self.alloc, body),
            Deed::Gather(body) => self.gather(body),
            Deed::TakeBack(body) => self.take_back(body),
            Deed::Cut(body) => cut(self.alloc, body),
            Deed::Write(body) => self.write(body),
            Deed::WriteStatus => self.write_status(),
            Deed::Wire(wide, body) => self.wire(wide, body),
            Deed::WritePart(body) => self.write_part(body),
        }
    }

    fn shake(&mut self, piece: &[u8]) -> Result<Answer, OutOfMemory> {
        Ok(Answer::Fed(self.handshake.feed(piece)?))
    }

    fn feed(&mut self, piece: &[u8]) -> Result<Answer, OutOfMemory> {
        match self.messages.feed(piece) {
            Ok(fed) => Ok(Answer::Fed(fed)),
            Err(FeedFault::OutOfMemory) => Err(OutOfMemory),
            Err(fault) => Ok(Answer::NotFed(fault)),
        }
    }

    fn write(&mut self, body: &[u8]) -> Result<Answer, OutOfMemory> {
        match link_frames::decode(self.alloc, body) {
            Ok(message) => link_frames::encode(&message, &mut self.written)?,
            Err(MessageFault::OutOfMemory) => return Err(OutOfMemory),
            Err(fault) => return Ok(Answer::NotRead(fault)),
        }
        Ok(Answer::Done)
    }

    fn write_part(&mut self, body: &[u8]) -> Result<Answer, OutOfMemory> {
        match link_frames::decode_v2(self.alloc, body) {
            Ok(part) => link_frames::encode_v2(&part, &mut self.written)?,
            Err(MessageFault::OutOfMemory) => return Err(OutOfMemory),
            Err(fault) => return Ok(Answer::NotRead(fault)),
        }
        Ok(Answer::Done)
    }

    fn gather(&mut self, body: &[u8]) -> Result<Answer, OutOfMemory> {
        self.gathered(body)?;
        Ok(Answer::Gathered(self.parts.rows().len()))
    }

    fn take_back(&mut self, body: &[u8]) -> Result<Answer, OutOfMemory> {
        let undo = self.gathered(body)?;
        let with = self.parts.rows().len();
        if let Some(undo) = undo {
            self.parts.undo(undo);
        }
        Ok(Answer::TakenBack(with, self.parts.rows().len()))
    }

    /// What takes the part back; none where these bytes are no part.
    fn gathered(&mut self, body: &[u8]) -> Result<Option<Undo>, OutOfMemory> {
        match link_frames::decode_v2(self.alloc, body) {
            Ok(
                Message2::Part {
                    kind,
                    scope,
                    number,
                    last: _,
                    rows,
                },
            ) => Ok(Some(self.parts.gather(kind, scope, number, rows)?)),
            Err(MessageFault::OutOfMemory) => Err(OutOfMemory),
            _ => Ok(None),
        }
    }

    fn write_status(&mut self) -> Result<Answer, OutOfMemory> {
        let status = HsFrame::Status(StatusWord::NotAllowed);
        handshake_frames::encode(&status, &mut self.written)?;
        Ok(Answer::Done)
    }

    fn wire(&mut self, wide: bool, body: &[u8]) -> Result<Answer, OutOfMemory> {
        if body.len() < MOST_WIRED {
            let body = Body::of(Vec::from_slice(self.alloc, body)?)?;
            OutFrame { wide, body }.wire(&mut self.written)?;
        }
        Ok(Answer::Done)
    }
}
