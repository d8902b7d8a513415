//! Reading the lines of an archive.
ghost use Rattle.std.specs.Prelude.{◌≡◌, ◌++◌, List, ℕ, IfOk};
ghost use Rattle.std.specs.Io.BufRead.{strip_last};
ghost use Rattle.pg_archive.specs.Following.{HasNoCookie, IsRead};
ghost use Rattle.pg_archive.specs.Entries.{life_text};
ghost use Rattle.pg_archive.specs.Events.{told_head};

use crate::asked::{Asked, Told};
use crate::events::put_told;
use crate::life::Life;
use crate::lines::add_life;
use crate::scanning::{add_fields, behind, is_whole, number_behind, text_to};
use dist_types::{Body, NodeName, OutOfMemory};
use hex::FromHexError;
use pg_text::{Argument, Command, first, first_word, only, only_word, parse, without_feed};
use policy_audit::Event;
use std::alloc::{AllocError, AllocFailed, Global};
use thiserror::Error as ErrorDerive;

/// What a line says.
#[derive(Debug, Drop, PartialEq, Eq)]
pub enum Line {
    Life(Life),
    /// An entry up to its verdict.
    Entry(Told),
}

/// Why a line can't be read.
#[derive(Clone, Copy, Debug, PartialEq, Eq, ErrorDerive)]
pub enum LineFault {
    /// As the last line of a file whose writer was stopped.
    #[error("the line breaks off")]
    Cut,
    #[error("the line begins as none of an archive")]
    Head,
    #[error("there is no such event")]
    Kind,
    #[error("a value can't be read")]
    Arguments,
    /// All values can be read, and an archive writes them otherwise.
    #[error("the line isn't spelled as an archive spells it")]
    Spelling,
    #[error("out of memory")]
    Memory,
}

impl From<OutOfMemory> for LineFault {
    ghost use Rattle.std.specs.Prelude.{◌≡◌};
    ghost use Rattle.pg_archive.specs.declared.reading.LineFault.TheVariants as faults;

    ghost from_gives = { λ _ fault. fault ≡ faults.Memory };

    fn from(_fault: OutOfMemory) -> LineFault {
        LineFault::Memory
    }
}

impl From<AllocError> for LineFault {
    ghost use Rattle.std.specs.Prelude.{◌≡◌};
    ghost use Rattle.pg_archive.specs.declared.reading.LineFault.TheVariants as faults;

    ghost from_gives = { λ _ fault. fault ≡ faults.Memory };

    fn from(_fault: AllocError) -> LineFault {
        LineFault::Memory
    }
}

impl<T: Drop> From<AllocFailed<T>> for LineFault {
    ghost use Rattle.std.specs.Prelude.{◌≡◌};
    ghost use Rattle.pg_archive.specs.declared.reading.LineFault.TheVariants as faults;

    ghost from_gives = { λ _ fault. fault ≡ faults.Memory };

    fn from(_fault: AllocFailed<T>) -> LineFault {
        LineFault::Memory
    }
}

impl From<pg_text::LineFault> for LineFault {
    fn from(fault: pg_text::LineFault) -> LineFault {
        match fault {
            pg_text::LineFault::Script => LineFault::Arguments,
            pg_text::LineFault::Memory => LineFault::Memory,
        }
    }
}

/// What is used again from line to line.
#[derive(Drop)]
pub struct Scratch {
    alloc: Global,
    /// The values of a line, as words.
    words: Vec<u8>,
    /// What was read, as an archive writes it.
    spelled: Vec<u8>,
}

impl Scratch {
    pub fn new(alloc: Global) -> Scratch {
        Scratch {
            alloc,
            words: Vec::new(alloc),
            spelled: Vec::new(alloc),
        }
    }
}

/// Reads a line, with its line feed or without. Of an entry its verdict and its change aren't read:
/// `Replay` compares them.
pub fn read_line(scratch: &mut Scratch, line: &[u8]) -> Result<Line, LineFault>
    ensures { IfOk result (λ read. IsRead (strip_last 10 line.now) read) }
{
    let line = without_feed(line);
    if !is_whole(line) {
        return Err(LineFault::Cut);
    }
    if line.starts_with(b"{\"life\":") {
        Ok(Line::Life(read_life(scratch, line)?))
    } else {
        Ok(Line::Entry(read_entry(scratch, line)?))
    }
}

#[tactic(auto, using(crate::proofs::Compared::same_bytes))]
fn read_life(scratch: &mut Scratch, line: &[u8]) -> Result<Life, LineFault>
    ensures { IfOk result (λ life. line.now ≡ life_text life) }
{
    let life = life_of(scratch, line)?;
    scratch.spelled.clear();
    add_life(scratch.alloc, &life, &mut scratch.spelled)?;
    if scratch.spelled.as_slice() == line {
        Ok(life)
    } else {
        Err(LineFault::Spelling)
    }
}

#[tactic(auto, using(crate::proofs::Compared::begins))]
fn read_entry(scratch: &mut Scratch, line: &[u8]) -> Result<Told, LineFault>
    ensures told { IfOk result (λ told. (rest : List ℕ) × (line.now ≡ told_head told ++ rest)) }
    ensures cookies { IfOk result (λ told. HasNoCookie told.asked) }
{
    let told = told_of(scratch, line)?;
    scratch.spelled.clear();
    put_told(scratch.alloc, &told, &mut scratch.spelled)?;
    if line.starts_with(scratch.spelled.as_slice()) {
        Ok(told)
    } else {
        Err(LineFault::Spelling)
    }
}

/// The values of the line of a life, whatever stands between them.
fn life_of(scratch: &mut Scratch, line: &[u8]) -> Result<Life, LineFault> {
    let rest = behind(line, b"{\"life\":\"")?;
    scratch.words.clear();
    let rest = text_to(rest, &mut scratch.words)?;
    let name = NodeName::of_word(scratch.alloc, scratch.words.as_slice())?;
    let rest = behind(rest, b",\"hidden\":")?;
    let hidden = rest.starts_with(b"true");
    let rest = if hidden {
        behind(rest, b"true")
    } else {
        behind(rest, b"false")
    }?;
    let (creation, rest) = number_behind(rest, b",\"creation\":")?;
    let (entries, rest) = number_behind(rest, b",\"entries\":")?;
    let (links, _) = number_behind(rest, b",\"links\":")?;
    let Ok(links) = u8::try_from(links) else {
        return Err(LineFault::Arguments);
    };
    Ok(Life {
        name,
        hidden,
        creation,
        entries,
        links,
    })
}

/// The values before the verdict of an entry, whatever stands between them.
fn told_of(scratch: &mut Scratch, line: &[u8]) -> Result<Told, LineFault>
    ensures { IfOk result (λ told. HasNoCookie told.asked) }
{
    let (number, rest) = number_behind(line, b"{\"entry\":")?;
    let (seat, rest) = number_behind(rest, b",\"seat\":")?;
    let rest = behind(rest, b",\"event\":\"")?;
    let asked = asked_of(scratch, rest)?;
    Ok(Told {
        number,
        seat,
        asked,
    })
}

/// The event of this kind, which stands before the next quote, and of the values behind it.
fn asked_of(scratch: &mut Scratch, rest: &[u8]) -> Result<Asked, LineFault>
    ensures { IfOk result (λ asked. HasNoCookie asked) }
{
    let words = &mut scratch.words;
    words.clear();
    let rest = text_to(rest, words)?;
    let Some(command) = command_of(words.as_slice()) else {
        return Err(LineFault::Kind);
    };
    words.clear();
    words.extend_from_slice(command.as_bytes())?;
    add_fields(rest, words)?;
    said(scratch.alloc, command, words.as_slice())
}

/// What a line of this command says. Cookies aren't told, and a frame may have no byte.
fn said(alloc: Global, command: &str, line: &[u8]) -> Result<Asked, LineFault>
    ensures { IfOk result (λ asked. HasNoCookie asked) }
{
    let (_, words) = first_word(line);
    match command {
        "cookie" => Ok(Asked::SetCookie),
        "cookie_for" => Ok(Asked::SetCookieFor(only(alloc, words)?)),
        "frame" => frame(alloc, words),
        _ => match parse(alloc, line)? {
            Command::Step(event) => told_whole(event),
            Command::Seat(_) | Command::Size | Command::Audit(_) => Err(LineFault::Kind),
        },
    }
}

/// An event that a line tells whole, as none that sets a cookie.
fn told_whole(event: Event) -> Result<Asked, LineFault>
    ensures { IfOk result (λ asked. HasNoCookie asked) }
{
    match event {
        Event::SetCookie(_) | Event::SetCookieFor(_, _) => Err(LineFault::Kind),
        event => Ok(Asked::Event(event)),
    }
}

/// A frame, by its link and its bytes in hex.
fn frame(alloc: Global, words: Option<&[u8]>) -> Result<Asked, LineFault>
    ensures { IfOk result (λ asked. HasNoCookie asked) }
{
    let (link, rest) = first::<u32>(alloc, words)?;
    let Some(text) = only_word(rest) else {
        return Err(LineFault::Arguments);
    };
    match hex::decode(alloc, text) {
        Ok(bytes) => Ok(Asked::Event(Event::Frame(link, Body::of(bytes)?))),
        Err(FromHexError::OutOfMemory) => Err(LineFault::Memory),
        Err(_) => Err(LineFault::Arguments),
    }
}

/// The command that asks for an event of this kind.
fn command_of(kind: &[u8]) -> Option<&'static str> {
    let Ok(kind) = str::from_utf8(kind) else {
        return None;
    };
    match kind {
        "Restart" => Some("restart"),
        "SetCookie" => Some("cookie"),
        "SetCookieFor" => Some("cookie_for"),
        "Allow" => Some("allow"),
        "StartScope" => Some("start"),
        "StopScope" => Some("stop"),
        "Spawn" => Some("spawn"),
        "Exit" => Some("exit"),
        "Join" => Some("join"),
        "Leave" => Some("leave"),
        "Members" => Some("members"),
        "LocalMembers" => Some("local_members"),
        "Groups" => Some("groups"),
        "LocalGroups" => Some("local_groups"),
        _ => other_command_of(kind),
    }
}

/// The same for monitors and links.
fn other_command_of(kind: &str) -> Option<&'static str> {
    match kind {
        "Monitor" => Some("monitor"),
        "MonitorScope" => Some("monitor_scope"),
        "Demonitor" => Some("demonitor"),
        "Updates" => Some("updates"),
        "Dial" => Some("dial"),
        "Opened" => Some("opened"),
        "Lost" => Some("lost"),
        "Take" => Some("take"),
        "Disconnect" => Some("disconnect"),
        "Frame" => Some("frame"),
        _ => None,
    }
}
