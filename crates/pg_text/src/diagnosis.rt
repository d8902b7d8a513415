//! What is wrong with a line that says no command, in words for standard error. Standard output has
//! its `fault line K` alone.
use dist_types::{NodeName, TextFault};
use std::alloc::Global;

/// Why a line says no command.
#[derive(Clone, Copy, Debug, PartialEq, Eq, thiserror::Error)]
pub enum Reason {
    #[error("a carriage return; lines end with a line feed alone")]
    CarriageReturn,
    #[error("a tab; words are parted by one space")]
    Tab,
    #[error("a byte outside 0x20 to 0x7E")]
    BadByte,
    #[error("an empty word; words are parted by one space")]
    EmptyWord,
    #[error("no such command")]
    NoSuchCommand,
    #[error("a word is missing")]
    MissingWord,
    #[error("a word too many")]
    SurplusWord,
    #[error("no number")]
    NoNumber,
    #[error("a number with a needless zero")]
    NeedlessZero,
    #[error("a number above 4294967295")]
    LargeNumber,
    #[error("a number above 18446744073709551615")]
    LongNumber,
    #[error("no process, which is written name/creation/number")]
    NoProcess,
    #[error("{0}")]
    Text(TextFault),
    #[error("no hex digits")]
    NoHex,
    #[error("an odd number of hex digits")]
    OddHex,
}

/// The commands with the words that they take; a word with `..` comes any number of times.
pub const FORMS: [&str; 27] = [
    "restart",
    "cookie COOKIE",
    "cookie_for NAME COOKIE",
    "allow NAME..",
    "start SCOPE",
    "stop SCOPE",
    "spawn",
    "exit PROCESS",
    "join SCOPE GROUP PROCESS..",
    "leave SCOPE GROUP PROCESS..",
    "members SCOPE GROUP",
    "local_members SCOPE GROUP",
    "groups SCOPE",
    "local_groups SCOPE",
    "monitor SCOPE GROUP",
    "monitor_scope SCOPE",
    "demonitor REF",
    "updates REF",
    "dial NAME CHALLENGE",
    "opened CHALLENGE",
    "lost LINK",
    "take LINK",
    "disconnect NAME",
    "frame LINK HEX",
    "seat SEAT",
    "size",
    "audit ENTRY",
];

/// A reason, and the word at fault or, where a word is missing, the words that the command takes.
/// It is empty where the line has a byte that a terminal shouldn't be given.
pub type Diagnosis<'a> = (Reason, &'a str);

/// What is wrong with a line: nothing, where it says a command or there is no memory.
pub fn diagnose(alloc: Global, line: &[u8]) -> Option<Diagnosis<'_>> {
    if let Some(reason) = bad_byte(line) {
        return Some((reason, ""));
    }
    let text = str::from_utf8(line).ok()?;
    if text.split(' ').any(|word| word.is_empty()) {
        return Some((Reason::EmptyWord, ""));
    }
    let name = first_word(text);
    match FORMS.iter().find(|form| first_word(form) == name) {
        Some(form) => misfit(alloc, form, text),
        None => Some((Reason::NoSuchCommand, name)),
    }
}

/// The first word of a text.
fn first_word(text: &str) -> &str {
    text.split(' ').next().unwrap_or("")
}

/// Why a byte can't stand in a line.
fn bad_byte(line: &[u8]) -> Option<Reason> {
    let bad = line.iter().find(|byte| **byte < b' ' || **byte > b'~')?;
    Some(match *bad {
        b'\r' => Reason::CarriageReturn,
        b'\t' => Reason::Tab,
        _ => Reason::BadByte,
    })
}

/// Where the words of a line aren't those of the command.
fn misfit<'a>(alloc: Global, form: &'static str, line: &'a str) -> Option<Diagnosis<'a>> {
    let mut wanted = form.split(' ');
    let mut kind = wanted.next();
    for word in line.split(' ') {
        let Some(wants) = kind else {
            return Some((Reason::SurplusWord, word));
        };
        let fault = fault_of(alloc, wants, word);
        if fault.is_some() {
            return fault;
        }
        if !wants.ends_with("..") {
            kind = wanted.next();
        }
    }
    match kind {
        Some(wants) if !wants.ends_with("..") => Some((Reason::MissingWord, form)),
        _ => None,
    }
}

/// What is wrong with a word of this kind.
fn fault_of<'a>(alloc: Global, kind: &str, word: &'a str) -> Option<Diagnosis<'a>> {
    match kind {
        "NAME" | "NAME.." => name_fault(alloc, word),
        "PROCESS" | "PROCESS.." => process_fault(alloc, word),
        "HEX" => hex_fault(word),
        "COOKIE" | "SCOPE" | "GROUP" if word.len() > 255 => {
            Some((Reason::Text(TextFault::TooLong), word))
        }
        "REF" | "CHALLENGE" | "LINK" | "SEAT" | "ENTRY" => number_fault(word),
        _ => None,
    }
}

fn name_fault(alloc: Global, word: &str) -> Option<Diagnosis<'_>> {
    let fault = NodeName::parse(alloc, word.as_bytes()).err()?;
    Some((Reason::Text(fault), word))
}

fn process_fault(alloc: Global, word: &str) -> Option<Diagnosis<'_>> {
    let Some((front, number)) = word.rsplit_once('/') else {
        return Some((Reason::NoProcess, word));
    };
    let Some((name, creation)) = front.rsplit_once('/') else {
        return Some((Reason::NoProcess, word));
    };
    if name.is_empty() || creation.is_empty() || number.is_empty() {
        return Some((Reason::NoProcess, word));
    }
    name_fault(alloc, name)
        .or_else(|| number_fault(creation))
        .or_else(|| long_number_fault(number))
}

fn number_fault(word: &str) -> Option<Diagnosis<'_>> {
    let fault = digits_fault(word);
    if fault.is_some() || word.parse::<u32>().is_ok() {
        return fault;
    }
    Some((Reason::LargeNumber, word))
}

fn long_number_fault(word: &str) -> Option<Diagnosis<'_>> {
    let fault = digits_fault(word);
    if fault.is_some() || word.parse::<u64>().is_ok() {
        return fault;
    }
    Some((Reason::LongNumber, word))
}

fn digits_fault(word: &str) -> Option<Diagnosis<'_>> {
    if !word.bytes().all(|byte| byte.is_ascii_digit()) {
        return Some((Reason::NoNumber, word));
    }
    if word.len() > 1 && word.starts_with('0') {
        return Some((Reason::NeedlessZero, word));
    }
    None
}

fn hex_fault(word: &str) -> Option<Diagnosis<'_>> {
    if !word.bytes().all(|byte| byte.is_ascii_hexdigit()) {
        return Some((Reason::NoHex, word));
    }
    if word.len() % 2 != 0 {
        return Some((Reason::OddHex, word));
    }
    None
}
