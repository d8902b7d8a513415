//! What is wrong with a line that asks for nothing, in words for standard error.
use crate::reading::read_world_line;
use pg_text::{Reason, diagnose};
use std::alloc::Global;

/// Why a line asks for nothing.
#[derive(Clone, Copy, Debug, PartialEq, Eq, thiserror::Error)]
pub enum Unread {
    #[error("{0}")]
    Words(Reason),
    #[error("not of this form")]
    Form,
    #[error("a node behind other lines")]
    LateNode,
}

/// The lines with the words that they take. What stands in brackets may be left out, and a word
/// with `..` comes any number of times.
pub const FORMS: [&str; 11] = [
    "node NAME COOKIE [hidden] [creation N] [entries N] [links N]",
    "at NAME COMMAND..",
    "seat SEAT",
    "dial FROM TO CHALLENGE",
    "accept WIRE CHALLENGE",
    "hand WIRE dialler|acceptor",
    "deliver WIRE dialler|acceptor",
    "cut WIRE dialler|acceptor",
    "restart NAME",
    "settle",
    "show SCOPE GROUP",
];

/// Why a line asks for nothing, and the word or the form that this is about. It is empty where the
/// line has a byte that a terminal shouldn't be given.
pub fn why_unread(alloc: Global, line: &[u8]) -> (Unread, &str) {
    if read_world_line(alloc, line).is_ok() {
        return (Unread::LateNode, "");
    }
    match diagnose(alloc, line) {
        Some((reason, part)) if is_of_any_line(reason) => (Unread::Words(reason), part),
        _ => match str::from_utf8(line) {
            Ok(text) => misfit(alloc, text),
            Err(_) => (Unread::Words(Reason::BadByte), ""),
        },
    }
}

/// Whether a reason is one of any line, whatever its command.
fn is_of_any_line(reason: Reason) -> bool {
    matches!(
        reason,
        Reason::CarriageReturn | Reason::Tab | Reason::BadByte | Reason::EmptyWord
    )
}

/// Where the words of a line aren't those of its form.
fn misfit(alloc: Global, text: &str) -> (Unread, &str) {
    let name = first_word(text);
    let Some(form) = FORMS.iter().find(|form| first_word(form) == name) else {
        return (Unread::Words(Reason::NoSuchCommand), name);
    };
    match command_of(text).and_then(|command| diagnose(alloc, command.as_bytes())) {
        Some((reason, part)) if name == "at" => (Unread::Words(reason), part),
        _ => (Unread::Form, form),
    }
}

/// What stands behind the first two words.
fn command_of(text: &str) -> Option<&str> {
    text.splitn(3, ' ').nth(2)
}

/// The first word of a text.
fn first_word(text: &str) -> &str {
    text.split(' ').next().unwrap_or("")
}
