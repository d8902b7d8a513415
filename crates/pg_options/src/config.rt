//! A file of settings: the options' names as keys, in TOML. What the command line says goes first.
use crate::fault::{Fault, misused, unread};
use crate::rows::{ROWS, Takes};
use anyhow::anyhow;
use clap::ArgMatches;
use clap::parser::ValueSource;
use named_files::{IS_OPEN, ShownPath, is_open};
use std::alloc::{AllocError, AllocFailed, Global};
use std::fmt::Display;
use std::fs::{self, Files};
use toml::de::Error as TomlError;
use toml::{Table, Value};

/// Why a key of the file can't be taken.
#[derive(Clone, Copy, Drop)]
enum Unset {
    Wrong(&'static str),
    OutOfMemory,
}

impl From<AllocError> for Unset {
    fn from(_error: AllocError) -> Unset {
        Unset::OutOfMemory
    }
}

impl<T: Drop> From<AllocFailed<T>> for Unset {
    fn from(_error: AllocFailed<T>) -> Unset {
        Unset::OutOfMemory
    }
}

/// A file of settings.
#[derive(Clone, Copy)]
struct File<'a> {
    path: &'a str,
    text: &'a str,
    /// Whether others can read it, or its group write it.
    is_open: bool,
}

/// The words of the command line and, behind the program's own name, as words, what the file of
/// `--config` says that they don't.
pub fn with_config<R: Files>(
    rt: &R,
    alloc: Global,
    matches: &ArgMatches<'_>,
    words: &[String],
) -> Result<Vec<String>, Fault> {
    let name = words.len().min(1);
    let mut all = words[..name].to_vec(alloc)?;
    if let Some(path) = matches.get_str("config") {
        add_file(rt, alloc, matches, path, &mut all)?;
    }
    all.append(&mut words[name..].to_vec(alloc)?)?;
    Ok(all)
}

fn add_file<R: Files>(
    rt: &R,
    alloc: Global,
    matches: &ArgMatches<'_>,
    path: &str,
    words: &mut Vec<String>,
) -> Result<(), Fault> {
    let (bytes, is_open) = match (fs::read(&(rt, alloc), path), is_open(rt, path)) {
        (Ok(bytes), Ok(is_open)) => (bytes, is_open),
        (Err(error), _) | (_, Err(error)) => return Err(unread("--config", path, error)),
    };
    let Ok(text) = str::from_utf8(bytes.as_slice()) else {
        let path = ShownPath(path);
        return Err(misused(anyhow!("--config: {path}: it isn't UTF-8")));
    };
    let file = File {
        path,
        text,
        is_open,
    };
    add_text(alloc, matches, file, words)
}

fn add_text(
    alloc: Global,
    matches: &ArgMatches<'_>,
    file: File<'_>,
    words: &mut Vec<String>,
) -> Result<(), Fault> {
    match toml::table_from_str(alloc, file.text) {
        Ok(table) => add_table(alloc, matches, file, &table, words),
        Err(error) if error.is_memory() => Err(Fault::of_memory()),
        Err(error) => Err(unparsed(file, &error)),
    }
}

fn unparsed(file: File<'_>, error: &TomlError) -> Fault {
    let File { path, text, .. } = file;
    let start = match error.span() {
        Some(span) => span.start,
        None => 0,
    };
    let line = line_at(text, start);
    let (path, message) = (ShownPath(path), error.message());
    misused(anyhow!("--config: {path}: line {line}: {message}"))
}

/// The line in which the byte at this place stands, from 1.
fn line_at(text: &str, place: usize) -> usize {
    let before = text.bytes().take(place).filter(|byte| *byte == b'\n');
    before.count().saturating_add(1)
}

/// The line that begins with this key, from 1: none does where the key is written another way.
fn line_of(text: &str, key: &str) -> Option<usize> {
    let mut number = 0usize;
    for line in text.lines() {
        number = number.saturating_add(1);
        let line = line.trim_start_matches(|c| c == ' ' || c == '\t' || c == '[' || c == '"');
        if let Some(rest) = line.strip_prefix(key) {
            let rest = rest.trim_start_matches(|c| c == ' ' || c == '\t' || c == '"');
            if rest.starts_with('=') || rest.starts_with(']') || rest.starts_with('.') {
                return Some(number);
            }
        }
    }
    None
}

fn add_table(
    alloc: Global,
    matches: &ArgMatches<'_>,
    file: File<'_>,
    table: &Table,
    words: &mut Vec<String>,
) -> Result<(), Fault> {
    for (key, value) in table {
        let added = if file.is_open && key.as_str() == "cookie" && !is_said(matches, "cookie") {
            Err(Unset::Wrong(IS_OPEN))
        } else {
            add(alloc, matches, key.as_str(), value, words)
        };
        if let Err(unset) = added {
            return Err(untaken(file, key.as_str(), unset));
        }
    }
    Ok(())
}

fn untaken(file: File<'_>, key: &str, unset: Unset) -> Fault {
    let File { path, text, .. } = file;
    let reason = match unset {
        Unset::OutOfMemory => return Fault::of_memory(),
        Unset::Wrong(reason) => reason,
    };
    let path = ShownPath(path);
    misused(match line_of(text, key) {
        Some(line) => anyhow!("--config: {path}: line {line}: {reason}: {key:.60}"),
        None => anyhow!("--config: {path}: {reason}: {key:.60}"),
    })
}

/// Adds what a key says, unless the command line says it: a reason where it can't be.
fn add(
    alloc: Global,
    matches: &ArgMatches<'_>,
    key: &str,
    value: &Value,
    words: &mut Vec<String>,
) -> Result<(), Unset> {
    let Some(takes) = taken_by(key) else {
        return Err(Unset::Wrong("no such option"));
    };
    if !is_taken(takes, value) {
        return Err(Unset::Wrong(takes.wanted()));
    }
    if is_said(matches, key) {
        return Ok(());
    }
    add_value(alloc, key, value, words)
}

/// What the option of this name takes, if there is one that a file may say: it names no other file.
fn taken_by(name: &str) -> Option<Takes> {
    if name == "config" {
        return None;
    }
    for row in &ROWS {
        if row.name == name {
            return Some(row.takes);
        }
    }
    None
}

/// Whether the command line says this, or the cookie in another way.
fn is_said(matches: &ArgMatches<'_>, key: &str) -> bool {
    match key {
        "cookie" | "cookie-file" => is_given(matches, "cookie") || is_given(matches, "cookie-file"),
        key => is_given(matches, key),
    }
}

fn is_given(matches: &ArgMatches<'_>, key: &str) -> bool {
    matches!(matches.value_source(key), Some(ValueSource::CommandLine))
}

/// Whether a value is of this kind.
fn is_taken(takes: Takes, value: &Value) -> bool {
    match (takes, value) {
        (Takes::Text(_), Value::String(_))
        | (Takes::Number(_, _), Value::Integer(_))
        | (Takes::Switch, Value::Boolean(_)) => true,
        (Takes::Texts(_), Value::Array(items)) => items.iter().all(Value::is_str),
        _ => false,
    }
}

/// Adds a value that the option takes.
fn add_value(
    alloc: Global,
    key: &str,
    value: &Value,
    words: &mut Vec<String>,
) -> Result<(), Unset> {
    match value {
        Value::String(text) => add_word(alloc, key, text.as_str(), words),
        Value::Integer(number) => add_word(alloc, key, *number, words),
        Value::Boolean(true) => add_switch(alloc, key, words),
        Value::Array(items) if key == "allow" && items.is_empty() => {
            Err(Unset::Wrong("an empty list would let all peers in"))
        }
        Value::Array(items) => add_texts(alloc, key, items, words),
        _ => Ok(()),
    }
}

fn add_texts(
    alloc: Global,
    key: &str,
    items: &[Value],
    words: &mut Vec<String>,
) -> Result<(), Unset> {
    for item in items {
        if let Value::String(text) = item {
            add_word(alloc, key, text.as_str(), words)?;
        }
    }
    Ok(())
}

fn add_switch(alloc: Global, key: &str, words: &mut Vec<String>) -> Result<(), Unset> {
    let word = format!(in alloc; "--{key}")?;
    Ok(words.push(word)?)
}

fn add_word<D: Display + Drop>(
    alloc: Global,
    key: &str,
    value: D,
    words: &mut Vec<String>,
) -> Result<(), Unset> {
    let word = format!(in alloc; "--{key}={value}")?;
    Ok(words.push(word)?)
}
