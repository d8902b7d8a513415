//! A decision as a line.
use crate::decision::{Decision, Field, Value};
use jiff::Timestamp;
use json::Writer;
use log::Level;
use std::alloc::AllocError;
use std::fmt::Write;
use std::str::FromStr;
use thiserror::Error;

/// How lines are written.
#[derive(Clone, Copy, Debug, PartialEq, Eq)]
pub enum Format {
    /// Words parted by spaces: time, level, what, and each field as `name=value`.
    Text,
    /// An object a line, with the same as members.
    Json,
    /// Nothing is written.
    Off,
}

/// The word names no format.
#[derive(Clone, Copy, Debug, PartialEq, Eq, Drop, Error)]
#[error("no format of a log: text, json or none")]
pub struct FormatFault;

impl FromStr for Format {
    type Err = FormatFault;

    fn from_str(word: &str) -> Result<Format, FormatFault> {
        match word {
            "text" => Ok(Format::Text),
            "json" => Ok(Format::Json),
            "none" => Ok(Format::Off),
            _ => Err(FormatFault),
        }
    }
}

/// The name of a level.
fn name_of(level: Level) -> &'static str {
    match level {
        Level::Error => "error",
        Level::Warn => "warn",
        Level::Info => "info",
        Level::Debug => "debug",
        Level::Trace => "trace",
    }
}

/// Adds the line of a decision that was made then.
pub(crate) fn put_text(
    time: Timestamp,
    decision: &Decision<'_>,
    left_out: u64,
    line: &mut String,
) -> Result<(), AllocError> {
    let level = name_of(decision.level);
    let what = decision.what;
    write!(line, "{time:.3} {level} {what}")?;
    for field in decision.fields {
        put_field(field, line)?;
    }
    if left_out > 0 {
        write!(line, " left_out={left_out}")?;
    }
    Ok(())
}

fn put_field(field: &Field<'_>, line: &mut String) -> Result<(), AllocError> {
    let name = field.name;
    match &field.value {
        Value::Text(text) => {
            write!(line, " {name}=")?;
            put_word(text, line)
        }
        Value::Number(number) => write!(line, " {name}={number}"),
        Value::Address(address) => write!(line, " {name}={address}"),
        Value::Unknown => Ok(()),
    }
}

/// Adds a text: as it is, where it is one word of printable ASCII, else between quotes.
fn put_word(text: &str, line: &mut String) -> Result<(), AllocError> {
    if !text.is_empty() && text.as_bytes().iter().all(|byte| is_plain(*byte)) {
        return line.push_str(text);
    }
    line.push('"')?;
    for byte in text.as_bytes() {
        put_byte(*byte, line)?;
    }
    line.push('"')
}

/// Whether a byte needs no quotes.
fn is_plain(byte: u8) -> bool {
    byte.is_ascii_graphic() && byte != b'"' && byte != b'\\' && byte != b'='
}

/// Adds a byte between quotes: quotes and backslashes behind a backslash, and what isn't printable
/// ASCII as `\x` and two digits.
fn put_byte(byte: u8, line: &mut String) -> Result<(), AllocError> {
    if byte == b'"' || byte == b'\\' {
        line.push('\\')?;
        line.push(char::from(byte))
    } else if byte == b' ' || byte.is_ascii_graphic() {
        line.push(char::from(byte))
    } else {
        write!(line, "\\x{byte:02x}")
    }
}

/// The same as an object, behind what is there. The line is used for its parts, and is empty then.
pub(crate) fn put_json(
    time: Timestamp,
    decision: &Decision<'_>,
    left_out: u64,
    line: &mut String,
    object: Vec<u8>,
) -> Result<Vec<u8>, AllocError> {
    let mut writer = Writer::new(object);
    let put = put_object(time, decision, left_out, line, &mut writer);
    let object = writer.into_inner();
    put?;
    line.clear();
    Ok(object)
}

fn put_object(
    time: Timestamp,
    decision: &Decision<'_>,
    left_out: u64,
    line: &mut String,
    writer: &mut Writer,
) -> Result<(), AllocError> {
    write!(line, "{time:.3}")?;
    writer.begin_object()?;
    put_text_member("time", line, writer)?;
    put_text_member("level", name_of(decision.level), writer)?;
    put_text_member("what", decision.what, writer)?;
    for field in decision.fields {
        put_member(field, line, writer)?;
    }
    if left_out > 0 {
        put_number_member("left_out", left_out, writer)?;
    }
    writer.end_object()
}

fn put_member(field: &Field<'_>, line: &mut String, writer: &mut Writer) -> Result<(), AllocError> {
    match &field.value {
        Value::Text(text) => put_text_member(field.name, text, writer),
        Value::Number(number) => put_number_member(field.name, *number, writer),
        Value::Address(address) => {
            line.clear();
            write!(line, "{address}")?;
            put_text_member(field.name, line, writer)
        }
        Value::Unknown => Ok(()),
    }
}

fn put_text_member(name: &str, text: &str, writer: &mut Writer) -> Result<(), AllocError> {
    writer.key(name)?;
    writer.string(text)
}

fn put_number_member(name: &str, number: u64, writer: &mut Writer) -> Result<(), AllocError> {
    writer.key(name)?;
    writer.u64(number)
}
