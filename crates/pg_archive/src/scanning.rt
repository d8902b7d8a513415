//! The values of the fields of a line, as words.
use crate::reading::LineFault;
use pg_text::number;

/// The most fields of an event.
const FIELDS: u32 = 3;

/// What stands before the fields of a verdict.
const VERDICT: &[u8] = b",\"verdict\":";

/// Whether a line ends where its first brace is closed.
pub fn is_whole(line: &[u8]) -> bool {
    let mut depth = Depth {
        open: 0,
        in_text: false,
        is_escaped: false,
    };
    for byte in line {
        depth.pass(*byte);
    }
    depth.open == 0 && !depth.in_text && line.last() == Some(&b'}')
}

/// How many brackets and braces are open, and whether a text is.
#[derive(Drop)]
struct Depth {
    open: u32,
    in_text: bool,
    /// Whether a backslash stands before.
    is_escaped: bool,
}

impl Depth {
    fn pass(&mut self, byte: u8) {
        if self.is_escaped {
            self.is_escaped = false;
        } else if self.in_text {
            self.in_text = byte != b'"';
            self.is_escaped = byte == b'\\';
        } else {
            self.pass_mark(byte);
        }
    }

    fn pass_mark(&mut self, byte: u8) {
        match byte {
            b'"' => self.in_text = true,
            b'{' | b'[' => self.open = self.open.saturating_add(1),
            b'}' | b']' => self.open = self.open.saturating_sub(1),
            _ => {}
        }
    }
}

/// What stands behind these bytes.
pub fn behind<'a>(rest: &'a [u8], word: &[u8]) -> Result<&'a [u8], LineFault> {
    rest.strip_prefix(word).ok_or(LineFault::Head)
}

/// The number that stands behind these bytes, and what stands behind it.
pub fn number_behind<'a>(rest: &'a [u8], word: &[u8]) -> Result<(u32, &'a [u8]), LineFault> {
    let rest = behind(rest, word)?;
    let (digits, rest) = digits_of(rest);
    match number(digits) {
        Some(number) => Ok((number, rest)),
        None => Err(LineFault::Head),
    }
}

/// The digits at the beginning, and what stands behind them.
fn digits_of(rest: &[u8]) -> (&[u8], &[u8]) {
    for (i, byte) in rest.iter().enumerate() {
        if !byte.is_ascii_digit() {
            return (&rest[..i], &rest[i..]);
        }
    }
    (rest, &[])
}

/// Adds the values of the fields before a verdict, each behind a space.
pub fn add_fields(rest: &[u8], words: &mut Vec<u8>) -> Result<(), LineFault> {
    let mut rest = rest;
    for _ in 0..FIELDS {
        if rest.starts_with(VERDICT) {
            return Ok(());
        }
        rest = add_value(behind_colon(rest)?, words)?;
    }
    if rest.starts_with(VERDICT) {
        Ok(())
    } else {
        Err(LineFault::Arguments)
    }
}

/// The value of the field that begins here.
fn behind_colon(rest: &[u8]) -> Result<&[u8], LineFault> {
    for (i, byte) in rest.iter().enumerate() {
        if *byte == b':' {
            return Ok(&rest[i + 1..]);
        }
    }
    Err(LineFault::Arguments)
}

/// Adds a value, and gives what stands behind it.
fn add_value<'a>(rest: &'a [u8], words: &mut Vec<u8>) -> Result<&'a [u8], LineFault> {
    let Some((first, others)) = rest.split_first() else {
        return Err(LineFault::Arguments);
    };
    match *first {
        b'"' => add_text(others, words),
        b'[' => add_list(others, words),
        _ => add_plain(rest, words),
    }
}

/// Adds each text of a list.
fn add_list<'a>(rest: &'a [u8], words: &mut Vec<u8>) -> Result<&'a [u8], LineFault> {
    let mut rest = rest;
    for _ in 0..rest.len() {
        let Some((first, others)) = rest.split_first() else {
            return Err(LineFault::Arguments);
        };
        match *first {
            b']' => return Ok(others),
            b',' => rest = others,
            b'"' => rest = add_text(others, words)?,
            _ => return Err(LineFault::Arguments),
        }
    }
    Err(LineFault::Arguments)
}

/// Adds a space and a text, which stands between quotes.
fn add_text<'a>(rest: &'a [u8], words: &mut Vec<u8>) -> Result<&'a [u8], LineFault> {
    words.push(b' ')?;
    text_to(rest, words)
}

/// Adds a text up to its last quote, and gives what stands behind it.
pub fn text_to<'a>(rest: &'a [u8], words: &mut Vec<u8>) -> Result<&'a [u8], LineFault> {
    let mut is_escaped = false;
    for (i, byte) in rest.iter().enumerate() {
        if *byte == b'"' && !is_escaped {
            return Ok(&rest[i + 1..]);
        }
        is_escaped = *byte == b'\\' && !is_escaped;
        if !is_escaped {
            words.push(*byte)?;
        }
    }
    Err(LineFault::Arguments)
}

/// Adds a space and a number or a truth.
fn add_plain<'a>(rest: &'a [u8], words: &mut Vec<u8>) -> Result<&'a [u8], LineFault> {
    words.push(b' ')?;
    for (i, byte) in rest.iter().enumerate() {
        if *byte == b',' || *byte == b'}' {
            return Ok(&rest[i..]);
        }
        words.push(*byte)?;
    }
    Err(LineFault::Arguments)
}
