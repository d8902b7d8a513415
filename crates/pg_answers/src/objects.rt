//! Lines of a node as JSON.
ghost use Rattle.std.specs.Prelude.{◌≡◌, ◌++◌, map, IfOk, OnOk};
ghost use Rattle.json.specs.Token.{string};
ghost use Rattle.json.specs.Lex.{tokens};
ghost use Rattle.pg_answers.specs.Words.{words_of, words_left};
ghost use Rattle.pg_answers.specs.Said.{line_tokens, object_tokens};

use crate::words::first_word;
use json::Writer;
use std::alloc::{AllocError, Global};

const NEWS: &str = "! ";

/// Why a line has no JSON.
#[derive(Clone, Copy, Debug, PartialEq, Eq, Drop, thiserror::Error)]
pub enum JsonFault {
    #[error("a line that is not UTF-8 has no JSON")]
    NotText,
    #[error("out of memory")]
    OutOfMemory,
}

impl From<AllocError> for JsonFault {
    fn from(_error: AllocError) -> JsonFault {
        JsonFault::OutOfMemory
    }
}

/// A line as one object: its first word is the `answer`, or the `news`, and the others are
/// `values`.
pub fn json_of(alloc: Global, line: &[u8]) -> Result<Vec<u8>, JsonFault>
    ensures { IfOk result (λ text. tokens text.items ≡ line_tokens line.now) }
{
    match line.strip_prefix(NEWS.as_bytes()) {
        Some(news) => object_of(alloc, "news", news),
        None => object_of(alloc, "answer", line),
    }
}

fn object_of(alloc: Global, name: &str, line: &[u8]) -> Result<Vec<u8>, JsonFault>
    ensures { IfOk result (λ text. tokens text.items ≡ object_tokens name.now (words_of line.now)) }
{
    let (word, rest) = first_word(line);
    let mut writer = Writer::new(Vec::new(alloc));
    writer.begin_object()?;
    writer.key(name)?;
    writer.string(text(word)?)?;
    writer.key("values")?;
    writer.begin_array()?;
    put_words(&mut writer, rest)?;
    writer.end_array()?;
    writer.end_object()?;
    Ok(writer.into_inner())
}

/// Adds each word as a value.
fn put_words(writer: &mut Writer, rest: Option<&[u8]>) -> Result<(), JsonFault>
    ensures before { writer.new.before ≡ writer.old.before }
    ensures values { OnOk result
        (writer.new.tokens ≡ writer.old.tokens ++ map string (words_left rest.entry)) }
{
    let mut left = rest;
    while let Some(line) = left {
        let (word, behind) = first_word(line);
        writer.string(text(word)?)?;
        left = behind;
    }
    Ok(())
}

fn text(word: &[u8]) -> Result<&str, JsonFault>
    ensures { IfOk result (λ text. text.now ≡ word.now) }
{
    match str::from_utf8(word) {
        Ok(text) => Ok(text),
        Err(_) => Err(JsonFault::NotText),
    }
}
