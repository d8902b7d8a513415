//! A line on standard input.
use crate::fault::Fault;
use anyhow::anyhow;
use std::alloc::Global;
use std::io::Read;

/// The longest line, in bytes, that is read.
const LONGEST: u64 = 65_536;

/// The only line on standard input, without its line feed.
pub fn read_line<R: Input>(rt: &R, alloc: Global) -> Result<String, Fault> {
    let mut text = Vec::new(alloc);
    // (one byte more shows that there is more)
    let read = rt.reader().take(LONGEST + 1).read_to_end(&mut text);
    if let Err(error) = read {
        return Err(Fault::of(anyhow!("standard input: {error}")));
    }
    match str::from_utf8(text.as_slice()) {
        Ok(text) => only_line(alloc, text),
        Err(_) => Err(Fault::of(anyhow!("standard input: it isn't UTF-8"))),
    }
}

fn only_line(alloc: Global, text: &str) -> Result<String, Fault> {
    let line = text.strip_suffix('\n').unwrap_or(text);
    if line.contains('\n') {
        return Err(Fault::of(anyhow!("standard input: more than one line")));
    }
    if line.len() as u64 > LONGEST {
        return Err(Fault::of(anyhow!("standard input: a line of more than {LONGEST} bytes")));
    }
    let mut copied = String::new(alloc);
    copied.push_str(line)?;
    Ok(copied)
}
