//! The command line, and what comes on standard input.
use crate::calls::insisted;
use anyhow::{Result, bail};
use dist_types::OutOfMemory;
use std::alloc::Global;
use std::env;
use std::io::Read;

/// The most bytes of a script. There is room for them before the first is read.
const ROOM: usize = 1 << 18;

/// The first word behind the program's name; an empty one where there is none.
pub fn first_word<R: AllocGlobal + env::Env>(rt: &R) -> Result<String, OutOfMemory> {
    let Ok(mut words) = env::args(rt) else {
        return Err(OutOfMemory);
    };
    words.next();
    match words.next() {
        Some(word) => Ok(word),
        None => Ok(String::new(rt.alloc())),
    }
}

/// What comes on standard input.
pub fn read_all<R: AllocGlobal + Input + Eprint>(rt: &R) -> Result<String> {
    let mut text = insisted(rt, "input", || room(rt.alloc()))?;
    rt.reader().read_to_string(&mut text)?;
    if text.len() == ROOM {
        bail!("the script is too long");
    }
    Ok(text)
}

fn room(alloc: Global) -> Result<String, OutOfMemory> {
    Ok(String::with_capacity(alloc, ROOM)?)
}
