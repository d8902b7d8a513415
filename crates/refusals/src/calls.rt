//! Calls that are made again where memory is wanting.
use anyhow::{Result, bail};
use dist_types::OutOfMemory;
use pg_text::{put_number, put_word};
use std::alloc::Global;
use std::fmt::Debug;
use std::io::{self, Write};
use std::str;
use std::sync::Wait;

/// How often a call is made at most.
const TRIES: u32 = 3;

/// The most bytes that are printed of a call. There is room for them from the beginning.
const ROOM: usize = 1 << 16;

/// An object, and what is done with it.
pub trait Subject {
    type Deed: Copy + Debug;

    /// Does it, and keeps what was answered. Where memory is wanting nothing has changed.
    fn make<R: Wait>(&mut self, rt: &R, deed: Self::Deed) -> Result<(), OutOfMemory>;

    /// Adds what was answered last, as a line.
    fn tell<R: Wait>(&self, rt: &R, out: &mut Vec<u8>) -> Result<(), OutOfMemory>;

    /// Adds what the object answers now.
    fn show<R: Wait>(&self, rt: &R, out: &mut Vec<u8>) -> Result<(), OutOfMemory>;
}

/// What is printed of a call, and the number of the call.
#[derive(Drop)]
pub struct Log {
    out: Vec<u8>,
    number: u32,
}

impl Log {
    pub fn new(alloc: Global) -> Result<Log, OutOfMemory> {
        let out = Vec::with_capacity(alloc, ROOM)?;
        Ok(Log { out, number: 0 })
    }

    /// Begins anew with what is printed.
    pub fn begin(&mut self) -> &mut Vec<u8> {
        self.out.clear();
        &mut self.out
    }

    pub fn print<R: Print>(&self, rt: &R) -> Result<()> {
        io::writer(rt).write_all(self.out.as_slice())?;
        Ok(())
    }

    fn warn<R: Eprint>(&self, rt: &R) -> Result<()> {
        rt.eprint(str::from_utf8(self.out.as_slice())?)?;
        Ok(())
    }
}

/// What is made, where there is memory for it at one of several tries.
pub fn insisted<R: Eprint, T: Drop, F: Fn() -> Result<T, OutOfMemory>>(
    rt: &R,
    name: &str,
    made: F,
) -> Result<T>
    requires { F.IsAlwaysCallable made }
{
    for _ in 0..TRIES {
        if let Ok(value) = made() {
            return Ok(value);
        }
        eprintln!(rt; "memory {name}")?;
    }
    bail!("memory is wanting for {name}")
}

/// Tells what the object answers at first.
pub fn begin<R: Print + Eprint + Wait, S: Subject>(
    rt: &R,
    log: &mut Log,
    subject: &S,
) -> Result<()> {
    for _ in 0..TRIES {
        if put_state(rt, log.begin(), subject).is_ok() {
            return log.print(rt);
        }
        eprintln!(rt; "memory show")?;
    }
    bail!("memory is wanting to show")
}

/// Does all of it in turn.
pub fn play_all<R: Print + Eprint + Wait, S: Subject>(
    rt: &R,
    log: &mut Log,
    subject: &mut S,
    deeds: &[S::Deed],
) -> Result<()> {
    begin(rt, log, subject)?;
    for deed in deeds {
        play(rt, log, subject, *deed)?;
    }
    Ok(())
}

/// Does it until memory isn't wanting, and tells what was answered, and what the object answers
/// then.
pub fn play<R: Print + Eprint + Wait, S: Subject>(
    rt: &R,
    log: &mut Log,
    subject: &mut S,
    deed: S::Deed,
) -> Result<()> {
    log.number = log.number.saturating_add(1);
    for _ in 0..TRIES {
        if subject.make(rt, deed).is_ok() {
            return told(rt, log, subject, deed);
        }
        lacked(rt, log, subject)?;
    }
    bail!("memory is wanting for {deed:?}")
}

fn told<R: Print + Eprint + Wait, S: Subject>(
    rt: &R,
    log: &mut Log,
    subject: &S,
    deed: S::Deed,
) -> Result<()> {
    for _ in 0..TRIES {
        let number = log.number;
        if put_call(rt, log.begin(), number, subject, deed).is_ok() {
            return log.print(rt);
        }
        eprintln!(rt; "memory tell")?;
    }
    bail!("memory is wanting to tell of {deed:?}")
}

/// Says that memory was wanting, and what the object answers then.
fn lacked<R: Eprint + Wait, S: Subject>(rt: &R, log: &mut Log, subject: &S) -> Result<()> {
    for _ in 0..TRIES {
        let number = log.number;
        if put_lack(rt, log.begin(), number, subject).is_ok() {
            return log.warn(rt);
        }
        eprintln!(rt; "memory show")?;
    }
    bail!("memory is wanting to show")
}

fn put_call<R: Wait, S: Subject>(
    rt: &R,
    out: &mut Vec<u8>,
    number: u32,
    subject: &S,
    deed: S::Deed,
) -> Result<(), OutOfMemory> {
    put_deed(number, &deed, out)?;
    subject.tell(rt, out)?;
    put_state(rt, out, subject)
}

fn put_deed<D: Debug>(number: u32, deed: &D, out: &mut Vec<u8>) -> Result<(), OutOfMemory> {
    match writeln!(out, "{number} {deed:?}") {
        Ok(()) => Ok(()),
        Err(_) => Err(OutOfMemory),
    }
}

fn put_state<R: Wait, S: Subject>(
    rt: &R,
    out: &mut Vec<u8>,
    subject: &S,
) -> Result<(), OutOfMemory> {
    put_word("= ", out)?;
    subject.show(rt, out)?;
    put_word("\n", out)
}

fn put_lack<R: Wait, S: Subject>(
    rt: &R,
    out: &mut Vec<u8>,
    number: u32,
    subject: &S,
) -> Result<(), OutOfMemory> {
    put_number("memory ", u64::from(number), out)?;
    put_word("\n", out)?;
    put_state(rt, out, subject)
}
