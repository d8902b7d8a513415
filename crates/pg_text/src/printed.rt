//! Values as parts of an answer line.
ghost use Rattle.std.specs.Prelude.{◌≡◌, ◌+◌, ◌<◌, ◌≤◌, ◌++◌, List, ℕ, OnOk, codes, decimal, drop, length};
ghost use Rattle.pg_text.specs.Answers.{spaced, pid_text, counted_text, group_text, happened_text, update_text, told_text, frame_text};

use dist_types::{Group, OutOfMemory, Pid, Pids};
use itoa::{Buffer, write_digits};
use policy_audit::{GroupPids, OutFrame, Update};
use std::alloc::Global;

/// Room for two numbers of 20 digits, and a slash before each.
const SLASHED: usize = 42;

/// A value that is printed as one or more words.
pub trait Printed {
    ghost text: { Self → List ℕ };

    fn put(&self, alloc: Global, out: &mut Vec<u8>) -> Result<(), OutOfMemory>
        ensures { OnOk result (out.new.items ≡ out.old.items ++ text self.now) };
}

impl Printed for Pid {
    ghost text = { pid_text };

    fn put(&self, _alloc: Global, out: &mut Vec<u8>) -> Result<(), OutOfMemory> {
        put_bytes(self.node.as_bytes(), out)?;
        put_slashed(self.creation, self.number, out)
    }
}

impl Printed for Group {
    ghost text = { λ group. group };

    fn put(&self, _alloc: Global, out: &mut Vec<u8>) -> Result<(), OutOfMemory> {
        put_bytes(self.as_bytes(), out)
    }
}

impl Printed for GroupPids {
    ghost text = { group_text };

    fn put(&self, alloc: Global, out: &mut Vec<u8>) -> Result<(), OutOfMemory> {
        put_held(alloc, &self.group, &self.pids, out)
    }
}

impl Printed for Update {
    ghost text = { update_text };

    fn put(&self, alloc: Global, out: &mut Vec<u8>) -> Result<(), OutOfMemory> {
        put_word(happened(self.leave), out)?;
        put_held(alloc, &self.group, &self.pids, out)
    }
}

impl Printed for OutFrame {
    ghost text = { frame_text };

    fn put(&self, alloc: Global, out: &mut Vec<u8>) -> Result<(), OutOfMemory> {
        let text = hex::encode(alloc, self.body.as_slice())?;
        put_word(text.as_str(), out)
    }
}

/// Adds an update with the monitor that it is told to, by the number of its entry, as `join 3 g 1
/// a@h/1/1`.
pub fn put_told(
    alloc: Global,
    monitor: u32,
    update: &Update,
    out: &mut Vec<u8>,
) -> Result<(), OutOfMemory>
    ensures { OnOk result (out.new.items ≡ out.old.items ++ told_text monitor update.now) }
{
    put_number(happened(update.leave), u64::from(monitor), out)?;
    put_word(" ", out)?;
    put_held(alloc, &update.group, &update.pids, out)
}

/// What an update says that processes did.
fn happened(leave: bool) -> &'static str
    ensures { result.now ≡ happened_text leave }
{
    if leave { "leave " } else { "join " }
}

/// Adds a group, how many processes it has, and each.
fn put_held(alloc: Global, group: &Group, pids: &Pids, out: &mut Vec<u8>) -> Result<(), OutOfMemory>
    ensures { OnOk result (out.new.items ≡ out.old.items ++ group.now ++ counted_text pids.now) }
{
    put_bytes(group.as_bytes(), out)?;
    put_counted(alloc, pids, out)
}

/// Adds each value behind a space.
pub fn put_each<T: Printed>(
    alloc: Global,
    items: &[T],
    out: &mut Vec<u8>,
) -> Result<(), OutOfMemory>
    ensures { OnOk result (out.new.items ≡ out.old.items ++ spaced T.text items.now) }
{
    for item in items {
        out.push(b' ')?;
        item.put(alloc, out)?;
    }
    Ok(())
}

/// Adds how many processes there are, and each.
fn put_counted(alloc: Global, pids: &Pids, out: &mut Vec<u8>) -> Result<(), OutOfMemory>
    ensures { OnOk result (out.new.items ≡ out.old.items ++ counted_text pids.now) }
{
    let pids = pids.as_slice();
    put_number(" ", pids.len() as u64, out)?;
    put_each(alloc, pids, out)
}

/// Adds the creation and the number of a process, each behind a slash. A list has many, so both are
/// added at once.
#[tactic(auto, using(crate::proofs::WordLemmas::decimal_short))]
fn put_slashed(creation: u32, number: u64, out: &mut Vec<u8>) -> Result<(), OutOfMemory>
    ensures { OnOk result (out.new.items ≡ out.old.items ++ codes "/" ++ decimal creation
        ++ codes "/" ++ decimal number) }
{
    let mut text = [0; SLASHED];
    let middle = write_slashed(number, &mut text, SLASHED);
    let start = write_slashed(u64::from(creation), &mut text, middle);
    put_bytes(&text[start..], out)
}

/// Writes a slash and a number so that they end at `end`, and says where they start.
fn write_slashed(number: u64, text: &mut [u8], end: usize) -> usize
    requires { (length (decimal number) < end) × (end ≤ length text.old) }
    ensures start { result + 1 + length (decimal number) ≡ end }
    ensures written { drop result text.new ≡ codes "/" ++ decimal number ++ drop end text.old }
{
    let start = write_digits(number, text, end) - 1;
    text[start] = b'/';
    start
}

/// Adds a word and a number.
pub fn put_number(word: &str, number: u64, out: &mut Vec<u8>) -> Result<(), OutOfMemory>
    ensures { OnOk result (out.new.items ≡ out.old.items ++ word.now ++ decimal number) }
{
    let mut digits = Buffer::new();
    put_word(word, out)?;
    put_word(digits.format(number), out)
}

/// Adds a line of a word and a number.
pub fn put_numbered_line(word: &str, number: u64, out: &mut Vec<u8>) -> Result<(), OutOfMemory>
    ensures { OnOk result (out.new.items ≡ out.old.items ++ word.now ++ decimal number
        ++ codes "\n") }
{
    put_number(word, number, out)?;
    put_word("\n", out)
}

/// Adds a word.
pub fn put_word(word: &str, out: &mut Vec<u8>) -> Result<(), OutOfMemory>
    ensures { OnOk result (out.new.items ≡ out.old.items ++ word.now) }
{
    put_bytes(word.as_bytes(), out)
}

/// Adds bytes.
pub fn put_bytes(bytes: &[u8], out: &mut Vec<u8>) -> Result<(), OutOfMemory>
    ensures { OnOk result (out.new.items ≡ out.old.items ++ bytes.now) }
{
    out.extend_from_slice(bytes)?;
    Ok(())
}
