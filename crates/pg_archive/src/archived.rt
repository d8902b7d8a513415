//! Values as JSON (RFC 8259).
ghost use Rattle.std.specs.Prelude.{◌≡◌, ◌++◌, List, ℕ, OnOk, codes, decimal};
ghost use Rattle.std.specs.List.{flat_map};
ghost use Rattle.pg_archive.specs.Texts.{escaped, quoted, truth_text, hex_text, list_text, commas, pid_text, group_text, update_text, frame_text, group_change_text, change_text};

use dist_types::{Body, Group, GroupChange, Items, NodeName, OutOfMemory, Pid, Scope, Shared};
use pg_text::{put_bytes, put_number, put_word};
use policy_audit::{Change, GroupPids, OutFrame, Update};
use std::alloc::Global;

/// A value that a line can have.
pub trait Archived {
    ghost text: { Self → List ℕ };

    fn put(&self, alloc: Global, out: &mut Vec<u8>) -> Result<(), OutOfMemory>
        ensures { OnOk result (out.new.items ≡ out.old.items ++ text self.now) };
}

/// Adds a field: its name, with all that stands before its value, and the value.
pub fn put_field<T: Archived>(
    alloc: Global,
    name: &str,
    value: &T,
    out: &mut Vec<u8>,
) -> Result<(), OutOfMemory>
    ensures { OnOk result (out.new.items ≡ out.old.items ++ name.now ++ T.text value.now) }
{
    put_word(name, out)?;
    value.put(alloc, out)
}

/// Adds two fields.
pub fn put_pair<A: Archived, B: Archived>(
    alloc: Global,
    first: &str,
    one: &A,
    second: &str,
    other: &B,
    out: &mut Vec<u8>,
) -> Result<(), OutOfMemory>
    ensures { OnOk result (out.new.items
        ≡ out.old.items ++ (first.now ++ A.text one.now ++ second.now ++ B.text other.now)) }
{
    put_field(alloc, first, one, out)?;
    put_field(alloc, second, other, out)
}

impl Archived for u32 {
    ghost text = { decimal };

    fn put(&self, _alloc: Global, out: &mut Vec<u8>) -> Result<(), OutOfMemory> {
        put_number("", u64::from(*self), out)
    }
}

impl Archived for bool {
    ghost text = { truth_text };

    fn put(&self, _alloc: Global, out: &mut Vec<u8>) -> Result<(), OutOfMemory> {
        put_word(if *self { "true" } else { "false" }, out)
    }
}

impl Archived for NodeName {
    ghost text = { quoted };

    fn put(&self, _alloc: Global, out: &mut Vec<u8>) -> Result<(), OutOfMemory> {
        put_quoted(self.as_bytes(), out)
    }
}

impl Archived for Scope {
    ghost text = { quoted };

    fn put(&self, _alloc: Global, out: &mut Vec<u8>) -> Result<(), OutOfMemory> {
        put_quoted(self.as_bytes(), out)
    }
}

impl Archived for Group {
    ghost text = { quoted };

    fn put(&self, _alloc: Global, out: &mut Vec<u8>) -> Result<(), OutOfMemory> {
        put_quoted(self.as_bytes(), out)
    }
}

impl Archived for Body {
    ghost text = { hex_text };

    fn put(&self, alloc: Global, out: &mut Vec<u8>) -> Result<(), OutOfMemory> {
        let text = hex::encode(alloc, self.as_slice())?;
        put_word("\"", out)?;
        put_word(text.as_str(), out)?;
        put_word("\"", out)
    }
}

impl Archived for Pid {
    ghost text = { pid_text };

    fn put(&self, _alloc: Global, out: &mut Vec<u8>) -> Result<(), OutOfMemory> {
        put_word("\"", out)?;
        put_escaped(self.node.as_bytes(), out)?;
        put_number("/", u64::from(self.creation), out)?;
        put_number("/", self.number, out)?;
        put_word("\"", out)
    }
}

impl<T: Archived> Archived for Items<T> {
    ghost text = { list_text T.text };

    fn put(&self, alloc: Global, out: &mut Vec<u8>) -> Result<(), OutOfMemory> {
        put_list(alloc, self.as_slice(), out)
    }
}

impl<T: Archived> Archived for Shared<T> {
    ghost text = { list_text T.text };

    fn put(&self, alloc: Global, out: &mut Vec<u8>) -> Result<(), OutOfMemory> {
        put_list(alloc, self.as_slice(), out)
    }
}

impl Archived for GroupPids {
    ghost text = { group_text };

    fn put(&self, alloc: Global, out: &mut Vec<u8>) -> Result<(), OutOfMemory> {
        put_field(alloc, "{\"group\":", &self.group, out)?;
        put_field(alloc, ",\"pids\":", &self.pids, out)?;
        put_word("}", out)
    }
}

impl Archived for Update {
    ghost text = { update_text };

    fn put(&self, alloc: Global, out: &mut Vec<u8>) -> Result<(), OutOfMemory> {
        put_field(alloc, "{\"group\":", &self.group, out)?;
        put_field(alloc, ",\"leave\":", &self.leave, out)?;
        put_field(alloc, ",\"pids\":", &self.pids, out)?;
        put_word("}", out)
    }
}

impl Archived for OutFrame {
    ghost text = { frame_text };

    fn put(&self, alloc: Global, out: &mut Vec<u8>) -> Result<(), OutOfMemory> {
        put_field(alloc, "{\"wide\":", &self.wide, out)?;
        put_field(alloc, ",\"body\":", &self.body, out)?;
        put_word("}", out)
    }
}

impl Archived for GroupChange {
    ghost text = { group_change_text };

    fn put(&self, alloc: Global, out: &mut Vec<u8>) -> Result<(), OutOfMemory> {
        put_field(alloc, "{\"group\":", &self.group, out)?;
        put_field(alloc, ",\"left\":", &self.left, out)?;
        put_field(alloc, ",\"joined\":", &self.joined, out)?;
        put_word("}", out)
    }
}

impl Archived for Change {
    ghost text = { change_text };

    fn put(&self, alloc: Global, out: &mut Vec<u8>) -> Result<(), OutOfMemory> {
        put_field(alloc, "{\"scope\":", &self.scope, out)?;
        put_field(alloc, ",\"groups\":", &self.groups, out)?;
        put_word("}", out)
    }
}

/// Adds values in brackets.
fn put_list<T: Archived>(alloc: Global, items: &[T], out: &mut Vec<u8>) -> Result<(), OutOfMemory>
    ensures { OnOk result (out.new.items ≡ out.old.items ++ list_text T.text items.now) }
{
    put_word("[", out)?;
    put_commas(alloc, items, out)?;
    put_word("]", out)
}

/// Adds values with a comma between two of them.
fn put_commas<T: Archived>(alloc: Global, items: &[T], out: &mut Vec<u8>) -> Result<(), OutOfMemory>
    ensures { OnOk result (out.new.items ≡ out.old.items ++ commas T.text items.now) }
{
    let Some((first, others)) = items.split_first() else {
        return Ok(());
    };
    first.put(alloc, out)?;
    put_others(alloc, others, out)
}

/// Adds a comma before each value.
fn put_others<T: Archived>(alloc: Global, items: &[T], out: &mut Vec<u8>) -> Result<(), OutOfMemory>
    ensures { OnOk result (out.new.items ≡ out.old.items
        ++ flat_map (λ y. codes "," ++ T.text y) items.now) }
{
    for item in items {
        put_field(alloc, ",", item, out)?;
    }
    Ok(())
}

/// Adds a text between quotes.
fn put_quoted(text: &[u8], out: &mut Vec<u8>) -> Result<(), OutOfMemory>
    ensures { OnOk result (out.new.items ≡ out.old.items ++ quoted text.now) }
{
    put_word("\"", out)?;
    put_escaped(text, out)?;
    put_word("\"", out)
}

/// Adds a text as it stands between quotes.
#[tactic(auto, using(crate::proofs::Plain::plain))]
fn put_escaped(text: &[u8], out: &mut Vec<u8>) -> Result<(), OutOfMemory>
    ensures { OnOk result (out.new.items ≡ out.old.items ++ escaped text.now) }
{
    if text.contains(&b'"') || text.contains(&b'\\') {
        put_each_byte(text, out)
    } else {
        // As most texts are.
        put_bytes(text, out)
    }
}

fn put_each_byte(text: &[u8], out: &mut Vec<u8>) -> Result<(), OutOfMemory>
    ensures { OnOk result (out.new.items ≡ out.old.items ++ escaped text.now) }
{
    for byte in text {
        if *byte == b'"' || *byte == b'\\' {
            out.push(b'\\')?;
        }
        out.push(*byte)?;
    }
    Ok(())
}
