//! The lines of an archive.
ghost use Rattle.std.specs.Prelude.{◌≡◌, ◌++◌, OnOk, OnErr};
ghost use Rattle.pg_archive.specs.Entries.{life_text, who_text, counts_text, links_text, life_line, judged_text, changed_text, entry_text, entry_line, entry_lines};

use crate::archived::{put_field, put_pair};
use crate::events::put_head;
use crate::life::Life;
use crate::verdicts::put_verdict;
use dist_types::{NodeName, OutOfMemory};
use pg_text::{put_number, put_word};
use policy_audit::{Changes, Entry};
use std::alloc::Global;

/// Room for most lines, in bytes.
const LINE: usize = 256;

/// Adds the line that a life begins with. After want of memory nothing is added.
pub fn put_life(alloc: Global, out: &mut Vec<u8>, life: &Life) -> Result<(), OutOfMemory>
    ensures ok { OnOk result (out.new.items ≡ out.old.items ++ life_line life.now) }
    ensures memory { OnErr result (out.new.items ≡ out.old.items) }
{
    let mut line = Vec::with_capacity(alloc, LINE)?;
    add_life(alloc, life, &mut line)?;
    put_word("\n", &mut line)?;
    out.extend_from_slice(line.as_slice())?;
    Ok(())
}

/// Adds the line of an entry: its event without a cookie, how it was judged, and what it changed.
/// After want of memory nothing is added.
pub fn put_entry(alloc: Global, out: &mut Vec<u8>, entry: &Entry) -> Result<(), OutOfMemory>
    ensures ok { OnOk result (out.new.items ≡ out.old.items ++ entry_line entry.now) }
    ensures memory { OnErr result (out.new.items ≡ out.old.items) }
{
    let mut line = Vec::with_capacity(alloc, LINE)?;
    add_line(alloc, entry, &mut line)?;
    out.extend_from_slice(line.as_slice())?;
    Ok(())
}

/// Adds the lines of entries, in their order. After want of memory nothing is added.
pub fn put_entries(alloc: Global, out: &mut Vec<u8>, entries: &[Entry]) -> Result<(), OutOfMemory>
    ensures ok { OnOk result (out.new.items ≡ out.old.items ++ entry_lines entries.now) }
    ensures memory { OnErr result (out.new.items ≡ out.old.items) }
{
    let mut lines = Vec::new(alloc);
    add_lines(alloc, entries, &mut lines)?;
    out.extend_from_slice(lines.as_slice())?;
    Ok(())
}

fn add_lines(alloc: Global, entries: &[Entry], out: &mut Vec<u8>) -> Result<(), OutOfMemory>
    ensures { OnOk result (out.new.items ≡ out.old.items ++ entry_lines entries.now) }
{
    for entry in entries {
        add_line(alloc, entry, out)?;
    }
    Ok(())
}

fn add_line(alloc: Global, entry: &Entry, out: &mut Vec<u8>) -> Result<(), OutOfMemory>
    ensures { OnOk result (out.new.items ≡ out.old.items ++ entry_line entry.now) }
{
    add_entry(alloc, entry, out)?;
    put_word("\n", out)
}

/// Adds what a life begins with, without its line feed. Where memory is wanting, a part of it may
/// be added.
#[tactic(auto, unfolding(crate::specs::Entries::life_text))]
pub fn add_life(alloc: Global, life: &Life, out: &mut Vec<u8>) -> Result<(), OutOfMemory>
    ensures { OnOk result (out.new.items ≡ out.old.items ++ life_text life.now) }
{
    add_who(alloc, &life.name, life.hidden, out)?;
    add_counts(alloc, life.creation, life.entries, out)?;
    add_links(life.links, out)
}

#[tactic(auto, unfolding(crate::specs::Entries::who_text))]
fn add_who(
    alloc: Global,
    name: &NodeName,
    hidden: bool,
    out: &mut Vec<u8>,
) -> Result<(), OutOfMemory>
    ensures { OnOk result (out.new.items ≡ out.old.items ++ who_text name.now hidden) }
{
    put_pair(alloc, "{\"life\":", name, ",\"hidden\":", &hidden, out)
}

#[tactic(auto, unfolding(crate::specs::Entries::counts_text))]
fn add_counts(
    alloc: Global,
    creation: u32,
    entries: u32,
    out: &mut Vec<u8>,
) -> Result<(), OutOfMemory>
    ensures { OnOk result (out.new.items ≡ out.old.items ++ counts_text creation entries) }
{
    put_pair(
        alloc,
        ",\"creation\":",
        &creation,
        ",\"entries\":",
        &entries,
        out,
    )
}

#[tactic(auto, unfolding(crate::specs::Entries::links_text))]
fn add_links(links: u8, out: &mut Vec<u8>) -> Result<(), OutOfMemory>
    ensures { OnOk result (out.new.items ≡ out.old.items ++ links_text links) }
{
    put_number(",\"links\":", u64::from(links), out)?;
    put_word("}", out)
}

/// Adds an entry without its line feed. Where memory is wanting, a part of it may be added.
pub fn add_entry(alloc: Global, entry: &Entry, out: &mut Vec<u8>) -> Result<(), OutOfMemory>
    ensures { OnOk result (out.new.items ≡ out.old.items ++ entry_text entry.now) }
{
    add_judged(alloc, entry, out)?;
    add_change(alloc, &entry.change, out)
}

/// Adds an entry up to what it changed.
#[tactic(auto, unfolding(crate::specs::Entries::judged_text))]
pub fn add_judged(alloc: Global, entry: &Entry, out: &mut Vec<u8>) -> Result<(), OutOfMemory>
    ensures { OnOk result (out.new.items ≡ out.old.items ++ judged_text entry.now) }
{
    put_head(alloc, entry.number, entry.seat, &entry.event, out)?;
    put_verdict(alloc, &entry.verdict, out)
}

/// Adds what an entry changed, and the end of its line but for the line feed.
#[tactic(auto, unfolding(crate::specs::Entries::changed_text))]
fn add_change(alloc: Global, change: &Changes, out: &mut Vec<u8>) -> Result<(), OutOfMemory>
    ensures { OnOk result (out.new.items ≡ out.old.items ++ changed_text change.now) }
{
    put_field(alloc, ",\"change\":", change, out)?;
    put_word("}", out)
}
