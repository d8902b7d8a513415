//! The run of a whole script on a node that forgets.
ghost use Rattle.std.specs.Prelude.{◌≡◌, ◌≢◌, ◌↔◌, IfErr, IfSome, Err};
ghost use Rattle.pg_script.specs.Playing.{opened_with, MayOpen, IsBadOpening};
ghost use Rattle.pg_script.specs.Runs.{KeepsAs};
ghost use Rattle.pg_script.specs.declared.script.RunFault.TheVariants as faults;
ghost use Rattle.pg_script.specs.declared.keeping.KeepFault.TheVariants as keep_faults;
ghost use Rattle.policy_audit.specs.declared.opening.Opening.{Opening};

use crate::console::Console;
use crate::script::{RunFault, TURNS, answer_line, read_line};
use node_core::OpenFault;
use pg_text::without_feed;
use policy_audit::{Entry, Opening, Page};
use std::alloc::Global;
use std::io::{BufRead, Write};
use thiserror::Error as ErrorDerive;

/// Why a run on a node that forgets did not end with the script.
#[derive(Clone, Copy, Debug, PartialEq, Eq, ErrorDerive)]
pub enum KeepFault {
    #[error("{0}")]
    Run(RunFault),
    #[error("the archive can't be written")]
    Archive,
}

impl From<RunFault> for KeepFault {
    ghost use Rattle.std.specs.Prelude.{◌≡◌};
    ghost use Rattle.pg_script.specs.declared.keeping.KeepFault.TheVariants as keep_faults;

    ghost from_gives = { λ fault kept. kept ≡ keep_faults.Run fault };

    fn from(fault: RunFault) -> KeepFault {
        KeepFault::Run(fault)
    }
}

/// An entry could not be taken: who was to take it knows why.
#[derive(Clone, Copy, Debug, PartialEq, Eq)]
pub struct Unkept;

impl From<Unkept> for KeepFault {
    ghost use Rattle.std.specs.Prelude.{◌≡◌};
    ghost use Rattle.pg_script.specs.declared.keeping.KeepFault.TheVariants as keep_faults;

    ghost from_gives = { λ _ kept. kept ≡ keep_faults.Archive };

    fn from(_fault: Unkept) -> KeepFault {
        KeepFault::Archive
    }
}

/// What takes the entries that a node lets go.
pub trait Keeper {
    /// An entry, behind those that it took before.
    fn keep(&mut self, alloc: Global, entry: &Entry) -> Result<(), Unkept>;
}

/// Plays a script as `play` does, on a node that hands out its old entries: never one of the `keep`
/// newest, nor one that a monitor has still to be told of. The keeper takes the entries that are
/// handed out, and at the end those that are left: each once, in their order.
pub fn play_keeping<R: BufRead, W: Write, K: Keeper>(
    alloc: Global,
    opening: Opening,
    keep: u32,
    reader: &mut R,
    line: &mut Vec<u8>,
    writer: &mut W,
    keeper: &mut K,
) -> Result<(), KeepFault>
    ensures bad { (result ≡ Err (keep_faults.Run faults.BadOpening)) ↔ IsBadOpening opening }
    ensures untouched { result ≡ Err (keep_faults.Run faults.BadOpening) → (reader.new ≡ reader.old)
        × (writer.new ≡ writer.old) × (keeper.new ≡ keeper.old) }
    ensures text { MayOpen opening → IfSome (R.remaining reader.old) (λ script.
        KeepsAs keep opening script (W.contents writer.old) (W.contents writer.new) result) }
{
    match Console::open(alloc, opening) {
        Ok(mut console) => keep_all(&mut console, keep, reader, line, writer, keeper),
        Err(OpenFault::BadLimit | OpenFault::BadLinks) => Err(KeepFault::Run(RunFault::BadOpening)),
        Err(OpenFault::OutOfMemory) => Err(KeepFault::Run(RunFault::Memory)),
    }
}

/// Plays the lines of a script, and gives the keeper all entries.
fn keep_all<R: BufRead, W: Write, K: Keeper>(
    console: &mut Console,
    keep: u32,
    reader: &mut R,
    line: &mut Vec<u8>,
    writer: &mut W,
    keeper: &mut K,
) -> Result<(), KeepFault>
    ensures good { IfErr result (λ fault. fault ≢ keep_faults.Run faults.BadOpening) }
    ensures text { (o : Opening) → console.old ≡ opened_with o
        → IfSome (R.remaining reader.old) (λ script.
        KeepsAs keep o script (W.contents writer.old) (W.contents writer.new) result) }
{
    let played = keep_lines(console, keep, reader, line, writer, keeper);
    if keep_rest(*line.allocator(), console, keeper).is_err() {
        return Err(KeepFault::Archive);
    }
    played
}

/// Plays the lines of a script, up to the first that can't be read.
fn keep_lines<R: BufRead, W: Write, K: Keeper>(
    console: &mut Console,
    keep: u32,
    reader: &mut R,
    line: &mut Vec<u8>,
    writer: &mut W,
    keeper: &mut K,
) -> Result<(), KeepFault>
    ensures good { IfErr result (λ fault. fault ≢ keep_faults.Run faults.BadOpening) }
    ensures text { (o : Opening) → console.old ≡ opened_with o
        → IfSome (R.remaining reader.old) (λ script.
        KeepsAs keep o script (W.contents writer.old) (W.contents writer.new) result) }
{
    let alloc = *line.allocator();
    let mut out = Vec::new(alloc);
    let mut gone = Vec::new(alloc);
    for turn in 0..TURNS {
        if !read_line(line, reader)? {
            return Ok(());
        }
        let said = without_feed(line.as_slice());
        answer_line(alloc, turn + 1, said, console, &mut out, writer)?;
        let page = console.forget(keep);
        keep_page(alloc, page, &mut gone, keeper)?;
    }
    Err(KeepFault::Run(RunFault::Read))
}

/// Gives the keeper the entries of a page that was handed out. They are let go one a turn, so that
/// the next entry finds the memory of one; many at once leave the heap in pieces.
fn keep_page<K: Keeper>(
    alloc: Global,
    page: Option<Page>,
    gone: &mut Vec<Entry>,
    keeper: &mut K,
) -> Result<(), Unkept> {
    gone.pop();
    let Some(page) = page else {
        return Ok(());
    };
    for entry in page.as_slice() {
        keeper.keep(alloc, entry)?;
    }
    *gone = page.into_vec();
    Ok(())
}

/// Gives the keeper the entries that are left.
fn keep_rest<K: Keeper>(alloc: Global, console: &Console, keeper: &mut K) -> Result<(), Unkept> {
    for entry in console.core().audit().after(0) {
        keeper.keep(alloc, entry)?;
    }
    Ok(())
}
