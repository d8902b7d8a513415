//! What is handed in of a body of a stock node.
ghost use Rattle.std.specs.Prelude.{◌≡◌, ℕ, List, IfErr, IfOk, None};
ghost use Rattle.otp_edge.specs.Bodies.{IsBody};
ghost use Rattle.otp_edge.specs.declared.heard.Heard.{Heard};
ghost use Rattle.otp_edge.specs.Edges.{Hears, Stays};
ghost use Rattle.otp_edge.specs.Signals.{SaysTooMany};
ghost use Rattle.otp_edge.specs.declared.fault.HearFault.TheVariants as faults;
ghost use Rattle.otp_link.specs.Counted.{AreCountsOf, Follows, IsCutAs, IsCutBy};

use crate::table::Table;
use dist_types::{OutOfMemory, Scope};
use link_frames::Message;
use otp_edge::{Edge, HearFault, Heard};
use std::alloc::Global;

/// What comes of a body, without its length: just what the edge hears; of a leave each row as often
/// as it is asked for, and as the table lists it.
pub fn hear_body<T: Table>(
    edge: &mut Edge,
    alloc: Global,
    body: &[u8],
    table: &T,
) -> Result<Heard, HearFault>
    ensures stays { Stays edge.old edge.new }
    ensures heard { IfOk result (λ heard. (first : Heard) × Hears edge.old edge.new body.now first ×
        Follows (IsCutAs (T.lists table.now)) first heard) }
    ensures refused { IfErr result (λ fault. fault ≡ faults.NoMessage →
        (control behind : List ℕ) → IsBody control behind body.now → ⊥) }
    ensures too_many { IfErr result (λ fault. fault ≡ faults.TooManyRows →
        SaysTooMany body.now) }
{
    let heard = edge.hear(alloc, body)?;
    let counts = counts_of(alloc, &heard, table)?;
    let cut = cut_heard(alloc, heard, &counts)?;
    Ok(cut)
}

/// How often the table lists each row of a leave that was heard.
fn counts_of<T: Table>(alloc: Global, heard: &Heard, table: &T) -> Result<Vec<usize>, OutOfMemory>
    ensures { IfOk result (λ counts. AreCountsOf (T.lists table.now) heard.now.left counts.items) }
{
    match &heard.left {
        Some(left) => {
            let counts = table.counts(alloc, &left.scope, left.rows.as_slice())?;
            Ok(counts)
        }
        None => Ok(Vec::new(alloc)),
    }
}

/// Cuts a leave that was heard to what is listed: `counts` has for each of its rows how often.
pub fn cut_heard(alloc: Global, heard: Heard, counts: &[usize]) -> Result<Heard, OutOfMemory>
    ensures { IfOk result (λ cut. Follows (IsCutBy counts.now) heard cut) }
{
    let Heard {
        down,
        message,
        left,
        owed,
    } = heard;
    match left {
        Some(left) => {
            let message = left.cut(alloc, counts)?;
            Ok(handed(down, message, owed))
        }
        None => Ok(handed(down, message, owed)),
    }
}

/// What is handed in and sent back, where nothing is left to be cut.
fn handed(down: Option<Scope>, message: Option<Message>, owed: Vec<u8>) -> Heard
    ensures down { result.down ≡ down }
    ensures message { result.message ≡ message }
    ensures left { result.left ≡ None }
    ensures owed { result.owed ≡ owed }
{
    Heard {
        down,
        message,
        left: None,
        owed,
    }
}
