//! What a connection gains and loses by a call.
ghost use Rattle.std.specs.Prelude.{◌≡◌, ◌<◌, vec_len, vec_capacity, IfOk, OnOk, OnErr};
ghost use Rattle.pg_session.specs.Kinds.{exits, exit_at, stake_of, watches_after};
ghost use Rattle.pg_session.specs.Outcomes.{Kept};

use crate::caller::Outcome;
use crate::kind::Kind;
use crate::processes::Processes;
use crate::watch::Watch;
use dist_types::{OutOfMemory, Pid, TryClone};
use std::alloc::Global;

/// What a connection has to note once a call is accepted.
#[derive(Drop)]
pub enum Stake {
    Nothing,
    /// A process that exits.
    Exit(Pid),
    /// A monitor that begins.
    Begin(Watch),
    /// A monitor that ends, by the number of its entry.
    End(u32),
}

/// Makes room for what a call may bring, and tells what it is about.
pub fn prepare(
    alloc: Global,
    processes: &mut Processes,
    watches: &mut Vec<Watch>,
    kind: Kind<'_>,
) -> Result<Stake, OutOfMemory>
    ensures stake { IfOk result (λ stake. exit_at stake ≡ exits kind.entry) }
    ensures is { IfOk result (λ stake. stake ≡ stake_of kind.entry) }
    ensures same { processes.new ≡ processes.old }
    ensures watches { watches.new.items ≡ watches.old.items }
    ensures room { OnOk result (vec_len watches.new < vec_capacity watches.new) }
{
    processes.reserve()?;
    watches.reserve(1)?;
    Ok(match kind {
        Kind::Exit(pid) => Stake::Exit(pid.try_clone(alloc)?),
        Kind::Monitor(scope, group) => Stake::Begin(Watch::of(alloc, scope, group)?),
        Kind::Demonitor(number) => Stake::End(number),
        _ => Stake::Nothing,
    })
}

/// Keeps what a call has brought, in the room that there is, and lets go of what it has ended.
pub fn keep(
    processes: &mut Processes,
    watches: &mut Vec<Watch>,
    outcome: Outcome,
    stake: Stake,
) -> Result<(), OutOfMemory>
    requires { vec_len watches.old < vec_capacity watches.old }
    ensures ok { OnOk result (Kept outcome (exit_at stake) processes.old processes.new) }
    ensures watches { OnOk result
        (watches.new.items ≡ watches_after outcome stake watches.old.items) }
    ensures same { OnErr result (processes.new ≡ processes.old) }
    ensures still { OnErr result (watches.new.items ≡ watches.old.items) }
{
    match (outcome, stake) {
        (Outcome::Refused(_), _) => {}
        (Outcome::Process(pid), _) => processes.add(pid)?,
        (Outcome::Monitor(number), Stake::Begin(mut watch)) => {
            watch.number = number;
            watches.push_reserved(watch);
        }
        (Outcome::Done, Stake::End(number)) => watches.retain(|watch| watch.number != number),
        (_, Stake::Exit(pid)) => processes.remove(&pid),
        _ => {}
    }
    Ok(())
}
