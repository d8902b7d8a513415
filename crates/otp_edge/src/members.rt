//! Lists of processes.
ghost use Rattle.std.specs.Prelude.{◌≡◌, ◌≢◌, ◌<◌, ◌++◌, ℕ, List, length, All, IfOk, IfErr};
ghost use Rattle.std.specs.List.{flat_map};
ghost use Rattle.dist_types.specs.declared.pid.Pid.{Pid};
ghost use Rattle.otp_edge.specs.Lists.{listed, IsList, StandsFirst, Front};
ghost use Rattle.otp_edge.specs.PgMessages.{Members, members_bytes, members_of, AreMembers};
ghost use Rattle.otp_edge.specs.Processes.{IsPid, pid_bytes};
ghost use Rattle.otp_edge.specs.declared.fault.HearFault.TheVariants as faults;

use crate::fault::HearFault;
use crate::list::front_at;
use crate::process::member_at;
use dist_types::Pid;
use external_terms::after_nil;
use std::alloc::Global;

/// The fewest bytes of a process: two tags, length 1, a name of 3, id 4, serial 4, creation 4.
const MIN_PID: usize = 18;

/// The processes of a join or a leave at the front: one alone, or a list of them.
pub fn members_at(alloc: Global, bytes: &[u8]) -> Result<(Vec<Pid>, &[u8]), HearFault>
    ensures found { IfOk result (λ read. (ms : Members) × (read.0.items ≡ members_of ms) ×
        StandsFirst members_bytes AreMembers bytes.now ms read.1.now) }
    ensures only { (ms : Members) (rest : List ℕ) → AreMembers ms →
        bytes.now ≡ members_bytes ms ++ rest → IfErr result (λ fault. fault ≢ faults.NoMessage) }
    ensures refused { IfErr result (λ fault. fault ≢ faults.TooManyRows) }
{
    match member_at(alloc, bytes, None) {
        Ok((pid, rest)) => {
            let mut pids = Vec::with_capacity(alloc, 1)?;
            pids.push(pid)?;
            Ok((pids, rest))
        }
        Err(HearFault::NoMessage) => listed_at(alloc, bytes),
        Err(fault) => Err(fault),
    }
}

/// The processes of the list at the front.
pub fn listed_at(alloc: Global, bytes: &[u8]) -> Result<(Vec<Pid>, &[u8]), HearFault>
    ensures found { IfOk result (λ read. StandsFirst (listed pid_bytes) (IsList IsPid) bytes.now
        read.0.items read.1.now) }
    ensures only { (pids : List Pid) (rest : List ℕ) → IsList IsPid pids →
        bytes.now ≡ listed pid_bytes pids ++ rest →
        IfErr result (λ fault. fault ≢ faults.NoMessage) }
    ensures refused { IfErr result (λ fault. fault ≢ faults.TooManyRows) }
{
    let Some((count, rest)) = front_at(bytes) else {
        return Err(HearFault::NoMessage);
    };
    let (pids, rest) = pids_at(alloc, count, rest)?;
    let Some(rest) = after_nil(rest) else {
        return Err(HearFault::NoMessage);
    };
    Ok((pids, rest))
}

/// That many processes, one behind the other.
fn pids_at(alloc: Global, count: u32, bytes: &[u8]) -> Result<(Vec<Pid>, &[u8]), HearFault>
    ensures found { IfOk result (λ read. (length read.0.items ≡ count) ×
        Front pid_bytes IsPid bytes.now read.0.items read.1.now) }
    ensures only { (pids : List Pid) (later : List ℕ) → length pids ≡ count → All IsPid pids →
        bytes.now ≡ flat_map pid_bytes pids ++ later →
        IfErr result (λ fault. fault ≢ faults.NoMessage) }
    ensures refused { IfErr result (λ fault. fault ≢ faults.TooManyRows) }
{
    let mut rest = bytes;
    // Room for no more processes than the bytes can hold, whatever the count.
    let mut pids = Vec::with_capacity(alloc, (count as usize).min(bytes.len() / MIN_PID))?;
    for _ in 0..count {
        let (pid, behind) = member_at(alloc, rest, pids.last())?;
        pids.push(pid)?;
        rest = behind;
    }
    Ok((pids, rest))
}
