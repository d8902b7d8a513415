//! Processes as terms.
ghost use Rattle.std.specs.Prelude.{◌≡◌, ◌≢◌, ◌<◌, ◌^◌, ◌++◌, ℕ, List, IfOk, IfErr, IfSome};
ghost use Rattle.dist_types.specs.declared.pid.Pid.{Pid};
ghost use Rattle.dist_types.specs.Text.{IsNodeName};
ghost use Rattle.external_terms.specs.Values.{process_said, ProcessFits};
ghost use Rattle.otp_edge.specs.Lists.{StandsFirst};
ghost use Rattle.otp_edge.specs.Processes.{IsPid, process_of, pid_bytes};
ghost use Rattle.otp_edge.specs.declared.fault.HearFault.TheVariants as faults;

use crate::fault::HearFault;
use dist_types::{NodeName, Pid, TextFault, TryClone};
use external_terms::{PidTerm, pid_at};
use std::alloc::Global;

/// The ids for one serial.
const IDS: u64 = 0x1_0000_0000;

/// The process as a term.
pub fn pid_term(pid: &Pid) -> PidTerm<'_>
    ensures value { process_said result ≡ process_of pid.now }
    ensures fits { ProcessFits (process_said result) }
    ensures limits { IsPid pid.now }
{
    PidTerm {
        node: pid.node.as_bytes(),
        id: (pid.number % IDS) as u32,
        serial: (pid.number / IDS) as u32,
        creation: creation_of(pid),
    }
}

/// The creation, of 32 bits.
fn creation_of(pid: &Pid) -> u32
    ensures value { result ≡ pid.now.creation }
    ensures limits { result < 2 ^ 32 }
{
    pid.creation
}

/// The process at the front, and what stands behind it. It shares the name that it has in common
/// with the process before it.
pub fn member_at<'a>(
    alloc: Global,
    bytes: &'a [u8],
    before: Option<&Pid>,
) -> Result<(Pid, &'a [u8]), HearFault>
    ensures found { IfOk result (λ read. StandsFirst pid_bytes IsPid bytes.now read.0 read.1.now) }
    ensures only { (pid : Pid) (rest : List ℕ) → IsPid pid → bytes.now ≡ pid_bytes pid ++ rest →
        IfErr result (λ fault. fault ≢ faults.NoMessage) }
    ensures refused { IfErr result (λ fault. fault ≢ faults.TooManyRows) }
{
    let Some((term, rest)) = pid_at(bytes) else {
        return Err(HearFault::NoMessage);
    };
    let pid = pid_of(alloc, &term, before)?;
    Ok((pid, rest))
}

/// The process that a term is.
pub fn only_member(alloc: Global, term: &[u8]) -> Result<Option<Pid>, HearFault>
    ensures found { IfOk result (λ read. IfSome read (λ pid. IsPid pid ×
        (term.now ≡ pid_bytes pid))) }
    ensures refused { IfErr result (λ fault. fault ≡ faults.OutOfMemory) }
{
    match member_at(alloc, term, None) {
        Ok((pid, rest)) if rest.is_empty() => Ok(Some(pid)),
        Ok(_) => Ok(None),
        Err(HearFault::NoMessage) => Ok(None),
        Err(fault) => Err(fault),
    }
}

/// The process of a term.
fn pid_of(alloc: Global, term: &PidTerm<'_>, before: Option<&Pid>) -> Result<Pid, HearFault>
    requires { ProcessFits (process_said term.now) }
    ensures found { IfOk result (λ pid. IsPid pid × (process_said term.now ≡ process_of pid)) }
    ensures only { (pid : Pid) → IsPid pid → process_said term.now ≡ process_of pid →
        IfErr result (λ fault. fault ≢ faults.NoMessage) }
    ensures refused { IfErr result (λ fault. fault ≢ faults.TooManyRows) }
{
    Ok(Pid {
        node: node_of(alloc, term.node, before)?,
        creation: term.creation,
        number: u64::from(term.serial) * IDS + u64::from(term.id),
    })
}

fn node_of(alloc: Global, text: &[u8], before: Option<&Pid>) -> Result<NodeName, HearFault>
    ensures found { IfOk result (λ node. IsNodeName node × (node ≡ text.now)) }
    ensures only { IsNodeName text.now → IfErr result (λ fault. fault ≢ faults.NoMessage) }
    ensures refused { IfErr result (λ fault. fault ≢ faults.TooManyRows) }
{
    match before {
        Some(pid) if pid.node.as_bytes() == text => Ok(pid.node.try_clone(alloc)?),
        _ => Ok(NodeName::parse(alloc, text)?),
    }
}
