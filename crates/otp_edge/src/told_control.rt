//! Control messages that the peer is sent.
ghost use Rattle.std.specs.Prelude.{◌≡◌, ◌++◌, OnOk, codes};
ghost use Rattle.external_terms.specs.Values.{atom_bytes};
ghost use Rattle.otp_edge.specs.Bodies.{control_bytes, framed};
ghost use Rattle.otp_edge.specs.Controls.{missing_bytes, monitor_bytes};
ghost use Rattle.otp_edge.specs.Controls.{unlinked_bytes, untied_bytes};
ghost use Rattle.otp_edge.specs.Endings.{alone};
ghost use Rattle.otp_edge.specs.Processes.{pid_bytes};

use crate::body::Control;
use crate::open_scope::Watcher;
use crate::own_terms::{NO_PROCESS, NORMAL, member_term, put_alone};
use dist_types::{OutOfMemory, Pid};
use std::alloc::Global;

/// EXIT: a process that another one ties itself to has ended.
const EXIT: u8 = 3;
/// MONITOR_P: a process watches another.
const MONITOR_P: u8 = 19;
/// DEMONITOR_P: it watches no longer.
const DEMONITOR_P: u8 = 20;
/// MONITOR_P_EXIT: a process that another one watches has ended.
const MONITOR_P_EXIT: u8 = 21;
/// UNLINK_ID_ACK: two processes are no longer tied.
const UNLINK_ID_ACK: u8 = 36;

/// The process of a scope here watches that of the peer's.
pub fn put_watch(
    alloc: Global,
    own: &Pid,
    other: &Pid,
    reference: &[u8],
    out: &mut Vec<u8>,
) -> Result<(), OutOfMemory>
    ensures { OnOk result (out.new.items ≡ out.old.items ++ monitor_bytes own.now other.now
        reference.now) }
{
    put_between(alloc, MONITOR_P, own, other, reference, out)
}

/// It watches no longer.
pub fn put_unwatch(
    alloc: Global,
    own: &Pid,
    other: &Pid,
    reference: &[u8],
    out: &mut Vec<u8>,
) -> Result<(), OutOfMemory>
    ensures { OnOk result (out.new.items ≡ out.old.items ++ framed (alone (control_bytes 4 20
        (pid_bytes own.now) (pid_bytes other.now) reference.now))) }
{
    put_between(alloc, DEMONITOR_P, own, other, reference, out)
}

fn put_between(
    alloc: Global,
    operation: u8,
    own: &Pid,
    other: &Pid,
    rest: &[u8],
    out: &mut Vec<u8>,
) -> Result<(), OutOfMemory>
    ensures { OnOk result (out.new.items ≡ out.old.items ++ framed (alone (control_bytes 4 operation
        (pid_bytes own.now) (pid_bytes other.now) rest.now))) }
{
    let from = member_term(alloc, own)?;
    let to = member_term(alloc, other)?;
    let control = Control {
        arity: 4,
        operation,
        first: &from,
        second: &to,
        rest,
    };
    put_alone(alloc, &control, out)
}

/// The process of a scope here has ended: who watches it is told.
pub fn put_end(
    alloc: Global,
    own: &[u8],
    watcher: &Watcher,
    out: &mut Vec<u8>,
) -> Result<(), OutOfMemory>
    ensures { OnOk result (out.new.items ≡ out.old.items ++ framed (alone (control_bytes 5 21
        own.now watcher.now.from.items (watcher.now.reference.items ++ atom_bytes
        (codes "normal"))))) }
{
    put_exit(alloc, own, watcher, &NORMAL, out)
}

/// A process that is watched isn't there.
pub fn put_missing(
    alloc: Global,
    process: &[u8],
    watcher: &Watcher,
    out: &mut Vec<u8>,
) -> Result<(), OutOfMemory>
    ensures { OnOk result (out.new.items ≡ out.old.items ++ missing_bytes process.now
        watcher.now.from.items watcher.now.reference.items) }
{
    put_exit(alloc, process, watcher, &NO_PROCESS, out)
}

fn put_exit(
    alloc: Global,
    process: &[u8],
    watcher: &Watcher,
    reason: &[u8],
    out: &mut Vec<u8>,
) -> Result<(), OutOfMemory>
    ensures { OnOk result (out.new.items ≡ out.old.items ++ framed (alone (control_bytes 5 21
        process.now watcher.now.from.items (watcher.now.reference.items ++ reason.now)))) }
{
    let mut rest = Vec::new(alloc);
    rest.extend_from_slice(&watcher.reference)?;
    rest.extend_from_slice(reason)?;
    let control = Control {
        arity: 5,
        operation: MONITOR_P_EXIT,
        first: process,
        second: &watcher.from,
        rest: &rest,
    };
    put_alone(alloc, &control, out)
}

/// A process that another one ties itself to isn't there.
pub fn put_unlinked(
    alloc: Global,
    process: &[u8],
    to: &[u8],
    out: &mut Vec<u8>,
) -> Result<(), OutOfMemory>
    ensures { OnOk result (out.new.items ≡ out.old.items ++ unlinked_bytes process.now to.now) }
{
    let control = Control {
        arity: 4,
        operation: EXIT,
        first: process,
        second: to,
        rest: &NO_PROCESS,
    };
    put_alone(alloc, &control, out)
}

/// Two processes are no longer tied, by the number that the peer gave.
pub fn put_untied(
    alloc: Global,
    id: &[u8],
    process: &[u8],
    to: &[u8],
    out: &mut Vec<u8>,
) -> Result<(), OutOfMemory>
    ensures { OnOk result (out.new.items ≡ out.old.items ++ untied_bytes id.now process.now
        to.now) }
{
    let control = Control {
        arity: 4,
        operation: UNLINK_ID_ACK,
        first: id,
        second: process,
        rest: to,
    };
    put_alone(alloc, &control, out)
}
