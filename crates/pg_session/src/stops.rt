//! Scopes that stop while processes of a connection are members there.
ghost use Rattle.std.specs.Prelude.{OnOk};
ghost use Rattle.pg_session.specs.Notices.{TellsMore};

use crate::notice::put_stopped;
use crate::processes::Processes;
use dist_types::{GroupChange, OutOfMemory};
use policy_audit::{Change, Entry, Event, Later};

/// Adds which scopes these entries have stopped, of those in which one of the processes was.
pub fn put_stops(
    processes: &Processes,
    entries: Later<'_>,
    out: &mut Vec<u8>,
) -> Result<(), OutOfMemory>
    ensures { OnOk result (TellsMore out.old.items out.new.items) }
{
    for entry in entries {
        put_stop(processes, entry, out)?;
    }
    Ok(())
}

fn put_stop(processes: &Processes, entry: &Entry, out: &mut Vec<u8>) -> Result<(), OutOfMemory>
    ensures { OnOk result (TellsMore out.old.items out.new.items) }
{
    match &entry.event {
        Event::StopScope(scope) if has_left(processes, entry.change.as_slice()) => {
            put_stopped(scope, out)
        }
        _ => Ok(()),
    }
}

/// Whether one of the processes left a group.
fn has_left(processes: &Processes, changes: &[Change]) -> bool {
    changes.iter().any(|change| has_left_group(processes, change.groups.as_slice()))
}

fn has_left_group(processes: &Processes, groups: &[GroupChange]) -> bool {
    groups
        .iter()
        .any(|group| processes.has_any(group.left.as_slice()))
}
