//! Links to stock nodes of Erlang/OTP, as they are told of.
use dist_types::OutOfMemory;
use link_notes::Edges;
use otp_edge::Dropped;
use pg_log::{Level, Log, number, text};
use pg_page::{NodeView, ReasonView};
use std::sync::Wait;
use std::time::Clock;

/// Rows of a group weren't told, since stock nodes were told too many other groups as atoms.
const TOO_MANY_ATOMS: &str = "too_many_atoms";

/// Shows what wasn't carried over links to stock nodes, for each reason.
pub(crate) fn look_at_dropped<R: Wait>(
    rt: &R,
    edges: &Edges,
    view: &mut NodeView,
) -> Result<(), OutOfMemory> {
    for reason in Dropped::ALL {
        view.dropped.push(ReasonView {
            reason: reason.name(),
            times: edges.dropped(rt, reason),
        })?;
    }
    view.dropped.push(ReasonView {
        reason: TOO_MANY_ATOMS,
        times: edges.refused_atoms(),
    })?;
    Ok(())
}

/// Logs what wasn't carried over links to stock nodes since the program has begun: a line for
/// each reason that there was.
pub(crate) fn log_dropped<R: Wait + Clock>(rt: &R, log: &Log, edges: &Edges) {
    for reason in Dropped::ALL {
        log_reason(rt, log, reason.name(), edges.dropped(rt, reason));
    }
    log_reason(rt, log, TOO_MANY_ATOMS, edges.refused_atoms());
}

fn log_reason<R: Wait + Clock>(rt: &R, log: &Log, reason: &'static str, times: u64) {
    if times > 0 {
        let fields = [text("reason", reason), number("times", times)];
        log.tell(rt, Level::Info, "otp_dropped", &fields);
    }
}
