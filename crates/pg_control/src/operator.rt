//! Standard input and output, as a connection that lasts as long as the program.
use crate::connection::Desk;
use pg_asked::Asked;
use pg_log::{Level, text};
use pg_session::{Rights, Seen};
use pg_streams::{QueuedLines, QueuedOutput, Streams};
use std::sync::Wait;
use std::thread::{Scope, Threads};
use std::time::Clock;

/// Why a node ends to which nobody has said so.
const INPUT_ENDED: &str = "standard input has ended, and there is no --control";

/// The operator of the node.
#[derive(Drop)]
pub struct Operator<'a, N> {
    desk: Desk<'a, N>,
    streams: Streams<'a>,
    /// Whether the end of standard input is that of the program.
    is_alone: bool,
}

impl<'a, N: Asked> Operator<'a, N> {
    pub fn new(node: &'a N, seat: usize, streams: Streams<'a>, is_alone: bool) -> Operator<'a, N> {
        Operator {
            desk: Desk::new(node, seat, Rights::All),
            streams,
            is_alone,
        }
    }

    /// Answers the lines of standard input.
    fn answer<R: Wait + Clock>(&self, rt: &R) {
        let Streams { lines, output } = self.streams;
        let node = self.desk.node;
        let mut lines = QueuedLines { rt, lines };
        let mut writer = QueuedOutput { rt, output };
        for _ in rt.forever() {
            match self.desk.answer_all(rt, &mut lines, &mut writer) {
                Ok(()) => break,
                // There was no memory for a line: the next life goes on.
                Err(_) => node.want_memory(rt),
            }
        }
        if self.is_alone && !node.is_quitting() && !node.is_draining() {
            output.be_patient(rt);
            let fields = [text("reason", INPUT_ENDED)];
            node.log().tell(rt, Level::Info, "input_ended", &fields);
            node.quit(rt);
        }
    }

    /// Tells news on standard output until the program ends.
    fn tell<R: Wait + Clock>(&self, rt: &R, seen: Seen) {
        let Streams { lines, output } = self.streams;
        let node = self.desk.node;
        let mut writer = QueuedOutput { rt, output };
        for _ in rt.forever() {
            match self.desk.tell_all(rt, seen, &mut writer) {
                Ok(()) => break,
                // There was no memory for a line: the next life tells what it can.
                Err(_) => {
                    node.want_memory(rt);
                    node.wait_for_room(rt);
                }
            }
        }
        lines.end(rt);
    }

    /// Waits for a fault of standard output, which is told, or ends the program that is nothing
    /// without it.
    fn watch<R: Wait + Clock>(&self, rt: &R) {
        let node = self.desk.node;
        let output = self.streams.output;
        let Some(fault) = output.wait_for_fault(rt) else {
            return;
        };
        if output.is_needed {
            node.quit(rt);
        } else if let Ok(reason) = format!(in node.alloc();
            "{fault}; nothing more is written there"
        ) {
            node.log().warn(rt, "output", reason.as_str());
        }
    }
}

/// Starts the threads of the operator, who has been told so much: whether all could be made.
pub fn start_operator<'s, E: 's, R: Threads + Wait + Clock + Sync + 's, N: Asked + Sync + 's>(
    scope: &'s Scope<'s, E>,
    rt: &'s R,
    operator: &'s Operator<'_, N>,
    seen: Seen,
) -> bool {
    let is_answered = scope.spawn(move || operator.answer(rt)).is_ok();
    let is_told = scope.spawn(move || operator.tell(rt, seen)).is_ok();
    let is_watched = scope.spawn(move || operator.watch(rt)).is_ok();
    is_answered && is_told && is_watched
}
