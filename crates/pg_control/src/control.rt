//! The control socket: its connections ask by lines, each with a seat of its own.
use crate::connection::Desk;
use crate::door::Door;
use crate::refusing::{refuse, refuse_here};
use pg_asked::{Asked, Stream};
use pg_log::{Level, Taking, number};
use pg_session::Seen;
use pg_streams::ReadLines;
use std::io::{self, BufReader, ErrorKind};
use std::net::Shutdown;
use std::os::unix::net::UnixStream;
use std::sync::{Arc, Wait};
use std::thread;
use std::thread::{Scope, Threads};
use std::time::{Clock, Duration};

/// The milliseconds that a write may stand still, because the connection isn't read from.
const PATIENCE: u64 = 10_000;

/// Starts the thread that takes connections, where there is a door for them: whether it could be
/// made.
pub fn start_control<'s, E: 's, R: Threads + Wait + Clock + Sync + 's, N: Asked + Sync + 's>(
    scope: &'s Scope<'s, E>,
    rt: &'s R,
    node: &'s N,
    door: Option<&'s Door<'_>>,
) -> bool {
    match door {
        Some(door) => scope.spawn(move || serve_control(rt, node, door)).is_ok(),
        None => true,
    }
}

/// Takes connections until the program is to end, and waits until each has ended.
fn serve_control<R: Threads + Wait + Clock + Sync, N: Asked + Sync>(
    rt: &R,
    node: &N,
    door: &Door<'_>,
) {
    thread::scope(thread::scope_env(), rt, |scope| {
        take_all(scope, rt, node, door)
    });
}

/// Takes connections until the program is to end.
fn take_all<'s, E: 's, R: Threads + Wait + Clock + Sync + 's, N: Asked + Sync + 's>(
    scope: &'s Scope<'s, E>,
    rt: &'s R,
    node: &'s N,
    door: &Door<'_>,
) {
    let mut taking = Taking::of("client");
    for _ in rt.forever() {
        let accepted = door.listener.accept();
        if node.is_quitting() {
            return;
        }
        if let Some((stream, _)) = taking.taken(rt, node.log(), accepted) {
            take_in(scope, rt, node, door, stream);
        }
    }
}

/// Serves a connection, or tells it that there is no room.
fn take_in<'s, E: 's, R: Threads + Wait + Clock + Sync + 's, N: Asked + Sync + 's>(
    scope: &'s Scope<'s, E>,
    rt: &'s R,
    node: &'s N,
    door: &Door<'_>,
    stream: UnixStream,
) {
    match Arc::new(node.alloc(), stream) {
        Ok(stream) => {
            if !is_served(scope, rt, node, door, &stream) {
                refuse(scope, rt, &node.clients().hearers, stream);
            }
        }
        Err(failed) => refuse_here(rt, &failed.value),
    }
}

/// Gives a connection a seat and a thread: whether both could be had.
fn is_served<'s, E: 's, R: Threads + Wait + Clock + Sync + 's, N: Asked + Sync + 's>(
    scope: &'s Scope<'s, E>,
    rt: &'s R,
    node: &'s N,
    door: &Door<'_>,
    stream: &Stream,
) -> bool {
    let patience = Duration::from_millis(PATIENCE);
    if stream.set_write_timeout(Some(patience)).is_err() {
        return false;
    }
    let Some((seat, seen)) = node.enter(rt, door.seats_left) else {
        return false;
    };
    let desk = Desk::new(node, seat, door.rights);
    let is_started = start_serving(scope, rt, desk, seen, stream);
    if !is_started {
        give_up(rt, node, seat);
    }
    is_started
}

/// Starts the thread of a connection, if whoever ends the program can have its stream: whether it
/// could be made.
fn start_serving<'s, E: 's, R: Threads + Wait + Clock + Sync + 's, N: Asked + Sync + 's>(
    scope: &'s Scope<'s, E>,
    rt: &'s R,
    desk: Desk<'s, N>,
    seen: Seen,
    stream: &Stream,
) -> bool {
    if !desk.node.clients().add(rt, desk.seat, stream) {
        return false;
    }
    let Ok(stream) = Arc::try_clone(stream) else {
        return false;
    };
    scope.spawn(move || serve(rt, &desk, seen, &stream)).is_ok()
}

/// The connection of a seat has ended.
fn give_up<R: Wait + Clock, N: Asked>(rt: &R, node: &N, seat: usize) {
    node.clients().remove(rt, seat);
    node.leave(rt, seat);
}

/// Serves a connection until it ends.
fn serve<R: Threads + Wait + Clock + Sync, N: Asked + Sync>(
    rt: &R,
    desk: &Desk<'_, N>,
    seen: Seen,
    stream: &UnixStream,
) {
    if !is_answered(rt, desk, seen, stream) {
        refuse_here(rt, stream);
    }
    give_up(rt, desk.node, desk.seat);
}

/// Answers the lines of a connection and tells its news, if there is memory and a thread for both.
fn is_answered<R: Threads + Wait + Clock + Sync, N: Asked + Sync>(
    rt: &R,
    desk: &Desk<'_, N>,
    seen: Seen,
    stream: &UnixStream,
) -> bool {
    let Ok(reader) = BufReader::new(desk.node.alloc(), stream) else {
        return false;
    };
    thread::scope(thread::scope_env(), rt, |scope| {
        let is_told = scope.spawn(move || tell(rt, desk, seen, stream)).is_ok();
        if is_told {
            answer(rt, desk, reader, stream);
        }
        is_told
    })
}

/// Tells news until the connection or the program ends, and hangs up.
fn tell<R: Wait + Clock, N: Asked>(rt: &R, desk: &Desk<'_, N>, seen: Seen, stream: &UnixStream) {
    let mut writer = stream;
    let told = desk.tell_all(rt, seen, &mut writer);
    log_end(rt, desk, &told);
    stream.shutdown(Shutdown::Both).ok();
}

/// Answers lines until there are no more, and ends the connection.
fn answer<R: Wait + Clock, N: Asked>(
    rt: &R,
    desk: &Desk<'_, N>,
    reader: BufReader<&UnixStream>,
    stream: &UnixStream,
) {
    let mut writer = stream;
    let answered = desk.answer_all(rt, &mut ReadLines { reader }, &mut writer);
    log_end(rt, desk, &answered);
    desk.end(rt);
}

/// Says it where a connection ends because nobody has read from it for the time of a write.
fn log_end<R: Wait + Clock, N: Asked>(rt: &R, desk: &Desk<'_, N>, ended: &io::Result<()>) {
    if let Err(error) = ended
        && error.kind() == ErrorKind::WouldBlock
    {
        let fields = [number("seat", (desk.seat as u64).saturating_add(1))];
        desk.node.log().tell(rt, Level::Warn, "behind", &fields);
    }
}
