//! The threads that answer who looks on.
use crate::entrance::PageEntrance;
use crate::looker::Looker;
use crate::refusing::{hang_up, say_full};
use crate::visitors::Visitor;
use http_server::{Config, Connection, Service};
use pg_log::{Log, Taking};
use pg_page::Shown;
use pg_streams::Hearers;
use std::io::{self, ErrorKind};
use std::net::TcpStream;
use std::sync::{Arc, Wait};
use std::thread;
use std::thread::{Scope, Threads};
use std::time::{Clock, Duration, Instant};

/// The milliseconds that a connection has, however slowly who asks writes and reads.
const PATIENCE: u64 = 10_000;

/// The bytes of the longest body of a request: none is looked at.
const BODY: usize = 1_024;

/// Starts the thread that takes connections of who looks on the node, where there is an entrance
/// for them: whether it could be made.
pub fn start_pages<'s, E: 's, R: Threads + Wait + Clock + Sync + 's, N: Shown + Sync + 's>(
    scope: &'s Scope<'s, E>,
    rt: &'s R,
    node: &'s N,
    log: &'s Log,
    entrance: Option<&'s PageEntrance>,
) -> bool {
    match entrance {
        Some(entrance) => scope
            .spawn(move || serve_pages(rt, node, log, entrance))
            .is_ok(),
        None => true,
    }
}

/// Takes connections until the program is to end, and waits until each has ended.
fn serve_pages<R: Threads + Wait + Clock + Sync, N: Shown + Sync>(
    rt: &R,
    node: &N,
    log: &Log,
    entrance: &PageEntrance,
) {
    thread::scope(thread::scope_env(), rt, |scope| {
        take_all(scope, rt, node, log, entrance)
    });
}

/// Takes connections until the program is to end.
fn take_all<'s, E: 's, R: Threads + Wait + Clock + Sync + 's, N: Shown + Sync + 's>(
    scope: &'s Scope<'s, E>,
    rt: &'s R,
    node: &'s N,
    log: &Log,
    entrance: &'s PageEntrance,
) {
    let mut taking = Taking::of("page");
    for _ in rt.forever() {
        let accepted = entrance.listener.accept();
        if node.is_quitting() {
            return;
        }
        if let Some((stream, _)) = taking.taken(rt, log, accepted) {
            take_in(scope, rt, node, entrance, stream);
        }
    }
}

/// Serves a connection on a thread, or says on one that there is no room. Without memory or a
/// thread it is let go.
fn take_in<'s, E: 's, R: Threads + Wait + Clock + Sync + 's, N: Shown + Sync + 's>(
    scope: &'s Scope<'s, E>,
    rt: &'s R,
    node: &'s N,
    entrance: &'s PageEntrance,
    stream: TcpStream,
) {
    let visitors = &entrance.visitors;
    let Ok(visitor) = Arc::new(entrance.alloc, stream) else {
        return;
    };
    match visitors.add(rt, &visitor) {
        Some(number) => {
            let started = scope.spawn(move || {
                serve(rt, node, entrance, &visitor);
                visitors.remove(rt, number);
            });
            if started.is_err() {
                visitors.remove(rt, number);
            }
        }
        None => refuse(scope, rt, &visitors.hearers, visitor),
    }
}

/// Says that there is no room, and hears who asks out on a thread, unless there are too many such
/// threads.
fn refuse<'s, E: 's, R: Threads + Wait + Clock + Sync + 's>(
    scope: &'s Scope<'s, E>,
    rt: &'s R,
    hearers: &'s Hearers,
    visitor: Visitor,
) {
    say_full(&visitor);
    if !hearers.add() {
        return;
    }
    let started = scope.spawn(move || {
        hang_up(rt, &visitor);
        hearers.remove();
    });
    if started.is_err() {
        hearers.remove();
    }
}

fn serve<R: Wait + Clock, N: Shown>(rt: &R, node: &N, entrance: &PageEntrance, stream: &TcpStream) {
    answer_all(rt, node, entrance, stream).ok();
    hang_up(rt, stream);
}

/// Answers the requests of a connection until it is done, or its time is over.
fn answer_all<R: Wait + Clock, N: Shown>(
    rt: &R,
    node: &N,
    entrance: &PageEntrance,
    stream: &TcpStream,
) -> io::Result<()> {
    let start = Instant::now(rt)?;
    let alloc = entrance.alloc;
    let mut looker = Looker {
        rt,
        alloc,
        node,
        is_here: entrance.is_here,
    };
    let mut connection = Connection::new(alloc, entrance.keys, config());
    let answered = answer_each(rt, &mut connection, &mut looker, start, stream);
    drop(connection);
    answered
}

/// Answers what comes in until the connection is done.
fn answer_each<R: Clock, S: Service>(
    rt: &R,
    connection: &mut Connection,
    looker: &mut S,
    start: Instant,
    stream: &TcpStream,
) -> io::Result<()> {
    for _ in 0..u64::MAX {
        connection.advance(looker);
        if connection.is_done() {
            return Ok(());
        }
        let passed = start.elapsed(rt)?;
        move_bytes(connection, stream, passed)?;
    }
    Ok(())
}

fn config() -> Config {
    Config {
        max_body_len: BODY,
        ..Config::default()
    }
}

/// Writes what there is to write, or reads, of a connection that has had so much time.
fn move_bytes(connection: &mut Connection, stream: &TcpStream, passed: Duration) -> io::Result<()> {
    let left = Duration::from_millis(PATIENCE).saturating_sub(passed);
    if left.is_zero() {
        return Err(io::Error::from(ErrorKind::TimedOut));
    }
    let mut end = stream;
    if !connection.wants_write() {
        stream.set_read_timeout(Some(left))?;
        connection.read_from(&mut end)?;
        return Ok(());
    }
    stream.set_write_timeout(Some(left))?;
    if connection.write_to(&mut end)? == 0 {
        return Err(io::Error::from(ErrorKind::WriteZero));
    }
    Ok(())
}
