//! Clients for which there is no room.
use pg_asked::Stream;
use pg_streams::{Hearers, hear_out, is_at_end};
use std::io::Write;
use std::net::Shutdown;
use std::os::unix::net::UnixStream;
use std::sync::{Arc, Wait};
use std::thread::{Scope, Threads};
use std::time::Clock;

/// Tells a client that there is no room, and hears it out on a thread, so that it can write its
/// line before it reads. Where there are too many such threads it can't.
pub fn refuse<'s, E: 's, R: Threads + Wait + Clock + Sync + 's>(
    scope: &'s Scope<'s, E>,
    rt: &'s R,
    hearers: &'s Hearers,
    stream: Stream,
) {
    say_full(&stream);
    if !is_heard(scope, rt, hearers, &stream) {
        end(&stream);
    }
}

/// The same on this thread.
pub fn refuse_here<R: Clock>(rt: &R, stream: &UnixStream) {
    say_full(stream);
    hear_out(rt, stream).ok();
    end(stream);
}

fn say_full(stream: &UnixStream) {
    let mut writer = stream;
    writer.write_all(b"fault full\n").ok();
    stream.shutdown(Shutdown::Write).ok();
}

/// Starts a thread that hears a client out: whether one could be made.
fn is_heard<'s, E: 's, R: Threads + Wait + Clock + Sync + 's>(
    scope: &'s Scope<'s, E>,
    rt: &'s R,
    hearers: &'s Hearers,
    stream: &Stream,
) -> bool {
    let Ok(stream) = Arc::try_clone(stream) else {
        return false;
    };
    if !hearers.add() {
        return false;
    }
    let is_started = scope.spawn(move || hear(rt, hearers, &stream)).is_ok();
    if !is_started {
        hearers.remove();
    }
    is_started
}

fn hear<R: Clock>(rt: &R, hearers: &Hearers, stream: &UnixStream) {
    hear_out(rt, stream).ok();
    end(stream);
    hearers.remove();
}

/// Ends a connection. What the client has written is read, since a socket that is closed with
/// unread bytes takes the last line from its client; nothing more can come behind the end.
fn end(stream: &UnixStream) {
    stream.shutdown(Shutdown::Both).ok();
    if stream.set_nonblocking(true).is_err() {
        return;
    }
    for _ in 0..u64::MAX {
        if is_at_end(stream).unwrap_or(true) {
            return;
        }
    }
}
