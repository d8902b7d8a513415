//! The file of a control socket, which its node takes away at its end.
use std::fs::{self, Files};
use std::os::unix::fs::MetadataExt;
use std::sync::Wait;
use std::thread;
use std::time::{Clock, Duration};

/// The milliseconds between two looks.
const REST: u64 = 20;

/// Which file it is, whatever it is called.
#[derive(Clone, Copy, Drop, PartialEq)]
pub struct Socket {
    device: u64,
    number: u64,
}

/// The file at the path of a control socket.
pub fn socket_at<R: Files>(rt: &R, path: &str) -> Option<Socket> {
    let found = fs::metadata(rt, path).ok()?;
    Some(Socket {
        device: found.dev(),
        number: found.ino(),
    })
}

/// Waits until this file isn't there any more: then the archive of its node is written.
pub fn wait_until_gone<R: Files + Wait + Clock>(rt: &R, path: &str, socket: Socket) {
    for _ in rt.forever() {
        if socket_at(rt, path) != Some(socket) {
            return;
        }
        thread::sleep(rt, Duration::from_millis(REST));
    }
    unreachable!()
}
