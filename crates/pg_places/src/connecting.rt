//! The threads that connect to peers. Nothing can end a look-up of a name or a connect, so these
//! may outlive the run, and aren't joined.
use dial_targets::Targets;
use std::net::{Net, TcpListener, TcpStream};
use std::sync::{Arc, Wait};
use std::thread;
use std::thread::Threads;
use std::time::{Clock, Duration};

/// The milliseconds before a thread that couldn't be made is tried again.
const REST: u64 = 1_000;

/// Starts the thread that starts one for each peer to dial, which connects to it: whether it could
/// be made.
pub fn start_connecting<R>(rt: R, targets: &Arc<Targets>) -> bool
where
    R: Threads
        + Wait
        + Clock
        + Net<Listener = TcpListener, Stream = TcpStream>
        + Copy
        + Send
        + 'static,
{
    let Ok(targets) = Arc::try_clone(targets) else {
        return false;
    };
    let starter = rt;
    thread::spawn(&rt, move || connect_for_all(starter, &targets)).is_ok()
}

/// Starts a thread for each peer to dial, those that are added later, too. It never ends.
fn connect_for_all<R>(rt: R, targets: &Targets)
where
    R: Threads
        + Wait
        + Clock
        + Net<Listener = TcpListener, Stream = TcpStream>
        + Copy
        + Send
        + 'static,
{
    for _ in rt.forever() {
        let Some(target) = targets.next_unserved(&rt) else {
            thread::sleep(&rt, Duration::from_millis(REST));
            continue;
        };
        let dialler = rt;
        if thread::spawn(&rt, move || target.connect_all(&dialler)).is_err() {
            targets.leave_unserved(&rt);
            thread::sleep(&rt, Duration::from_millis(REST));
        }
    }
}
