//! A thread that takes out of the node what it keeps no more.
use pg_closer::Closer;
use pg_hub::Hub;
use std::sync::Wait;
use std::thread;
use std::time::{Clock, Duration};

/// The milliseconds between two looks while entries come: a burst costs no more looks.
const REST: u64 = 20;

/// Keeps the node at so many entries as it is to keep, until the program is to end.
pub fn keep_on<R: Wait + Clock>(rt: &R, hub: &Hub, closer: &Closer<'_>) {
    let mut seen = None;
    for _ in rt.forever() {
        seen = hub.wait_for_entries(rt, seen);
        if seen.is_none() {
            return;
        }
        keep(rt, hub, closer);
        if !hub.is_settled(rt) {
            // What holds it up is looked at again, whether or not more comes.
            seen = None;
        }
        thread::sleep(rt, Duration::from_millis(REST));
    }
    unreachable!()
}

/// Takes out what there is, but what finds no room in front of the file and may stay.
fn keep<R: Wait + Clock>(rt: &R, hub: &Hub, closer: &Closer<'_>) {
    for _ in 0..u64::MAX {
        let may_take = closer.has_room(rt) || !hub.may_keep_more(rt);
        if !may_take || !closer.take_pages(rt, hub) {
            break;
        }
        hub.lighten(rt);
    }
    hub.look_after_readers(rt);
}
