//! Calls that may tell peers wait while frames gather faster than they are written, so that a burst
//! ends no link of a peer that reads. What is let through counts as if it waited until the next
//! look at the links, so that all that find room have it, and few calls need a look.
ghost use Rattle.std.specs.Prelude.{◌≡◌, ◌/◌, ℕ};
ghost use Rattle.std.specs.Str.{bytes_eq};
ghost use Rattle.dist_types.specs.Listing.{max_rows};
ghost use Rattle.pg_hub.specs.Brake.{frames_of, frames_for, frames_of_an_exit, named_in};
ghost use Rattle.pg_hub.specs.Brake.{moves, announces};

use crate::hub::Hub;
use crate::promises::{MOST, Promises};
use dist_types::MAX_ROWS;
use node_core::NodeCore;
use node_threads::Shared;
use pg_session::Session;
use pg_text::first_word;
use std::marker::Model;
use std::sync::atomic::{AtomicUsize, Ordering};
use std::sync::{CondvarTimeouts, Mutex, Wait};
use std::time::{Clock, Duration};

/// How many scopes there are at most, for each of which an exit may owe a link a frame.
const EACH_SCOPE: usize = 64;

/// The milliseconds for which a call waits at most while the node drains.
const DRAINING: u64 = 100;

/// What lets calls through.
#[derive(Drop)]
pub(crate) struct Brake {
    /// Its lock is an innermost one but for that of the writers.
    promises: Mutex<Promises>,
    /// How many calls wait.
    held: AtomicUsize,
}

impl Brake {
    pub(crate) fn new() -> Brake {
        Brake {
            promises: Mutex::new(Promises::new()),
            held: AtomicUsize::new(0),
        }
    }
}

/// How many frames a call may owe to a link. Contracts see it as that number.
#[derive(Debug, Drop)]
pub struct Promise {
    frames: usize,
}

impl Model for Promise {
    ghost use Rattle.std.specs.Prelude.{ℕ};

    ghost Value = { ℕ };

    ghost view = { λ promise. promise.frames };
}

/// What a call that was let through may owe, seen as its promise. Whoever has one has to give it
/// back by `has_called`: it can't be dropped.
#[derive(Debug)]
pub struct LetThrough {
    frames: usize,
}

impl Model for LetThrough {
    ghost use Rattle.std.specs.Prelude.{ℕ};

    ghost Value = { ℕ };

    ghost view = { λ call. call.frames };
}

impl Promise {
    /// That of the call of a line, where the processes of its connection have so many rows at most.
    pub fn of_line(line: &[u8], rows: usize) -> Promise
        ensures { result ≡ frames_of line.now rows }
    {
        let (word, _) = first_word(line);
        Promise {
            frames: frames_for(word, line, rows).min(MOST),
        }
    }

    /// That of the end of a connection's next process or monitor.
    pub(crate) fn of_an_end(session: &Session, core: &NodeCore) -> Promise {
        let frames = if session.has_processes() {
            let rows = session.rows().min(own_rows(core));
            frames_of_an_exit(rows).min(MOST)
        } else {
            0
        };
        Promise { frames }
    }
}

/// How many frames a command of this line may owe to a link.
fn frames_for(word: &[u8], line: &[u8], rows: usize) -> usize
    ensures { result ≡ frames_for word.now (named_in line.now) rows }
{
    if is(word, "exit") {
        frames_of_an_exit(rows)
    } else if moves(word) {
        1 + parts_in(line)
    } else if announces(word) {
        1
    } else {
        0
    }
}

/// How many an exit may owe: those of a process have a last part in each scope.
fn frames_of_an_exit(rows: usize) -> usize
    ensures { result ≡ frames_of_an_exit rows }
{
    EACH_SCOPE + rows / MAX_ROWS
}

/// How many whole parts the processes make that a line may name. A shorter line makes none.
#[tactic(auto, using(crate::proofs::Short::short_names))]
fn parts_in(line: &[u8]) -> usize
    ensures { result ≡ named_in line.now / max_rows }
{
    if line.len() < MAX_ROWS {
        return 0;
    }
    named_in(line) / MAX_ROWS
}

/// How many processes a line may name.
fn named_in(line: &[u8]) -> usize
    ensures { result ≡ named_in line.now }
{
    let spaces = line.iter().filter(|byte| **byte == b' ').count();
    spaces.saturating_sub(2)
}

/// How many rows the node's own processes have in all scopes.
fn own_rows(core: &NodeCore) -> usize {
    let mut rows: usize = 0;
    for index in 0..usize::MAX {
        let Some(scope) = core.scope(index) else {
            break;
        };
        if let Some(table) = core.table(scope) {
            rows = rows.saturating_add(table.own_total());
        }
    }
    rows
}

/// Whether a command moves processes.
fn moves(word: &[u8]) -> bool
    ensures { result ≡ moves word.now }
{
    is(word, "join") || is(word, "leave")
}

/// Whether a command may owe each link one frame.
fn announces(word: &[u8]) -> bool
    ensures { result ≡ announces word.now }
{
    is(word, "start") || is(word, "stop")
}

fn is(word: &[u8], text: &str) -> bool
    ensures { result ≡ bytes_eq word.now text.now }
{
    word == text.as_bytes()
}

impl Hub {
    /// What the call of a line of this seat may owe.
    pub fn promise_of_line<R: Wait>(&self, rt: &R, seat: usize, line: &[u8]) -> Promise
        ensures { (rows : ℕ) × (result ≡ frames_of line.now rows) }
    {
        let (word, _) = first_word(line);
        let rows = if is(word, "exit") {
            self.rows_of(rt, seat)
        } else {
            0
        };
        Promise::of_line(line, rows)
    }

    /// How many rows the processes of a seat have at most.
    fn rows_of<R: Wait>(&self, rt: &R, seat: usize) -> usize {
        let house = self.house.read(rt);
        let rows = match house.sessions.get(seat) {
            Some(session) => session.lock(rt).rows(),
            None => 0,
        };
        rows.min(own_rows(self.node.shared.lock(rt).core()))
    }

    /// Lets a call of a seat through: at once, or when so few frames wait for each link whose
    /// writer gets on that the call can't end it; after the time for which a writer may stand still
    /// in any case.
    pub fn let_through<R: Wait + Clock>(&self, rt: &R, seat: usize, promise: Promise) -> LetThrough
        ensures { result ≡ promise }
    {
        let Promise { frames } = promise;
        if frames > 0 && !self.has_room(rt, frames) {
            self.readers.hold(seat, true);
            self.wait_for_links(rt, frames);
            self.readers.hold(seat, false);
        }
        LetThrough { frames }
    }

    /// The call was made, or couldn't be.
    pub fn has_called<R: Wait>(&self, rt: &R, call: LetThrough) {
        let LetThrough { frames } = call;
        if frames == 0 {
            return;
        }
        self.brake.promises.lock(rt).remove(frames);
        if self.brake.held.load(Ordering::SeqCst) > 0 {
            drop(self.node.shared.lock(rt));
            self.node.moved.notify_all();
        }
    }

    /// Lets a call through for which the last look at the links found room: whether it did.
    fn has_room<R: Wait>(&self, rt: &R, frames: usize) -> bool {
        !self.notes.writers.are_more() && self.brake.promises.lock(rt).let_through(frames)
    }

    /// Looks at the links until the call is let through. The node's lock is free meanwhile.
    fn wait_for_links<R: Wait + Clock>(&self, rt: &R, frames: usize) {
        let shared = self.node.shared.lock(rt);
        if self.finds_room(rt, &shared, frames) {
            return;
        }
        self.brake.held.fetch_add(1, Ordering::SeqCst);
        let patience = self.patience(rt);
        let (shared, wait) = self
            .node
            .moved
            .wait_timeout_while(rt, shared, patience, |shared| {
                !self.finds_room(rt, shared, frames)
            });
        if wait.timed_out() {
            self.brake.promises.lock(rt).add(frames);
        }
        drop(shared);
        self.brake.held.fetch_sub(1, Ordering::SeqCst);
    }

    /// For how long a call waits at most: as long as a writer may stand still, but not while the
    /// node drains.
    fn patience<R: Wait>(&self, rt: &R) -> Duration {
        let patience = self.notes.writers.patience(rt);
        if self.signals.is_draining() {
            patience.min(Duration::from_millis(DRAINING))
        } else {
            patience
        }
    }

    /// Looks at the links, and lets a call through if it finds room: whether it did. None waits
    /// where this life or the program ends: there are no links then.
    fn finds_room<R: Wait>(&self, rt: &R, shared: &Shared, frames: usize) -> bool {
        let mut promises = self.brake.promises.lock(rt);
        promises.look(self.notes.writers.most_behind(rt, shared.core()));
        if self.is_over(shared) {
            promises.add(frames);
            return true;
        }
        promises.let_through(frames)
    }
}
