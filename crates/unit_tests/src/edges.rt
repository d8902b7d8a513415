//! The edge of a link: what is handed in and sent. What can't be played for want of memory is None
//! or false; the assertions stand in the tests.
use crate::digits::{bytes_of, exchange, front, is_spelled};
use crate::made::{Process, alone, group_of, name_of, row_of, scope_of};
use crate::steps::{STEPS, Step};
use dist_types::{Items, Row, Scope, TryClone};
use link_frames::Message;
use otp_edge::{Dropped, Edge, HearFault, Heard, Life, Run};
use std::alloc::Global;

fn run_of(alloc: Global, name: &[u8], creation: u32) -> Option<Run> {
    match name_of(alloc, name) {
        Some(node) => Some(Run { node, creation }),
        None => None,
    }
}

fn new_edge(alloc: Global) -> Option<Edge> {
    let own = run_of(alloc, b"w@127.0.0.1", 77)?;
    match run_of(alloc, b"a@127.0.0.1", 0x6b08_41b0) {
        Some(peer) => Some(Edge::new(alloc, own, peer, false)),
        None => None,
    }
}

/// What a link keeps beside its edge: the life of the node here, and what the peer states.
#[derive(Drop)]
struct Kept {
    life: Life,
    stated: Vec<Row>,
}

/// Cuts a leave to the rows that the peer stated.
fn cut(alloc: Global, heard: &mut Heard, stated: &[Row]) -> Option<()> {
    if let Some(left) = &heard.left {
        let mut counts = Vec::new(alloc);
        for row in left.rows.as_slice() {
            let count = stated.iter().filter(|listed| row == *listed).count();
            counts.push(count).ok()?;
        }
        heard.cut(alloc, &counts).ok()?;
    }
    Some(())
}

/// Lists what the peer states, as the node here does.
fn state(alloc: Global, heard: &Heard, stated: &mut Vec<Row>) -> bool {
    if heard.down.is_some() {
        stated.clear();
    }
    match &heard.message {
        Some(Message::Sync(_, rows)) => {
            stated.clear();
            return list(alloc, rows.as_slice(), stated);
        }
        Some(Message::Join(_, rows)) => return list(alloc, rows.as_slice(), stated),
        Some(Message::Leave(_, rows)) => take_away(rows.as_slice(), stated),
        Some(Message::Down(_)) => stated.clear(),
        _ => {}
    }
    true
}

fn list(alloc: Global, rows: &[Row], stated: &mut Vec<Row>) -> bool {
    for row in rows {
        if !list_row(alloc, row, stated) {
            return false;
        }
    }
    true
}

fn list_row(alloc: Global, row: &Row, stated: &mut Vec<Row>) -> bool {
    match row.try_clone(alloc) {
        Ok(row) => stated.push(row).is_ok(),
        Err(_) => false,
    }
}

fn take_away(rows: &[Row], stated: &mut Vec<Row>) {
    for row in rows {
        if let Some(place) = place_of(row, stated)
            && place < stated.len()
        {
            stated.swap_remove(place);
        }
    }
}

fn place_of(row: &Row, stated: &[Row]) -> Option<usize> {
    for (place, listed) in stated.iter().enumerate() {
        if listed == row {
            return Some(place);
        }
    }
    None
}

/// Whether just this is handed in.
fn is_handed(alloc: Global, heard: &Heard, digits: &str) -> bool {
    match heard.link_bytes(alloc, false) {
        Ok(handed) => is_spelled(alloc, &handed, digits),
        Err(_) => false,
    }
}

fn takes(alloc: Global, heard: &mut Heard, stated: &mut Vec<Row>, step: &Step) -> bool {
    cut(alloc, heard, stated).is_some()
        && state(alloc, heard, stated)
        && is_handed(alloc, heard, step.handed)
        && is_spelled(alloc, &heard.owed, step.owed)
}

fn hears(alloc: Global, edge: &mut Edge, body: &[u8], kept: &mut Kept, step: &Step) -> bool {
    match edge.hear(alloc, body) {
        Ok(mut heard) => takes(alloc, &mut heard, &mut kept.stated, step),
        Err(_) => false,
    }
}

fn says(alloc: Global, edge: &mut Edge, body: &[u8], kept: &mut Kept, step: &Step) -> bool {
    match edge.say_body(alloc, body, &mut kept.life) {
        Ok(owed) => step.handed.is_empty() && is_spelled(alloc, &owed, step.owed),
        Err(_) => false,
    }
}

fn plays(alloc: Global, edge: &mut Edge, kept: &mut Kept, step: &Step) -> bool {
    match bytes_of(alloc, step.body) {
        Some(body) if step.is_said => says(alloc, edge, &body, kept, step),
        Some(body) => hears(alloc, edge, &body, kept, step),
        None => false,
    }
}

/// The first step of which something else is made.
fn first_wrong(alloc: Global, edge: &mut Edge, kept: &mut Kept) -> Option<&'static str> {
    for step in &STEPS {
        if !plays(alloc, edge, kept, step) {
            return Some(step.what);
        }
    }
    None
}

fn wrong_step(alloc: Global) -> Option<&'static str> {
    let mut kept = Kept {
        life: Life::new(alloc),
        stated: Vec::new(alloc),
    };
    match new_edge(alloc) {
        Some(mut edge) => first_wrong(alloc, &mut edge, &mut kept),
        None => Some("no memory"),
    }
}

#[test]
fn translates_as_another_translator_does(rt: HostRuntime) {
    let wrong = wrong_step(rt.alloc());
    assert!(rt; wrong.is_none(), "{}", wrong.unwrap_or(""));
}

/// Whether the scope starts here.
fn starts(alloc: Global, edge: &mut Edge) -> bool {
    let mut life = Life::new(alloc);
    match bytes_of(alloc, "44046a6f6273") {
        Some(body) => edge.say_body(alloc, &body, &mut life).is_ok(),
        None => false,
    }
}

/// Nothing but the end of the link, or what can be said of a link, whatever comes.
fn stands(alloc: Global, edge: &mut Edge, body: &[u8]) -> bool {
    match edge.hear(alloc, body) {
        Ok(heard) => heard.link_bytes(alloc, false).is_ok(),
        Err(fault) => fault == HearFault::NoMessage,
    }
}

fn lives(alloc: Global, body: &[u8]) -> bool {
    match new_edge(alloc) {
        Some(mut edge) => starts(alloc, &mut edge) && stands(alloc, &mut edge, body),
        None => false,
    }
}

fn lives_changed(alloc: Global, body: &mut [u8], at: usize) -> bool {
    let old = exchange(body, at, 0);
    exchange(body, at, old.wrapping_add(1));
    let lives = lives(alloc, body);
    exchange(body, at, old);
    lives
}

/// Whether it lives through each beginning, and each change of a byte to the next.
fn lives_on(alloc: Global, body: &mut [u8]) -> bool {
    for at in 0..body.len() {
        if !lives(alloc, front(body, at)) || !lives_changed(alloc, body, at) {
            return false;
        }
    }
    true
}

fn lives_through(alloc: Global, digits: &str) -> bool {
    match bytes_of(alloc, digits) {
        Some(mut body) => lives_on(alloc, &mut body),
        None => false,
    }
}

/// The first step near which something doesn't live.
fn first_end(alloc: Global) -> Option<&'static str> {
    for step in &STEPS {
        if !lives_through(alloc, step.body) {
            return Some(step.what);
        }
    }
    None
}

#[test]
fn takes_whatever_comes(rt: HostRuntime) {
    let end = first_end(rt.alloc());
    assert!(rt; end.is_none(), "{}", end.unwrap_or(""));
}

static TEXTS: [&[u8]; 6] = [b"g", b"a", b"g", b"#b:g", b"z", b"a"];

fn admits(alloc: Global, life: &mut Life, text: &[u8]) -> Option<bool> {
    let group = group_of(alloc, text)?;
    life.admit(alloc, &group).ok()
}

/// How many texts are kept, and how many were refused.
fn kept_texts(alloc: Global, life: &mut Life) -> Option<(usize, u64)> {
    for text in &TEXTS {
        if admits(alloc, life, text) != Some(true) {
            return None;
        }
    }
    Some((life.atoms.len(), life.refused))
}

#[test]
fn keeps_a_text_once_that_is_told_as_an_atom(rt: HostRuntime) {
    let texts = kept_texts(rt.alloc(), &mut Life::new(rt.alloc()));
    assert!(rt; texts == Some((3, 0)));
}

/// A process here, in the group `g`.
fn own_row(alloc: Global) -> Option<Row> {
    let process = Process {
        node: b"w@127.0.0.1",
        creation: 77,
        number: 1,
    };
    row_of(alloc, b"g", &process)
}

fn numbered_scope(alloc: Global, number: u32) -> Option<Scope> {
    let text = format!(in alloc; "s{number}").ok()?;
    scope_of(alloc, text.as_bytes())
}

fn join(alloc: Global, number: u32) -> Option<Message> {
    let rows = alone(alloc, own_row(alloc))?;
    match numbered_scope(alloc, number) {
        Some(scope) => Some(Message::Join(scope, Items::of(rows))),
        None => None,
    }
}

/// How many bytes are told of the message.
fn told(alloc: Global, edge: &mut Edge, life: &mut Life, message: Message) -> Option<usize> {
    match edge.say(alloc, message, life) {
        Ok(bodies) => Some(bodies.len()),
        Err(_) => None,
    }
}

fn open_scopes(alloc: Global, edge: &mut Edge, life: &mut Life, count: u32) -> Option<()> {
    for number in 0..count {
        let scope = numbered_scope(alloc, number)?;
        told(alloc, edge, life, Message::Discover(scope))?;
    }
    Some(())
}

/// How many of 65 scopes are open, how many aren't, how many bytes are told of the last, and how
/// often nothing is.
fn opened(alloc: Global, edge: &mut Edge, life: &mut Life) -> Option<(usize, u64, usize, u64)> {
    open_scopes(alloc, edge, life, 65)?;
    let refused = edge.drops.of(Dropped::TooManyScopes);
    let told = told(alloc, edge, life, join(alloc, 64)?)?;
    Some((
        edge.scopes.len(),
        refused,
        told,
        edge.drops.of(Dropped::Untold),
    ))
}

fn opened_in_new(alloc: Global) -> Option<(usize, u64, usize, u64)> {
    let mut life = Life::new(alloc);
    match new_edge(alloc) {
        Some(mut edge) => opened(alloc, &mut edge, &mut life),
        None => None,
    }
}

#[test]
fn opens_no_more_scopes_than_may_run(rt: HostRuntime) {
    assert!(rt; opened_in_new(rt.alloc()) == Some((64, 1, 0, 1)));
}
