//! Which calls bring news to who watches a node.
use super::{Ask, Member, Way, ask_for, member_of, new_node};
use node_threads::*;
use std::alloc::Global;
use std::sync::Wait;

static ASKS: [Ask; 7] = [
    Ask::Start,
    Ask::Spawn,
    Ask::Members,
    Ask::Join,
    Ask::Members,
    Ask::Leave,
    Ask::Leave,
];

/// The number of the last entry with news, behind each call.
fn news_of<R: Wait>(rt: &R, node: &Node, pass: &mut Pass, member: &Member) -> [u32; 7] {
    let mut news = [0; 7];
    for place in 0..7 {
        ask_for(rt, node, pass, member, Way::Call, ASKS[place]);
        news[place] = node.shared.lock(rt).last_news();
    }
    news
}

fn played<R: Wait>(rt: &R, alloc: Global) -> Option<[u32; 7]> {
    let member = member_of(alloc, 1)?;
    let (node, mut passes) = new_node(alloc, 100, 1)?;
    match passes.first_mut() {
        Some(pass) => Some(news_of(rt, &node, pass, &member)),
        None => None,
    }
}

/// A join and a leave are news, and a start, with which links of slow peers may end. Queries, a new
/// process, and a leave that is refused, are none.
#[test]
fn changes_alone_are_news(rt: HostRuntime) {
    assert!(rt; played(&rt, rt.alloc()) == Some([1, 1, 1, 4, 4, 6, 6]));
}
