//! What is shown of a node's links, scopes, groups and dials, as copies.
use crate::keeping::kept;
use dial_targets::{Target, Tried};
use dist_types::{OutOfMemory, Scope};
use node_core::{CoreFault, MAX_LINKS, NodeCore, Query};
use node_threads::Node;
use pg_ledger::{Ledger, UpLink};
use pg_page::{DialView, GroupView, LinkView, NodeView, ReasonView, RuleView, ScopeView};
use pg_text::DownReason;
use policy_audit::Reply;
use std::alloc::Global;
use std::sync::Wait;
use std::time::{Clock, Instant};

/// How many groups are shown at most, of all scopes.
const MOST_GROUPS: usize = 200;

pub(crate) fn look_at_node(
    alloc: Global,
    core: &NodeCore,
    view: &mut NodeView,
) -> Result<(), OutOfMemory> {
    view.creation = core.creation();
    view.entries = core.audit().len() as u64;
    view.kept = u64::from(kept(core));
    view.name = text(alloc, core.name().as_str())?;
    Ok(())
}

/// How many frames wait for each link.
pub(crate) fn waiting(
    alloc: Global,
    ledger: &Ledger,
    core: &NodeCore,
) -> Result<Vec<usize>, OutOfMemory> {
    let mut waiting = Vec::with_capacity(alloc, ledger.links.len())?;
    for link in ledger.links.iter() {
        waiting.push(core.waiting(link.number).unwrap_or(0))?;
    }
    Ok(waiting)
}

pub(crate) fn look_at_links<R: Clock>(
    rt: &R,
    alloc: Global,
    ledger: &Ledger,
    waiting: Vec<usize>,
    view: &mut NodeView,
) -> Result<(), OutOfMemory> {
    for (link, waiting) in ledger.links.iter().zip(waiting) {
        view.links.push(link_view(rt, alloc, link, waiting)?)?;
    }
    view.most_links = MAX_LINKS as u64;
    view.otp_links = ledger.otp_links();
    view.refused = ledger.refused() as u64;
    Ok(())
}

fn link_view<R: Clock>(
    rt: &R,
    alloc: Global,
    link: &UpLink,
    waiting: usize,
) -> Result<LinkView, OutOfMemory> {
    let peer = text(alloc, link.peer.as_str())?;
    let address = match link.address {
        Some(address) => format!(in alloc; "{address}")?,
        None => String::new(alloc),
    };
    Ok(LinkView {
        number: link.number,
        peer,
        creation: link.creation,
        is_visible: link.is_visible,
        kind: link.kind.word(link.is_visible),
        address,
        seconds: seconds_since(rt, link.since),
        waiting: waiting as u64,
    })
}

pub(crate) fn look_at_counts(
    alloc: Global,
    ledger: &Ledger,
    view: &mut NodeView,
) -> Result<(), OutOfMemory> {
    for scope in ledger.scopes() {
        let rows = ledger.census.rows_of(scope) as u64;
        view.scopes.push(scope_view(alloc, scope, rows)?)?;
    }
    for counted in &ledger.census.refused {
        view.rules.push(RuleView {
            number: counted.rule.number(),
            name: counted.rule.name(),
            times: counted.times,
        })?;
    }
    for (reason, times) in DownReason::ALL.iter().zip(ledger.census.downs) {
        view.downs.push(ReasonView {
            reason: reason.word(),
            times,
        })?;
    }
    Ok(())
}

fn scope_view(alloc: Global, scope: &Scope, rows: u64) -> Result<ScopeView, OutOfMemory> {
    Ok(ScopeView {
        name: text(alloc, scope.as_str())?,
        rows,
        size: 0,
        groups: Vec::new(alloc),
    })
}

pub(crate) fn dial_view<R: Wait + Clock>(
    rt: &R,
    alloc: Global,
    target: &Target,
    is_up: bool,
) -> Result<DialView, OutOfMemory> {
    let tried = target.tried(rt);
    let peer = text(alloc, target.peer().as_str())?;
    let place = text(alloc, target.place())?;
    let next = match tried.next {
        Some(next) if !is_up => Some(seconds_until(rt, next)),
        _ => None,
    };
    Ok(DialView {
        peer,
        place,
        times: u64::from(tried.times),
        next,
        state: how_it_goes(is_up, tried),
        reason: reason_of(is_up, tried),
    })
}

/// How dials go: the link is up, why the last one has failed, or a dash for the first one.
fn how_it_goes(is_up: bool, tried: Tried) -> &'static str {
    match tried.fault {
        _ if is_up => "up",
        Some(fault) => fault.name(),
        None => "-",
    }
}

/// Why the last dial has failed.
fn reason_of(is_up: bool, tried: Tried) -> &'static str {
    match tried.fault {
        Some(fault) if !is_up => fault.reason(),
        _ => "",
    }
}

/// Looks at the groups of these scopes, one after another: others come between.
pub(crate) fn look_at_groups<R: Wait>(
    rt: &R,
    alloc: Global,
    node: &Node,
    scopes: &[Scope],
    view: &mut NodeView,
) -> Result<(), OutOfMemory> {
    let mut left = MOST_GROUPS;
    for (scope, shown) in scopes.iter().zip(view.scopes.iter_mut()) {
        if shown.name.as_bytes() == scope.as_bytes() {
            look_at_scope(rt, alloc, node, scope, shown, left)?;
            left = left.saturating_sub(shown.groups.len());
        }
    }
    Ok(())
}

fn look_at_scope<R: Wait>(
    rt: &R,
    alloc: Global,
    node: &Node,
    scope: &Scope,
    shown: &mut ScopeView,
    most: usize,
) -> Result<(), OutOfMemory> {
    let Ok(Reply::Groups(groups)) = asked(rt, node, scope, Query::Groups) else {
        return Ok(());
    };
    shown.size = groups.as_slice().len() as u64;
    for group in groups.as_slice().iter().take(most) {
        let answer = asked(rt, node, scope, Query::Members(group));
        let members = members_in(&answer);
        drop(answer);
        let name = text(alloc, group.as_str())?;
        shown.groups.push(GroupView { name, members })?;
    }
    Ok(())
}

fn asked<R: Wait>(
    rt: &R,
    node: &Node,
    scope: &Scope,
    query: Query<'_>,
) -> Result<Reply, CoreFault> {
    node.shared.lock(rt).core().look(scope, query)
}

/// How many processes an answer names.
fn members_in(answer: &Result<Reply, CoreFault>) -> u64 {
    match answer {
        Ok(Reply::Pids(pids)) => pids.as_slice().len() as u64,
        _ => 0,
    }
}

fn text(alloc: Global, name: &str) -> Result<String, OutOfMemory> {
    Ok(String::from_str(alloc, name)?)
}

/// How many whole seconds have passed.
pub(crate) fn seconds_since<R: Clock>(rt: &R, begin: Option<Instant>) -> u64 {
    let Some(begin) = begin else {
        return 0;
    };
    match begin.elapsed(rt) {
        Ok(passed) => passed.as_secs(),
        Err(_) => 0,
    }
}

/// In how many seconds the time comes; 0 where it has.
fn seconds_until<R: Clock>(rt: &R, time: Instant) -> u64 {
    match Instant::now(rt) {
        Ok(now) => time.saturating_duration_since(now).as_secs(),
        Err(_) => 0,
    }
}
