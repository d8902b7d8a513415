//! What a connection is told of the node beside its rows: what is seen of it now, as a line.
use crate::changing::put_fault;
use crate::hub::Hub;
use dist_types::{NodeName, OutOfMemory, Scope};
use pg_ledger::{Ledger, Refusal};
use pg_page::{DialView, LinkView, NodeView};
use pg_session::{Change, Report, Surroundings};
use pg_text::{put_bytes, put_number, put_word};
use std::alloc::Global;
use std::net::SocketAddr;
use std::sync::{MutexGuard, Wait};
use std::time::Clock;

/// What stands for what isn't known.
const UNKNOWN: &str = " -";

/// A line that asks for what stands beside the node.
#[derive(Drop)]
pub(crate) struct Reporting<'a, R: Wait + Clock> {
    pub(crate) rt: &'a R,
    pub(crate) hub: &'a Hub,
    pub(crate) line: &'a [u8],
}

impl<R: Wait + Clock> Surroundings for Reporting<'_, R> {
    fn report(&self, report: Report) -> Result<Vec<u8>, OutOfMemory> {
        let mut out = Vec::new(self.hub.alloc);
        self.put(report, &mut out)?;
        put_word("\n", &mut out)?;
        Ok(out)
    }

    fn change(&self, change: Change) -> Result<Vec<u8>, OutOfMemory> {
        let mut out = Vec::new(self.hub.alloc);
        match self.hub.change(self.rt, change, self.line) {
            Ok(()) => put_word("ok\n", &mut out)?,
            Err(fault) => put_fault(self.hub.alloc, &fault, &mut out)?,
        }
        Ok(out)
    }
}

impl<R: Wait + Clock> Reporting<'_, R> {
    fn put(&self, report: Report, out: &mut Vec<u8>) -> Result<(), OutOfMemory> {
        match report {
            Report::Own => self.put_own(out),
            Report::Status => self.put_status(out),
            Report::Links => self.put_links(out),
            Report::Dials => self.put_dials(out),
            Report::Scopes => put_scopes(&*self.ledger()?, out),
            Report::Allowed => put_allowed(&*self.ledger()?, out),
            Report::Clients => self.put_clients(out),
            Report::Refusals => put_refusals(self.hub.alloc, &*self.ledger()?, out),
        }
    }

    /// The ledger, as the node stands now. The node's lock is free again.
    pub(crate) fn ledger(&self) -> Result<MutexGuard<'_, Ledger>, OutOfMemory> {
        let look = self.hub.look(self.rt);
        let mut ledger = self.hub.ledger.lock(self.rt);
        let shared = self.hub.node.shared.lock(self.rt);
        ledger.follow(&look, shared.core())?;
        Ok(ledger)
    }

    fn put_own(&self, out: &mut Vec<u8>) -> Result<(), OutOfMemory> {
        let shared = self.hub.node.shared.lock(self.rt);
        put_word("self", out)?;
        put_named(shared.core().name(), out)?;
        put_number(" ", u64::from(shared.core().creation()), out)
    }

    fn put_status(&self, out: &mut Vec<u8>) -> Result<(), OutOfMemory> {
        let mut view = self.new_view();
        self.look_at_program(&mut view)?;
        self.look_at_ledger(&mut view)?;
        put_status(&view, out)
    }

    fn put_links(&self, out: &mut Vec<u8>) -> Result<(), OutOfMemory> {
        let mut view = self.new_view();
        self.look_at_ledger(&mut view)?;
        put_word("links", out)?;
        for link in &view.links {
            put_link(link, out)?;
        }
        Ok(())
    }

    fn put_dials(&self, out: &mut Vec<u8>) -> Result<(), OutOfMemory> {
        let mut view = self.new_view();
        self.look_at_dials(&mut view)?;
        put_word("dials", out)?;
        for dial in &view.dials {
            put_dial(dial, out)?;
        }
        Ok(())
    }

    /// Adds the control connections, each by its seat in the audit.
    fn put_clients(&self, out: &mut Vec<u8>) -> Result<(), OutOfMemory> {
        put_word("clients", out)?;
        for seat in self.hub.clients.seats(self.rt, self.hub.alloc)? {
            put_number(" ", (seat as u64).saturating_add(1), out)?;
        }
        Ok(())
    }
}

/// Adds what a node is, and has of each limit.
fn put_status(view: &NodeView, out: &mut Vec<u8>) -> Result<(), OutOfMemory> {
    put_word("status name=", out)?;
    put_word(view.name.as_str(), out)?;
    put_number(" creation=", u64::from(view.creation), out)?;
    put_word(" version=", out)?;
    put_word(view.version, out)?;
    for (word, number, most) in counts_of(view) {
        put_number(word, number, out)?;
        if let Some(most) = most {
            put_number("/", most, out)?;
        }
    }
    match view.bytes {
        Some(bytes) => put_number(" bytes=", bytes, out),
        None => put_word(" bytes=-", out),
    }
}

/// What is counted of a node, and of how many that there may be, if there is a most.
fn counts_of(view: &NodeView) -> [(&'static str, u64, Option<u64>); 11] {
    [
        (" seconds=", view.seconds, None),
        (" lives=", view.lives, None),
        (" links=", view.links.len() as u64, Some(view.most_links)),
        (" otp_links=", view.otp_links, None),
        (" clients=", view.clients, Some(view.most_clients)),
        (" entries=", view.entries, None),
        (" kept=", view.kept, Some(view.most_kept)),
        (" lost=", view.lost, None),
        (" archived=", view.archived, None),
        (" refused=", view.refused, None),
        (" told=", view.told, None),
    ]
}

/// Adds a link: its number, the peer with its creation, whether it is visible, where it leads to,
/// for how many seconds it is up, and how many frames wait for it.
fn put_link(link: &LinkView, out: &mut Vec<u8>) -> Result<(), OutOfMemory> {
    put_number(" ", u64::from(link.number), out)?;
    put_text(link.peer.as_str(), out)?;
    put_number(" ", u64::from(link.creation), out)?;
    put_text(link.kind, out)?;
    if link.address.is_empty() {
        put_word(UNKNOWN, out)?;
    } else {
        put_text(link.address.as_str(), out)?;
    }
    put_number(" ", link.seconds, out)?;
    put_number(" ", link.waiting, out)
}

/// Adds a peer to dial: its name, its place, how often it was dialled, in how many seconds it is so
/// again, and how that goes.
fn put_dial(dial: &DialView, out: &mut Vec<u8>) -> Result<(), OutOfMemory> {
    put_text(dial.peer.as_str(), out)?;
    put_text(dial.place.as_str(), out)?;
    put_number(" ", dial.times, out)?;
    match dial.next {
        Some(seconds) => put_number(" ", seconds, out)?,
        None => put_word(UNKNOWN, out)?,
    }
    put_text(dial.state, out)
}

fn put_scopes(ledger: &Ledger, out: &mut Vec<u8>) -> Result<(), OutOfMemory> {
    put_word("scopes", out)?;
    for scope in ledger.scopes() {
        put_scope(scope, out)?;
    }
    Ok(())
}

fn put_scope(scope: &Scope, out: &mut Vec<u8>) -> Result<(), OutOfMemory> {
    put_word(" ", out)?;
    put_bytes(scope.as_bytes(), out)
}

fn put_allowed(ledger: &Ledger, out: &mut Vec<u8>) -> Result<(), OutOfMemory> {
    put_word("allowed", out)?;
    for name in ledger.allowed() {
        put_named(name, out)?;
    }
    Ok(())
}

fn put_refusals(alloc: Global, ledger: &Ledger, out: &mut Vec<u8>) -> Result<(), OutOfMemory> {
    put_word("refusals", out)?;
    for refusal in ledger.refusals.last.iter() {
        put_refusal(refusal, out)?;
        put_address(alloc, refusal.address, out)?;
    }
    Ok(())
}

/// Adds a refused event: its entry, its kind, the rule by number and name, and the peer, or a dash.
fn put_refusal(refusal: &Refusal, out: &mut Vec<u8>) -> Result<(), OutOfMemory> {
    put_number(" ", u64::from(refusal.entry), out)?;
    put_text(refusal.kind, out)?;
    put_number(" ", u64::from(refusal.rule.number()), out)?;
    put_text(refusal.rule.name(), out)?;
    match &refusal.peer {
        Some(peer) => put_named(peer, out),
        None => put_word(UNKNOWN, out),
    }
}

/// Adds an address behind a space, or a dash.
fn put_address(
    alloc: Global,
    address: Option<SocketAddr>,
    out: &mut Vec<u8>,
) -> Result<(), OutOfMemory> {
    match address {
        Some(address) => put_word(format!(in alloc; " {address}")?.as_str(), out),
        None => put_word(UNKNOWN, out),
    }
}

/// Adds a name behind a space.
fn put_named(name: &NodeName, out: &mut Vec<u8>) -> Result<(), OutOfMemory> {
    put_word(" ", out)?;
    put_bytes(name.as_bytes(), out)
}

/// Adds a text behind a space.
fn put_text(text: &str, out: &mut Vec<u8>) -> Result<(), OutOfMemory> {
    put_word(" ", out)?;
    put_word(text, out)
}
