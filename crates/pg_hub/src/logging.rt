//! What happens to links, as it is logged.
use crate::hub::Hub;
use crate::stock::log_dropped;
use dist_types::NodeName;
use link_notes::Edges;
use pg_ledger::{Happening, Ledger, Refusal, UpLink};
use pg_log::{Decision, Field, Level, Log, Source, number, text};
use pg_session::Seen;
use pg_text::DownReason;
use policy_audit::Rule;
use std::alloc::Global;
use std::net::SocketAddr;
use std::sync::{Mutex, Wait};
use std::thread;
use std::time::{Clock, Duration};

/// The milliseconds between two looks at the audit: a burst costs no more looks.
const REST: u64 = 50;

impl Hub {
    /// Logs what happens to links, until the program ends.
    pub fn log_all<R: Wait + Clock>(&self, rt: &R) {
        if !self.log.has(Level::Error) {
            return;
        }
        let mut seen = None;
        for _ in rt.forever() {
            let shared = self.node.shared.lock(rt);
            let shared = self.node.moved.wait_while(rt, shared, |shared| {
                !self.signals.is_quitting() && seen == Some(Seen::of(shared.core()))
            });
            seen = Some(Seen::of(shared.core()));
            drop(shared);
            self.log_links(rt);
            if self.signals.is_quitting() {
                return;
            }
            thread::sleep(rt, Duration::from_millis(REST));
        }
        unreachable!()
    }

    /// Logs what has happened to links since the last time.
    pub fn log_links<R: Wait + Clock>(&self, rt: &R) {
        self.follow(rt);
        let to = LinkLog {
            rt,
            alloc: self.alloc,
            log: &self.log,
            edges: &self.notes.edges,
        };
        to.say_all(&self.ledger);
    }
}

/// Where it is logged what happens to links.
#[derive(Drop)]
struct LinkLog<'a, R: Wait + Clock> {
    rt: &'a R,
    alloc: Global,
    log: &'a Log,
    edges: &'a Edges,
}

impl<R: Wait + Clock> LinkLog<'_, R> {
    /// Says what has happened since the last time. The ledger is free while a line is written.
    fn say_all(&self, ledger: &Mutex<Ledger>) {
        for _ in self.rt.forever() {
            let next = ledger.lock(self.rt).chronicle.take();
            match next {
                Some(happening) => self.say(&happening),
                None => break,
            }
        }
        let lost = ledger.lock(self.rt).chronicle.take_lost();
        if lost > 0 {
            let fields = [number("lines", lost)];
            self.log.tell(self.rt, Level::Warn, "left_out", &fields);
        }
    }

    fn say(&self, happening: &Happening) {
        match happening {
            Happening::Up(peer, creation, kind, address) => {
                self.say_up(peer, *creation, kind, *address);
            }
            Happening::Down(link, reason) => self.say_down(link, *reason),
            Happening::Refused(refusal) => self.say_refused(refusal),
        }
    }

    fn say_up(
        &self,
        peer: &NodeName,
        creation: u32,
        kind: &'static str,
        address: Option<SocketAddr>,
    ) {
        let fields = [
            text("peer", peer.as_str()),
            Field::address("at", address),
            number("creation", u64::from(creation)),
            text("kind", kind),
        ];
        self.log.tell(self.rt, Level::Info, "up", &fields);
    }

    fn say_down(&self, link: &UpLink, reason: DownReason) {
        let level = match reason {
            DownReason::Slow | DownReason::Silent | DownReason::Replaced | DownReason::Unreadable =>
                Level::Warn,
            DownReason::Closed | DownReason::Disconnected | DownReason::Restarted => Level::Info,
        };
        let fields = [
            text("peer", link.peer.as_str()),
            Field::address("at", link.address),
            number("creation", u64::from(link.creation)),
            text("reason", reason.word()),
        ];
        self.log.tell(self.rt, level, "down", &fields);
        if link.kind.is_otp() {
            log_dropped(self.rt, self.log, self.edges);
        }
    }

    fn say_refused(&self, refusal: &Refusal) {
        let Ok(rule) = format!(in self.alloc; "{}", refusal.rule) else {
            return;
        };
        let peer = refusal.peer.as_ref().map(NodeName::as_str).unwrap_or("-");
        let source = Source {
            address: refusal.address.map(|address| address.ip()),
            rule: refusal.rule.number(),
        };
        let fields = refusal_fields(refusal, peer, rule.as_str());
        let level = match refusal.rule {
            Rule::PeerSaid => Level::Info,
            _ => Level::Warn,
        };
        self.log.say(
            self.rt,
            &Decision {
                level,
                what: "refused",
                source: Some(source),
                fields: &fields,
            },
        );
    }
}

fn refusal_fields<'a>(refusal: &Refusal, peer: &'a str, rule: &'a str) -> [Field<'a>; 5] {
    [
        text("peer", peer),
        Field::address("at", refusal.address),
        text("rule", rule),
        text("event", refusal.kind),
        number("entry", u64::from(refusal.entry)),
    ]
}
