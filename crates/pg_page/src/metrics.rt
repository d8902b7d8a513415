//! The metrics of a node, in the text format of Prometheus, version 0.0.4.
use crate::sheet::Sheet;
use crate::view::{DialView, LinkView, NodeView, ReasonView, RuleView, ScopeView};

/// Adds all metrics.
pub fn put_metrics(view: &NodeView, sheet: &mut Sheet) {
    put_who(view, sheet);
    put_gauges(view, sheet);
    put_counts(view, sheet);
    put_links(view.links.as_slice(), sheet);
    put_downs(view.downs.as_slice(), sheet);
    put_dropped(view.dropped.as_slice(), sheet);
    put_dials(view.dials.as_slice(), sheet);
    put_scopes(view.scopes.as_slice(), sheet);
    put_rules(view.rules.as_slice(), sheet);
}

fn put_who(view: &NodeView, sheet: &mut Sheet) {
    family("pg_node_info", "gauge", "The node and its version.", sheet);
    sheet.put("pg_node_info{name=\"");
    sheet.label(view.name.as_bytes());
    sheet.put("\",version=\"");
    sheet.label(view.version.as_bytes());
    sheet.put("\"} 1\n");
}

fn put_gauges(view: &NodeView, sheet: &mut Sheet) {
    gauge(
        "pg_node_creation",
        "The node's creation.",
        u64::from(view.creation),
        sheet,
    );
    gauge(
        "pg_node_uptime_seconds",
        "Since the program has begun.",
        view.seconds,
        sheet,
    );
    gauge(
        "pg_node_draining",
        "1 where the node is to end.",
        u64::from(view.is_draining),
        sheet,
    );
    gauge(
        "pg_node_memory_wanting",
        "1 where memory is at its end.",
        u64::from(view.wants_memory),
        sheet,
    );
    if let Some(bytes) = view.bytes {
        gauge(
            "pg_node_resident_bytes",
            "Resident memory of the program.",
            bytes,
            sheet,
        );
    }
    put_limited(view, sheet);
}

/// Adds what there is a most of.
fn put_limited(view: &NodeView, sheet: &mut Sheet) {
    gauge(
        "pg_links",
        "Links that are up.",
        view.links.len() as u64,
        sheet,
    );
    gauge("pg_links_max", "The most links.", view.most_links, sheet);
    gauge(
        "pg_otp_links",
        "Links to stock nodes of Erlang/OTP that are up.",
        view.otp_links,
        sheet,
    );
    gauge("pg_clients", "Control connections.", view.clients, sheet);
    gauge(
        "pg_clients_max",
        "The most control connections.",
        view.most_clients,
        sheet,
    );
    gauge(
        "pg_entries",
        "Entries of the audit of this life.",
        view.entries,
        sheet,
    );
    put_kept(view, sheet);
}

/// Adds how many entries the node keeps, and what became of those that it doesn't.
fn put_kept(view: &NodeView, sheet: &mut Sheet) {
    gauge(
        "pg_entries_kept",
        "Entries that the node keeps.",
        view.kept,
        sheet,
    );
    gauge(
        "pg_entries_kept_max",
        "How many it is to keep.",
        view.most_kept,
        sheet,
    );
    counter(
        "pg_entries_lost_total",
        "Entries that were to be in the archive and are not.",
        view.lost,
        sheet,
    );
    counter(
        "pg_entries_archived_total",
        "Entries that are in the archive.",
        view.archived,
        sheet,
    );
}

fn put_counts(view: &NodeView, sheet: &mut Sheet) {
    let anew = view.lives.saturating_sub(1);
    counter(
        "pg_node_new_lives_total",
        "How often the node has begun anew.",
        anew,
        sheet,
    );
    counter(
        "pg_told_lines_total",
        "Lines that were told unasked.",
        view.told,
        sheet,
    );
}

fn put_links(links: &[LinkView], sheet: &mut Sheet) {
    let name = "pg_link_waiting_frames";
    family(name, "gauge", "Frames that wait for a link.", sheet);
    for link in links {
        sample(name, "peer", link.peer.as_str(), link.waiting, sheet);
    }
    let name = "pg_link_up_seconds";
    family(name, "gauge", "For how long a link is up.", sheet);
    for link in links {
        sample(name, "peer", link.peer.as_str(), link.seconds, sheet);
    }
}

fn put_downs(downs: &[ReasonView], sheet: &mut Sheet) {
    let name = "pg_link_downs_total";
    family(
        name,
        "counter",
        "Links of this life that have ended.",
        sheet,
    );
    put_reasons(name, downs, sheet);
}

fn put_dropped(dropped: &[ReasonView], sheet: &mut Sheet) {
    let name = "pg_otp_dropped_total";
    let what = "What isn't carried between stock nodes of Erlang/OTP and the node.";
    family(name, "counter", what, sheet);
    put_reasons(name, dropped, sheet);
}

fn put_reasons(name: &str, counted: &[ReasonView], sheet: &mut Sheet) {
    for one in counted {
        sample(name, "reason", one.reason, one.times, sheet);
    }
}

fn put_dials(dials: &[DialView], sheet: &mut Sheet) {
    let name = "pg_dial_up";
    family(name, "gauge", "1 where a peer to dial is up.", sheet);
    for dial in dials {
        sample(
            name,
            "peer",
            dial.peer.as_str(),
            u64::from(dial.state == "up"),
            sheet,
        );
    }
    let name = "pg_dials_total";
    family(name, "counter", "How often a peer was dialled.", sheet);
    for dial in dials {
        sample(name, "peer", dial.peer.as_str(), dial.times, sheet);
    }
}

fn put_scopes(scopes: &[ScopeView], sheet: &mut Sheet) {
    let name = "pg_rows";
    family(
        name,
        "gauge",
        "How often processes are in groups of a scope.",
        sheet,
    );
    for scope in scopes {
        sample(name, "scope", scope.name.as_str(), scope.rows, sheet);
    }
}

fn put_rules(rules: &[RuleView], sheet: &mut Sheet) {
    let name = "pg_refused_total";
    family(
        name,
        "counter",
        "Events of this life that a rule has refused.",
        sheet,
    );
    for rule in rules {
        sample(name, "rule", rule.name, rule.times, sheet);
    }
}

fn gauge(name: &str, help: &str, value: u64, sheet: &mut Sheet) {
    family(name, "gauge", help, sheet);
    single(name, value, sheet);
}

fn counter(name: &str, help: &str, value: u64, sheet: &mut Sheet) {
    family(name, "counter", help, sheet);
    single(name, value, sheet);
}

/// Adds what is said before the samples of a metric.
fn family(name: &str, kind: &str, help: &str, sheet: &mut Sheet) {
    sheet.put("# HELP ");
    sheet.put(name);
    sheet.put(" ");
    sheet.put(help);
    sheet.put("\n# TYPE ");
    sheet.put(name);
    sheet.put(" ");
    sheet.put(kind);
    sheet.put("\n");
}

/// Adds a sample without labels.
fn single(name: &str, value: u64, sheet: &mut Sheet) {
    sheet.put(name);
    sheet.put(" ");
    sheet.number(value);
    sheet.put("\n");
}

/// Adds a sample with one label.
fn sample(name: &str, label: &str, of: &str, value: u64, sheet: &mut Sheet) {
    sheet.put(name);
    sheet.put("{");
    sheet.put(label);
    sheet.put("=\"");
    sheet.label(of.as_bytes());
    sheet.put("\"} ");
    sheet.number(value);
    sheet.put("\n");
}
