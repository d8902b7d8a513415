//! The page that people look at: one file of HTML, without a script, which asks for itself again.
use crate::sheet::Sheet;
use crate::tables::{
    Listed, cell, is_none, number_cell, pair, put_table, put_where, row, word_cell,
};
use crate::view::{DialView, GroupView, LinkView, NodeView, RuleView, ScopeView};

const HEAD: &str = "<!DOCTYPE html>\n<html lang=\"en\">\n<head>\n<meta charset=\"utf-8\">\n\
<meta name=\"viewport\" content=\"width=device-width, initial-scale=1\">\n\
<meta http-equiv=\"refresh\" content=\"5\">\n<title>";

const STYLE: &str = "</title>\n<style>\n\
body { font: 16px/1.4 system-ui, sans-serif; margin: 1em; max-width: 70em }\n\
.wide { overflow-x: auto }\n\
table { border-collapse: collapse }\n\
th, td { border: 1px solid; padding: .2em .5em; min-width: 4.5em; text-align: left; \
vertical-align: top; overflow-wrap: anywhere }\n\
pre { white-space: pre-wrap; overflow-wrap: anywhere }\n\
</style>\n</head>\n<body>\n";

const END: &str = "</body>\n</html>\n";

/// Adds the page of a node.
pub fn put_page(view: &NodeView, sheet: &mut Sheet) {
    sheet.put(HEAD);
    sheet.show(view.name.as_bytes());
    sheet.put(STYLE);
    put_title(view, sheet);
    put_node(view, sheet);
    put_table(view.links.as_slice(), sheet);
    put_table(view.dials.as_slice(), sheet);
    put_table(view.scopes.as_slice(), sheet);
    put_table(view.rules.as_slice(), sheet);
    put_decisions(view.decisions.as_slice(), sheet);
    sheet.put(END);
}

fn put_title(view: &NodeView, sheet: &mut Sheet) {
    sheet.put("<h1>");
    sheet.show(view.name.as_bytes());
    sheet.put("</h1>\n");
    let drains =
        "<p><strong>It drains: nobody is let in any more, and it is to end.</strong></p>\n";
    put_where(view.is_draining, drains, sheet);
    let wants = "<p><strong>Memory is at its end: it is to begin anew.</strong></p>\n";
    put_where(view.wants_memory, wants, sheet);
}

fn put_node(view: &NodeView, sheet: &mut Sheet) {
    sheet.put("<div class=\"wide\"><table>\n");
    pair("creation", u64::from(view.creation), sheet);
    pair("seconds since it began", view.seconds, sheet);
    pair("lives", view.lives, sheet);
    part("links", view.links.len() as u64, view.most_links, sheet);
    part("clients", view.clients, view.most_clients, sheet);
    pair("entries", view.entries, sheet);
    part("entries kept", view.kept, view.most_kept, sheet);
    pair("entries lost", view.lost, sheet);
    pair("entries archived", view.archived, sheet);
    pair("events refused", view.refused, sheet);
    pair("lines told", view.told, sheet);
    if let Some(bytes) = view.bytes {
        pair("bytes of memory", bytes, sheet);
    }
    row("version", view.version, sheet);
    sheet.put("</table></div>\n");
}

/// Adds how many there are of so many that there may be.
fn part(name: &str, number: u64, most: u64, sheet: &mut Sheet) {
    sheet.put("<tr><th>");
    sheet.put(name);
    sheet.put("</th><td>");
    sheet.number(number);
    sheet.put(" of ");
    sheet.number(most);
    sheet.put("</td></tr>\n");
}

impl Listed for LinkView {
    const HEADING: &'static str = "Links";

    const COLUMNS: &'static [&'static str] = &[
        "peer",
        "creation",
        "kind",
        "address",
        "seconds up",
        "frames waiting",
    ];

    fn put_rows(&self, sheet: &mut Sheet) {
        sheet.put("<tr>");
        cell(self.peer.as_bytes(), sheet);
        number_cell(u64::from(self.creation), sheet);
        word_cell(self.kind, sheet);
        cell(self.address.as_bytes(), sheet);
        number_cell(self.seconds, sheet);
        number_cell(self.waiting, sheet);
        sheet.put("</tr>\n");
    }
}

impl Listed for DialView {
    const HEADING: &'static str = "Dials";

    const COLUMNS: &'static [&'static str] = &[
        "peer",
        "place",
        "dialled",
        "again in seconds",
        "state",
        "last error",
    ];

    fn put_rows(&self, sheet: &mut Sheet) {
        sheet.put("<tr>");
        cell(self.peer.as_bytes(), sheet);
        cell(self.place.as_bytes(), sheet);
        number_cell(self.times, sheet);
        match self.next {
            Some(seconds) => number_cell(seconds, sheet),
            None => word_cell("", sheet),
        }
        word_cell(self.state, sheet);
        word_cell(self.reason, sheet);
        sheet.put("</tr>\n");
    }
}

impl Listed for ScopeView {
    const HEADING: &'static str = "Scopes";

    const COLUMNS: &'static [&'static str] = &["scope", "group", "members"];

    /// A row of all its groups, and one of each that is shown.
    fn put_rows(&self, sheet: &mut Sheet) {
        sheet.put("<tr>");
        cell(self.name.as_bytes(), sheet);
        sheet.put("<td>all ");
        sheet.number(self.size);
        sheet.put("</td>");
        number_cell(self.rows, sheet);
        sheet.put("</tr>\n");
        for group in &self.groups {
            put_group(group, sheet);
        }
        let shown = self.groups.len() as u64;
        if shown < self.size {
            put_more(self.size - shown, sheet);
        }
    }
}

fn put_group(group: &GroupView, sheet: &mut Sheet) {
    sheet.put("<tr><td></td>");
    cell(group.name.as_bytes(), sheet);
    number_cell(group.members, sheet);
    sheet.put("</tr>\n");
}

/// Adds how many groups of a scope aren't shown.
fn put_more(groups: u64, sheet: &mut Sheet) {
    sheet.put("<tr><td></td><td>and ");
    sheet.number(groups);
    sheet.put(" more</td><td></td></tr>\n");
}

impl Listed for RuleView {
    const HEADING: &'static str = "Refused in this life";

    const COLUMNS: &'static [&'static str] = &["rule", "name", "events"];

    fn put_rows(&self, sheet: &mut Sheet) {
        sheet.put("<tr>");
        number_cell(u64::from(self.number), sheet);
        word_cell(self.name, sheet);
        number_cell(self.times, sheet);
        sheet.put("</tr>\n");
    }
}

fn put_decisions(decisions: &[Vec<u8>], sheet: &mut Sheet) {
    if is_none("Last lines of the log", decisions.is_empty(), sheet) {
        return;
    }
    sheet.put("<pre>\n");
    for line in decisions {
        sheet.show(line.as_slice());
        sheet.put("\n");
    }
    sheet.put("</pre>\n");
}
