//! What a connection may be told of the node beside its rows, and change beside them, without an
//! entry.
ghost use Rattle.std.specs.Prelude.{◌≡◌, ◌++◌, List, ℕ, OnOk};
ghost use Rattle.pg_text.specs.Lines.{words_of};
ghost use Rattle.pg_session.specs.Asked.{report_of, change_of};

use dist_types::OutOfMemory;
use pg_text::{first_word, put_bytes};

const OWN: &str = "self";

const STATUS: &str = "status";

const LINKS: &str = "links";

const DIALS: &str = "dials";

const SCOPES: &str = "scopes";

const ALLOWED: &str = "allowed";

const CLIENTS: &str = "clients";

const REFUSALS: &str = "refusals";

const DIAL: &str = "dial";

const UNDIAL: &str = "undial";

const REOPEN: &str = "reopen";

/// What may be told.
#[derive(Clone, Copy, Debug, PartialEq, Eq)]
pub enum Report {
    /// The name and the creation of the node.
    Own,
    /// What the node has of each limit.
    Status,
    /// The links that are up.
    Links,
    /// The peers to dial.
    Dials,
    /// The scopes that run.
    Scopes,
    /// Whom it admits.
    Allowed,
    /// The control connections.
    Clients,
    /// The last events of links that a rule has refused.
    Refusals,
}

impl Report {
    /// What a line asks for, if it is one of these.
    pub fn of(line: &[u8]) -> Option<Report>
        ensures { result ≡ report_of line.now }
    {
        if line == OWN.as_bytes() {
            Some(Report::Own)
        } else if line == STATUS.as_bytes() {
            Some(Report::Status)
        } else if line == LINKS.as_bytes() {
            Some(Report::Links)
        } else if line == DIALS.as_bytes() {
            Some(Report::Dials)
        } else if line == SCOPES.as_bytes() {
            Some(Report::Scopes)
        } else if line == ALLOWED.as_bytes() {
            Some(Report::Allowed)
        } else if line == CLIENTS.as_bytes() {
            Some(Report::Clients)
        } else if line == REFUSALS.as_bytes() {
            Some(Report::Refusals)
        } else {
            None
        }
    }
}

/// What may be changed.
#[derive(Clone, Copy, Debug, PartialEq, Eq)]
pub enum Change {
    /// A peer is dialled from now on.
    Dial,
    /// It is so no more.
    Undial,
    /// The file of the archive is opened anew.
    Reopen,
}

impl Change {
    /// What a line asks for, if it is one of these: its first word says so.
    pub fn of(line: &[u8]) -> Option<Change>
        ensures { result ≡ change_of (words_of line.now) }
    {
        let (name, _) = first_word(line);
        if name == DIAL.as_bytes() {
            Some(Change::Dial)
        } else if name == UNDIAL.as_bytes() {
            Some(Change::Undial)
        } else if name == REOPEN.as_bytes() {
            Some(Change::Reopen)
        } else {
            None
        }
    }
}

/// What a line of a connection may ask for beside the node.
pub trait Surroundings {
    /// The line of a report.
    fn report(&self, report: Report) -> Result<Vec<u8>, OutOfMemory>;

    /// Makes the change that the line asks for: its answer.
    fn change(&self, change: Change) -> Result<Vec<u8>, OutOfMemory>;
}

/// Adds the line of a report.
pub fn put_report<E: Surroundings>(
    surroundings: &E,
    report: Report,
    out: &mut Vec<u8>,
) -> Result<(), OutOfMemory>
    ensures { OnOk result ((text : List ℕ) × (out.new.items ≡ out.old.items ++ text)) }
{
    let line = surroundings.report(report)?;
    put_bytes(line.as_slice(), out)
}

/// Makes a change, and adds its answer.
pub fn put_change<E: Surroundings>(
    surroundings: &E,
    change: Change,
    out: &mut Vec<u8>,
) -> Result<(), OutOfMemory>
    ensures { OnOk result ((text : List ℕ) × (out.new.items ≡ out.old.items ++ text)) }
{
    let line = surroundings.change(change)?;
    put_bytes(line.as_slice(), out)
}
