//! What is shown of a node, as it stood at one moment.
use std::alloc::Global;

/// A node at one moment.
pub struct NodeView {
    pub name: String,
    pub creation: u32,
    pub version: &'static str,
    /// Since the program has begun.
    pub seconds: u64,
    /// How many lives the node has had.
    pub lives: u64,
    pub is_draining: bool,
    pub wants_memory: bool,
    /// Those that are resident, where the system tells it.
    pub bytes: Option<u64>,
    pub clients: u64,
    pub most_clients: u64,
    /// Of the audit of this life, those that aren't kept any more too.
    pub entries: u64,
    /// How many of them are kept, and how many are to be.
    pub kept: u64,
    pub most_kept: u64,
    /// How many entries were to be in the archive and aren't, and how many are.
    pub lost: u64,
    pub archived: u64,
    /// How many events of this life a rule has refused.
    pub refused: u64,
    /// How many lines were told unasked.
    pub told: u64,
    pub links: Vec<LinkView>,
    /// How many of them lead to stock nodes of Erlang/OTP.
    pub otp_links: u64,
    /// What isn't carried between these and the node, by its reason.
    pub dropped: Vec<ReasonView>,
    pub most_links: u64,
    /// How often links of this life have ended, by the reason.
    pub downs: Vec<ReasonView>,
    pub dials: Vec<DialView>,
    pub scopes: Vec<ScopeView>,
    /// The rules that have refused something, ascending.
    pub rules: Vec<RuleView>,
    /// The last lines of the log, the oldest first.
    pub decisions: Vec<Vec<u8>>,
}

impl Drop for NodeView {
    fn drop(self) {
        let NodeView {
            name: _,
            creation: _,
            version: _,
            seconds: _,
            lives: _,
            is_draining: _,
            wants_memory: _,
            bytes: _,
            clients: _,
            most_clients: _,
            entries: _,
            kept: _,
            most_kept: _,
            lost: _,
            archived: _,
            refused: _,
            told: _,
            links: _,
            otp_links: _,
            dropped: _,
            most_links: _,
            downs: _,
            dials: _,
            scopes: _,
            rules: _,
            decisions: _,
        } = self;
    }
}

impl NodeView {
    /// Of a node of which nothing is known yet.
    pub fn new(alloc: Global, version: &'static str) -> NodeView {
        NodeView {
            name: String::new(alloc),
            creation: 0,
            version,
            seconds: 0,
            lives: 0,
            is_draining: false,
            wants_memory: false,
            bytes: None,
            clients: 0,
            most_clients: 0,
            entries: 0,
            kept: 0,
            most_kept: 0,
            lost: 0,
            archived: 0,
            refused: 0,
            told: 0,
            links: Vec::new(alloc),
            otp_links: 0,
            dropped: Vec::new(alloc),
            most_links: 0,
            downs: Vec::new(alloc),
            dials: Vec::new(alloc),
            scopes: Vec::new(alloc),
            rules: Vec::new(alloc),
            decisions: Vec::new(alloc),
        }
    }
}

/// How often something was so, for one reason.
pub struct ReasonView {
    /// Why, as one word.
    pub reason: &'static str,
    pub times: u64,
}

impl Drop for ReasonView {
    fn drop(self) {
        let ReasonView {
            reason: _,
            times: _,
        } = self;
    }
}

/// A link that is up.
pub struct LinkView {
    pub number: u32,
    pub peer: String,
    pub creation: u32,
    pub is_visible: bool,
    /// The same in a word, which names those to stock nodes of Erlang/OTP.
    pub kind: &'static str,
    /// Of the other end; empty where it isn't known.
    pub address: String,
    /// For how many seconds it is up.
    pub seconds: u64,
    /// How many frames wait for it.
    pub waiting: u64,
}

impl Drop for LinkView {
    fn drop(self) {
        let LinkView {
            number: _,
            peer: _,
            creation: _,
            is_visible: _,
            kind: _,
            address: _,
            seconds: _,
            waiting: _,
        } = self;
    }
}

/// A peer to dial.
pub struct DialView {
    pub peer: String,
    /// HOST:PORT.
    pub place: String,
    pub times: u64,
    /// In how many seconds it is dialled again.
    pub next: Option<u64>,
    /// How dials go, as `dials` tells it.
    pub state: &'static str,
    /// What that means, where the last dial has failed.
    pub reason: &'static str,
}

impl Drop for DialView {
    fn drop(self) {
        let DialView {
            peer: _,
            place: _,
            times: _,
            next: _,
            state: _,
            reason: _,
        } = self;
    }
}

/// A scope that runs.
pub struct ScopeView {
    pub name: String,
    /// How often processes are in its groups.
    pub rows: u64,
    /// How many groups have members.
    pub size: u64,
    /// The first of these groups, ascending, for a page.
    pub groups: Vec<GroupView>,
}

impl Drop for ScopeView {
    fn drop(self) {
        let ScopeView {
            name: _,
            rows: _,
            size: _,
            groups: _,
        } = self;
    }
}

/// A group.
pub struct GroupView {
    pub name: String,
    pub members: u64,
}

impl Drop for GroupView {
    fn drop(self) {
        let GroupView {
            name: _,
            members: _,
        } = self;
    }
}

/// A rule that has refused events.
#[derive(Clone, Copy, Drop)]
pub struct RuleView {
    pub number: u32,
    pub name: &'static str,
    pub times: u64,
}
