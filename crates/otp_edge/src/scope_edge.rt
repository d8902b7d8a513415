//! What the edge of a link knows of one scope.
ghost use Rattle.std.specs.Prelude.{◌≡◌, None};
ghost use Rattle.otp_edge.specs.ScopeEdges.{seen_of, fresh, is_known, met, is_of, heard_of, nothing, only_word};

use crate::word::Word;
use dist_types::{NodeName, Pid, Row};
use std::alloc::Global;

/// A run of a node: its name, and the number of this start.
#[derive(Debug, Drop)]
pub struct Run {
    pub node: NodeName,
    pub creation: u32,
}

/// What the edge of a link knows of a scope that runs here.
#[derive(Debug, Drop)]
pub struct ScopeEdge {
    /// The process of the peer's scope.
    pub other: Option<Pid>,
    /// Whether it was sent our rows.
    pub is_told: bool,
    /// The rows that it was told, without those that left.
    pub told: Vec<Row>,
}

/// What is handed in of what is heard.
#[derive(Debug, Drop)]
pub struct HeardWord {
    /// Whether a Down is handed in first: another process was the scope's.
    pub is_down: bool,
    /// Whether the process is new, and so to be watched.
    pub is_new: bool,
    pub word: Option<Word>,
}

impl Run {
    /// Whether the process is one of this run.
    pub fn has(&self, pid: &Pid) -> bool
        ensures { result ≡ is_of self.now pid.now }
    {
        pid.node == self.node && pid.creation == self.creation
    }
}

impl ScopeEdge {
    /// A scope of which nothing is known at the peer.
    pub fn new(alloc: Global) -> ScopeEdge
        ensures { seen_of result ≡ fresh None }
    {
        ScopeEdge {
            other: None,
            is_told: false,
            told: Vec::new(alloc),
        }
    }

    /// The process of the peer's scope ended, or its link: nothing is known of it any more.
    pub fn forget(&mut self)
        ensures { seen_of self.new ≡ fresh None }
    {
        self.other = None;
        self.is_told = false;
        self.told.clear();
    }

    /// Whether this is the known process of the peer's scope.
    pub fn is_known(&self, pid: &Pid) -> bool
        ensures { result ≡ is_known pid.now self.now.other }
    {
        match &self.other {
            Some(known) => known == pid,
            None => false,
        }
    }

    /// A process says a word by which it is known: it is that of the peer's scope from now on.
    pub fn meet(&mut self, pid: Pid, word: Word) -> HeardWord
        ensures seen { seen_of self.new ≡ met pid (seen_of self.old) }
        ensures heard { result ≡ heard_of pid word (seen_of self.old) }
    {
        if self.is_known(&pid) {
            return only_word(word);
        }
        let is_down = self.other.is_some();
        self.forget();
        self.other = Some(pid);
        HeardWord {
            is_down,
            is_new: true,
            word: Some(word),
        }
    }
}

/// Nothing is handed in.
pub fn nothing() -> HeardWord
    ensures { result ≡ nothing }
{
    HeardWord {
        is_down: false,
        is_new: false,
        word: None,
    }
}

/// A word is handed in, and nothing before it.
pub fn only_word(word: Word) -> HeardWord
    ensures { result ≡ only_word word }
{
    HeardWord {
        is_down: false,
        is_new: false,
        word: Some(word),
    }
}
