//! What is handed in of what a process of the peer's scope says.
ghost use Rattle.std.specs.Prelude.{◌≡◌, cond};
ghost use Rattle.otp_edge.specs.HeardWords.{heard_said, seen_said};
ghost use Rattle.otp_edge.specs.ScopeEdges.{seen_of, met, is_of, heard_of, nothing, may_state};
ghost use Rattle.otp_edge.specs.ScopeEdges.{only_word};

use crate::meaning::Said;
use crate::scope_edge::{HeardWord, Run, ScopeEdge, nothing, only_word};
use crate::word::Word;
use dist_types::{Pid, Row};

impl ScopeEdge {
    /// What is handed in of what a process says to that of the scope here. A leave is handed in
    /// with all rows that it names, and has to be cut to those that are listed.
    pub fn hear_said(&mut self, peer: &Run, said: Said) -> HeardWord
        ensures heard { result ≡ heard_said peer.now said (seen_of self.old) }
        ensures seen { seen_of self.new ≡ seen_said peer.now said (seen_of self.old) }
    {
        match said {
            Said::Discover(pid) => self.hear_run(peer, pid, Word::Discover),
            Said::Sync(pid, rows) => self.hear_run(peer, pid, Word::Sync(rows)),
            Said::Join(pid, rows) => {
                let counts = self.may_state(&pid, rows.as_slice());
                only_if(counts, Word::Join(rows))
            }
            Said::Leave(pid, rows) => {
                let counts = self.may_state(&pid, rows.as_slice());
                only_if(counts, Word::Leave(rows))
            }
        }
    }

    /// A process says what any process of the peer's scope may: one of another node is none.
    fn hear_run(&mut self, peer: &Run, pid: Pid, word: Word) -> HeardWord
        ensures seen { seen_of self.new ≡ cond (is_of peer.now pid) (met pid (seen_of self.old))
            (seen_of self.old) }
        ensures heard { result ≡ cond (is_of peer.now pid) (heard_of pid word (seen_of self.old))
            nothing }
    {
        if !peer.has(&pid) {
            return nothing();
        }
        self.meet(pid, word)
    }

    /// Whether a join or a leave of these rows counts: of the known process, and of some.
    fn may_state(&self, pid: &Pid, rows: &[Row]) -> bool
        ensures { result ≡ may_state pid.now rows.now (seen_of self.now) }
    {
        self.is_known(pid) && !rows.is_empty()
    }
}

fn only_if(counts: bool, word: Word) -> HeardWord
    ensures { result ≡ cond counts (only_word word) nothing }
{
    if counts { only_word(word) } else { nothing() }
}
