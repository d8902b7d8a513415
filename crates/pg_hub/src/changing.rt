//! Changes beside the node, as lines ask for them: of the peers to dial, and of the archive's file.
use crate::hub::Hub;
use dial_targets::{NotAdded, Target, TargetFault};
use dist_types::{NodeName, OutOfMemory, TextFault};
use pg_log::{Level, text};
use pg_session::Change;
use pg_text::{first_word, next_word, put_bytes, put_word};
use std::alloc::Global;
use std::sync::Wait;
use std::time::Clock;
use thiserror::Error;

/// Why a change isn't made, and the word at fault, if there is one.
#[derive(Clone, Copy, Debug, Drop)]
pub(crate) struct Unchanged<'a> {
    reason: Reason,
    word: Option<&'a [u8]>,
}

#[derive(Clone, Copy, Debug, Drop, Error)]
enum Reason {
    #[error("a word is missing: dial NAME=HOST:PORT")]
    NoTarget,
    #[error("a word is missing: undial NAME")]
    NoName,
    #[error("no NAME=HOST:PORT")]
    NoPlace,
    #[error("{0}")]
    Name(TextFault),
    #[error("the node's own name")]
    OwnName,
    #[error("not dialled")]
    NotDialled,
    #[error("256 peers are dialled already")]
    Full,
    #[error("an empty word; words are parted by one space")]
    EmptyWord,
    #[error("a word too many")]
    OneTooMany,
    #[error("there is no archive")]
    NoArchive,
    #[error("out of memory")]
    OutOfMemory,
}

impl Reason {
    fn about(self, word: &[u8]) -> Unchanged<'_> {
        Unchanged {
            reason: self,
            word: Some(word),
        }
    }

    fn alone<'a>(self) -> Unchanged<'a> {
        Unchanged {
            reason: self,
            word: None,
        }
    }

    fn of_target(fault: TargetFault) -> Reason {
        match fault {
            TargetFault::NoPlace | TargetFault::NoStockNode => Reason::NoPlace,
            TargetFault::Name(fault) => Reason::Name(fault),
            TargetFault::OutOfMemory => Reason::OutOfMemory,
        }
    }
}

impl Hub {
    /// Makes the change that a line asks for.
    pub(crate) fn change<'a, R: Wait + Clock>(
        &self,
        rt: &R,
        change: Change,
        line: &'a [u8],
    ) -> Result<(), Unchanged<'a>> {
        let (_, rest) = first_word(line);
        match (change, next_word(rest)) {
            (Change::Dial, None) => Err(Reason::NoTarget.alone()),
            (Change::Undial, None) => Err(Reason::NoName.alone()),
            (Change::Reopen, None) => self.reopen(rt),
            (_, Some((word, _))) if word.is_empty() => Err(Reason::EmptyWord.alone()),
            (Change::Reopen, Some((word, _))) => Err(surplus(word)),
            (_, Some((_, Some(rest)))) => Err(surplus(rest)),
            (Change::Dial, Some((word, None))) => self.dial(rt, word),
            (Change::Undial, Some((word, None))) => self.undial(rt, word),
        }
    }

    /// Has the archive's file opened anew, which whoever writes to it does next.
    fn reopen<'a, R: Wait + Clock>(&self, rt: &R) -> Result<(), Unchanged<'a>> {
        if !self.keeping.has_archive {
            return Err(Reason::NoArchive.alone());
        }
        self.keeping.reopen();
        self.log.tell(rt, Level::Info, "reopen", &[]);
        Ok(())
    }

    fn dial<'a, R: Wait + Clock>(&self, rt: &R, word: &'a [u8]) -> Result<(), Unchanged<'a>> {
        let Ok(as_text) = str::from_utf8(word) else {
            return Err(Reason::NoPlace.about(word));
        };
        let target = match Target::parse(self.alloc, as_text) {
            Ok(target) => target,
            Err(fault) => return Err(Reason::of_target(fault).about(word)),
        };
        if self.has_name(rt, target.peer()) {
            return Err(Reason::OwnName.about(word));
        }
        match self.targets.add(rt, self.alloc, target) {
            Ok(()) => {
                self.log
                    .tell(rt, Level::Info, "dial", &[text("target", as_text)]);
                self.wake(rt);
                Ok(())
            }
            Err(NotAdded::Full) => Err(Reason::Full.alone()),
            Err(NotAdded::OutOfMemory) => Err(Reason::OutOfMemory.alone()),
        }
    }

    fn has_name<R: Wait>(&self, rt: &R, name: &NodeName) -> bool {
        self.node.shared.lock(rt).core().name() == name
    }

    fn undial<'a, R: Wait + Clock>(&self, rt: &R, word: &'a [u8]) -> Result<(), Unchanged<'a>> {
        let peer = match NodeName::parse(self.alloc, word) {
            Ok(peer) => peer,
            Err(fault) => return Err(Reason::Name(fault).about(word)),
        };
        if !self.targets.remove(rt, &peer) {
            return Err(Reason::NotDialled.about(word));
        }
        self.log
            .tell(rt, Level::Info, "undial", &[text("peer", peer.as_str())]);
        self.wake(rt);
        Ok(())
    }
}

/// That these words, of which the first one is named, are too many.
fn surplus(words: &[u8]) -> Unchanged<'_> {
    let (word, _) = first_word(words);
    if word.is_empty() {
        return Reason::EmptyWord.alone();
    }
    Reason::OneTooMany.about(word)
}

/// Adds the answer to a line whose change isn't made. A word with a byte that a terminal shouldn't
/// be given isn't repeated.
pub(crate) fn put_fault(
    alloc: Global,
    fault: &Unchanged<'_>,
    out: &mut Vec<u8>,
) -> Result<(), OutOfMemory> {
    let reason = fault.reason;
    put_word(format!(in alloc; "fault {reason}")?.as_str(), out)?;
    if let Some(word) = fault.word
        && word.iter().all(|byte| byte.is_ascii_graphic())
    {
        put_word(": ", out)?;
        put_bytes(word, out)?;
    }
    put_word("\n", out)
}
