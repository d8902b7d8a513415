//! A process that stays in a group.
use crate::bell::{Bell, Outcome};
use crate::fault::Fault;
use crate::talk::Talk;
use anyhow::anyhow;
use pg_answers::Said;
use std::alloc::Global;
use std::sync::Wait;

/// How often a process is spawned again for one that the node doesn't know any more.
const TRIES: u32 = 8;

/// The group that is held.
#[derive(Drop)]
pub struct Hold {
    alloc: Global,
    start: String,
    join: String,
    stopped: String,
}

impl Hold {
    pub fn new(alloc: Global, scope: &str, group: &str) -> Result<Hold, Fault> {
        Ok(Hold {
            alloc,
            start: format!(in alloc; "start {scope}\n")?,
            join: format!(in alloc; "join {scope} {group} ")?,
            stopped: format!(in alloc; "! stopped {scope}")?,
        })
    }

    /// Joins, and joins again where the process is gone or out of the group, until the node is gone
    /// or refuses it.
    pub fn keep<R: Print + Wait>(&self, rt: &R, talk: &mut Talk<'_, R>, bell: &Bell) -> Outcome {
        let said = self.join(talk)?;
        if said != Said::Done {
            return Ok(said.status());
        }
        bell.answer(rt);
        let mut process = talk.take_line();
        for _ in rt.forever() {
            if talk.next()? != Said::News {
                continue;
            }
            if talk.line.as_slice() == self.stopped.as_bytes() {
                // It lives on without its group, and would count for nothing.
                talk.ask(line_of(self.alloc, "exit ", process.as_slice())?.as_str())?;
            } else if !talk.line.starts_with(b"! restarted ") {
                continue;
            }
            let said = self.join(talk)?;
            if said != Said::Done {
                return Ok(said.status());
            }
            process = talk.take_line();
        }
        unreachable!()
    }

    /// Spawns a process that joins, and shows it, which is then the last line; or shows why it
    /// can't.
    fn join<R: Print>(&self, talk: &mut Talk<'_, R>) -> Result<Said, Fault> {
        let mut said = self.try_join(talk)?;
        for _ in 0..TRIES {
            // In between the node may begin anew, of which the process is none then, and the scope
            // stop.
            if talk.line.as_slice() != b"fault not yours".as_slice()
                && !talk.line.ends_with(b" NoScope")
            {
                break;
            }
            said = self.try_join(talk)?;
        }
        talk.print()?;
        Ok(said)
    }

    /// The same once: what was said last, in whose place stands the process that has joined.
    fn try_join<R: Print>(&self, talk: &mut Talk<'_, R>) -> Result<Said, Fault> {
        let started = talk.ask(self.start.as_str())?;
        // It is refused where the scope runs, which is as good.
        if started != Said::Done && !talk.line.ends_with(b" ScopeRunning") {
            return Ok(started);
        }
        let spawned = talk.ask("spawn\n")?;
        if spawned != Said::Done {
            return Ok(spawned);
        }
        let process = talk.take_line();
        let line = line_of(self.alloc, self.join.as_str(), process.as_slice())?;
        let said = talk.ask(line.as_str())?;
        if said == Said::Done {
            talk.line = process;
        }
        Ok(said)
    }
}

/// A line of these words and a process, by the answer that named it.
fn line_of(alloc: Global, words: &str, answer: &[u8]) -> Result<String, Fault> {
    let text = str::from_utf8(answer).unwrap_or("");
    match text.strip_prefix("pid ") {
        Some(pid) => Ok(format!(in alloc; "{words}{pid}\n")?),
        None => Err(Fault::of(anyhow!("the process has no name"))),
    }
}
