//! Archives, played again.
use crate::cookies::Cookies;
use anyhow::{Error, Result, anyhow, bail};
use dist_types::{NodeName, TryClone};
use named_files::ShownPath;
use pg_archive::{Asked, Life, Line, Replay, Scratch, Told, read_line};
use pg_script::{RunFault, TURNS};
use pg_text::without_feed;
use policy_audit::Event;
use std::alloc::Global;
use std::io::BufRead;

/// How many lives and entries agreed with the policy.
#[derive(Clone, Copy)]
pub struct Agreed {
    pub lives: u64,
    pub entries: u64,
}

/// A life that is played again.
#[derive(Drop)]
struct Played {
    name: NodeName,
    replay: Replay,
}

/// What plays the lines of archives.
pub struct Player {
    alloc: Global,
    scratch: Scratch,
    /// The cookies that the lives begin with, and that their entries set.
    pub cookies: Cookies,
    played: Option<Played>,
    agreed: Agreed,
}

impl Drop for Player {
    fn drop(self) {
        let Player {
            alloc: _,
            scratch: _,
            cookies: _,
            played: _,
            agreed: _,
        } = self;
    }
}

impl Player {
    /// A player without cookies.
    pub fn new(alloc: Global) -> Player {
        let agreed = Agreed {
            lives: 0,
            entries: 0,
        };
        Player {
            alloc,
            scratch: Scratch::new(alloc),
            cookies: Cookies::new(alloc),
            played: None,
            agreed,
        }
    }

    pub fn agreed(&self) -> Agreed {
        self.agreed
    }

    /// Plays the lines of one file, up to the first that doesn't agree. Its error names the file
    /// and the line.
    pub fn play<R: BufRead>(&mut self, path: &str, reader: &mut R) -> Result<()> {
        let mut line = Vec::new(self.alloc);
        self.play_lines(path, reader, &mut line)
    }

    fn play_lines<R: BufRead>(
        &mut self,
        path: &str,
        reader: &mut R,
        line: &mut Vec<u8>,
    ) -> Result<()> {
        for turn in 0..TURNS {
            match pg_script::read_line(line, reader) {
                Ok(true) => {}
                Ok(false) => return Ok(()),
                Err(RunFault::Memory) => bail!("out of memory"),
                Err(_) => return Err(of_file(path, "it can't be read")),
            }
            if let Err(error) = self.follow(without_feed(line.as_slice())) {
                bail!("{}: line {}: {error}", ShownPath(path), turn + 1);
            }
        }
        Err(of_file(path, "it has too many lines"))
    }

    /// Plays a line.
    fn follow(&mut self, line: &[u8]) -> Result<()> {
        match read_line(&mut self.scratch, line) {
            Ok(Line::Life(life)) => self.open(life),
            Ok(Line::Entry(told)) => self.step(told, line),
            Err(fault) => Err(Error::from(fault)),
        }
    }

    /// Begins a life.
    fn open(&mut self, life: Life) -> Result<()> {
        self.cookies.begin();
        let name = life.name.try_clone(self.alloc)?;
        let cookie = self.cookies.next(self.alloc, &name)?;
        let replay = Replay::open(self.alloc, life, cookie)?;
        self.played = Some(Played { name, replay });
        self.agreed.lives = self.agreed.lives.saturating_add(1);
        Ok(())
    }

    /// Plays an entry.
    fn step(&mut self, told: Told, line: &[u8]) -> Result<()> {
        let Some(played) = &mut self.played else {
            drop(told);
            bail!("no life begins before this entry");
        };
        let Told {
            number,
            seat,
            asked,
        } = told;
        let event = event_of(self.alloc, &mut self.cookies, &played.name, asked)?;
        played.replay.follow(number, seat, event, line)?;
        self.agreed.entries = self.agreed.entries.saturating_add(1);
        Ok(())
    }
}

/// The event, with the cookie that it sets, on the node of this name.
fn event_of(alloc: Global, cookies: &mut Cookies, name: &NodeName, asked: Asked) -> Result<Event> {
    match asked {
        Asked::Event(event) => Ok(event),
        Asked::SetCookie => Ok(Event::SetCookie(cookies.next(alloc, name)?)),
        Asked::SetCookieFor(peer) => {
            let cookie = cookies.next(alloc, &peer)?;
            Ok(Event::SetCookieFor(peer, cookie))
        }
    }
}

fn of_file(path: &str, what: &str) -> Error {
    anyhow!("{}: {what}", ShownPath(path))
}
