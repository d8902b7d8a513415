//! The cookies that an archive doesn't tell.
use anyhow::{Result, bail};
use clap::ArgMatches;
use dist_types::{Cookie, NodeName, OutOfMemory, TextFault, TryClone};
use named_files::{ShownPath, read_cookie};
use std::alloc::Global;
use std::fs::Files;

/// Why a word of the command line gives no cookie. It names the option, and has nothing of the
/// word, which may be the secret.
#[derive(Clone, Copy, Debug, thiserror::Error)]
pub enum CookieFault {
    #[error("--cookie: no NAME=TEXT")]
    Shown,
    #[error("--cookie: NAME: {0}")]
    ShownName(TextFault),
    #[error("--cookie: TEXT: {0}")]
    Text(TextFault),
    #[error("--cookie-for: no NAME=FILE")]
    Filed,
    #[error("--cookie-for: NAME: {0}")]
    FiledName(TextFault),
    #[error("out of memory")]
    Memory,
}

impl CookieFault {
    /// The status of the program: 1 for want of memory, else 2.
    pub fn status(self) -> u8 {
        match self {
            CookieFault::ShownName(TextFault::OutOfMemory)
            | CookieFault::Text(TextFault::OutOfMemory)
            | CookieFault::FiledName(TextFault::OutOfMemory)
            | CookieFault::Memory => 1,
            _ => 2,
        }
    }
}

impl From<OutOfMemory> for CookieFault {
    fn from(_fault: OutOfMemory) -> CookieFault {
        CookieFault::Memory
    }
}

/// Cookies by the peers that they are for, the own name among them: in turn, and the last of each
/// from then on.
#[derive(Drop)]
pub struct Cookies {
    given: Vec<Given>,
    /// Whether a life goes on with those that the last one has left.
    go_on: bool,
}

#[derive(Drop)]
struct Given {
    peer: NodeName,
    cookie: Cookie,
    is_taken: bool,
}

impl Cookies {
    pub fn new(alloc: Global) -> Cookies {
        Cookies {
            given: Vec::new(alloc),
            go_on: false,
        }
    }

    /// Adds those that stand on the command line, where all words of both options are as they have
    /// to be.
    pub fn add_shown(
        &mut self,
        alloc: Global,
        matches: &ArgMatches<'_>,
    ) -> Result<(), CookieFault> {
        for word in matches.get_strs("cookie").unwrap_or(&[]) {
            let (peer, cookie) = shown(alloc, word)?;
            self.add(peer, cookie)?;
        }
        for word in matches.get_strs("cookie-for").unwrap_or(&[]) {
            filed(alloc, word)?;
        }
        self.go_on = matches.get_flag("through-lives");
        Ok(())
    }

    /// Adds those in the files that are named there.
    pub fn add_filed<R: Files>(
        &mut self,
        rt: &R,
        alloc: Global,
        matches: &ArgMatches<'_>,
    ) -> Result<()> {
        for word in matches.get_strs("cookie-for").unwrap_or(&[]) {
            let (peer, path) = filed(alloc, word)?;
            self.add(peer, filed_cookie(rt, alloc, path)?)?;
        }
        Ok(())
    }

    fn add(&mut self, peer: NodeName, cookie: Cookie) -> Result<(), OutOfMemory> {
        self.given.push(Given {
            peer,
            cookie,
            is_taken: false,
        })?;
        Ok(())
    }

    /// Begins a life: anew with the first cookie of each peer, unless they go on through all lives.
    pub fn begin(&mut self) {
        if self.go_on {
            return;
        }
        for given in &mut self.given {
            given.is_taken = false;
        }
    }

    /// The next cookie for a peer.
    pub fn next(&mut self, alloc: Global, peer: &NodeName) -> Result<Cookie> {
        let place = self.place_of(peer);
        let Some(given) = self.given.get_mut(place) else {
            let name = peer.as_str();
            bail!("the cookie for {name:.80} isn't given (--cookie, --cookie-for)");
        };
        given.is_taken = true;
        Ok(given.cookie.try_clone(alloc)?)
    }

    /// Where the first cookie for a peer stands that wasn't taken, or else the last one; behind
    /// all, where there is none.
    fn place_of(&self, peer: &NodeName) -> usize {
        let mut place = self.given.len();
        for (i, given) in self.given.iter().enumerate() {
            if given.peer == *peer {
                place = i;
                if !given.is_taken {
                    break;
                }
            }
        }
        place
    }
}

/// The peer that a word NAME=TEXT names, and its cookie.
fn shown(alloc: Global, word: &str) -> Result<(NodeName, Cookie), CookieFault> {
    let Some((name, text)) = word.split_once('=') else {
        return Err(CookieFault::Shown);
    };
    let peer = NodeName::parse(alloc, name.as_bytes()).map_err(CookieFault::ShownName)?;
    let cookie = Cookie::parse(alloc, text.as_bytes()).map_err(CookieFault::Text)?;
    Ok((peer, cookie))
}

/// The peer that a word NAME=FILE names, and the path of the file.
fn filed(alloc: Global, word: &str) -> Result<(NodeName, &str), CookieFault> {
    let Some((name, path)) = word.split_once('=') else {
        return Err(CookieFault::Filed);
    };
    let peer = NodeName::parse(alloc, name.as_bytes()).map_err(CookieFault::FiledName)?;
    Ok((peer, path))
}

/// The cookie in a file.
fn filed_cookie<R: Files>(rt: &R, alloc: Global, path: &str) -> Result<Cookie> {
    match read_cookie(rt, alloc, path) {
        Ok(cookie) => Ok(cookie),
        Err(fault) => bail!("--cookie-for: {}: {fault}", ShownPath(path)),
    }
}
