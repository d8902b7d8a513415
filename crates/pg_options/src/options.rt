//! What the command line says.
use crate::cookies::{add_cookies, own_cookie};
use crate::faces::{Faces, read_faces};
use crate::fault::{Fault, alone, refused};
use crate::stock::{OtpOptions, add_stock, read_otp};
use crate::usual::{CLIENTS, ENTRIES, FORMAT, LEVEL, LINKS, SETUP, TICK};
use crate::words::{add_target, name, place, target};
use clap::ArgMatches;
use dial_targets::{Limits, Target, Targets};
use dist_types::{Cookie, NodeName};
use pg_log::{Format, LevelFilter};
use policy_audit::Opening;
use rand::Rng;
use std::alloc::Global;
use std::fs::Files;
use std::sync::Arc;
use std::time::Duration;

/// The fewest numbers of entries: room for what a new life of the node says first, and for its last
/// sixteenth.
const FEWEST: u32 = 64;

/// The most names that may be allowed.
const MOST_NAMES: usize = 1_024;

/// What the program runs with.
#[derive(Drop)]
pub struct Options<'a> {
    pub opening: Opening,
    /// HOST:PORT.
    pub listen: Option<&'a str>,
    pub otp: OtpOptions<'a>,
    pub targets: Arc<Targets>,
    pub limits: Limits,
    pub allowed: Vec<NodeName>,
    pub cookies: Vec<(NodeName, Cookie)>,
    /// Where it is asked beside its standard input.
    pub faces: Faces<'a>,
    /// The most clients at once.
    pub clients: u32,
    /// How many entries the node keeps. Those of its opening are the last numbers of entries.
    pub entries: u32,
    /// The path of the archive, and the most bytes of a file of it, if there is a most.
    pub audit: Option<&'a str>,
    pub audit_size: Option<u64>,
    pub log: LogOptions,
}

/// How decisions are logged, and from which level on.
#[derive(Clone, Copy, Drop)]
pub struct LogOptions {
    pub format: Format,
    pub level: LevelFilter,
}

/// What is read of the words alone.
#[derive(Clone, Copy, Drop)]
struct Words<'a> {
    archive: (Option<&'a str>, Option<u64>),
    otp: OtpOptions<'a>,
    faces: Faces<'a>,
    log: LogOptions,
}

/// The peers that the node knows.
#[derive(Drop)]
struct Peers {
    targets: Arc<Targets>,
    allowed: Vec<NodeName>,
    cookies: Vec<(NodeName, Cookie)>,
}

/// What the program runs with. Files with cookies are read.
pub fn read_options<'a, R: Files>(
    rt: &R,
    alloc: Global,
    words: &mut impl Rng,
    matches: &ArgMatches<'a>,
) -> Result<Options<'a>, Fault> {
    let opening = opening(rt, alloc, words, matches)?;
    let listen = place("--listen", matches.get_str("listen"))?;
    let peers = read_peers(rt, alloc, matches)?;
    let words = read_words(matches)?;
    let Peers {
        targets,
        allowed,
        cookies,
    } = peers;
    Ok(Options {
        opening,
        listen,
        otp: words.otp,
        targets,
        limits: limits(matches),
        allowed,
        cookies,
        faces: words.faces,
        clients: number(matches, "clients", CLIENTS),
        entries: number(matches, "entries", ENTRIES),
        audit: words.archive.0,
        audit_size: words.archive.1,
        log: words.log,
    })
}

fn opening<R: Files>(
    rt: &R,
    alloc: Global,
    words: &mut impl Rng,
    matches: &ArgMatches<'_>,
) -> Result<Opening, Fault> {
    let name = name(alloc, "NAME", matches.get_str("NAME").unwrap_or(""))?;
    let cookie = own_cookie(rt, alloc, matches)?;
    Ok(Opening {
        name,
        cookie,
        hidden: matches.get_flag("hidden"),
        creation: creation(words, matches),
        entries: last_entry(matches),
        links: matches.get_one::<u8>("links").unwrap_or(LINKS),
    })
}

fn creation(words: &mut impl Rng, matches: &ArgMatches<'_>) -> u32 {
    match matches.get_one::<u32>("creation") {
        Some(creation) => creation,
        None => words.next_u32().max(1),
    }
}

fn last_entry(matches: &ArgMatches<'_>) -> u32 {
    match matches.get_one::<u32>("last-entry") {
        Some(number) => number.max(FEWEST),
        None => u32::MAX,
    }
}

fn read_peers<R: Files>(rt: &R, alloc: Global, matches: &ArgMatches<'_>) -> Result<Peers, Fault> {
    let mut peers = Peers {
        targets: targets(alloc, matches)?,
        allowed: Vec::new(alloc),
        cookies: Vec::new(alloc),
    };
    add_peers(rt, alloc, matches, &mut peers)?;
    Ok(peers)
}

fn add_peers<R: Files>(
    rt: &R,
    alloc: Global,
    matches: &ArgMatches<'_>,
    peers: &mut Peers,
) -> Result<(), Fault> {
    for word in matches.get_strs("allow").unwrap_or(&[]) {
        let name = name(alloc, "--allow", word)?;
        allow(&mut peers.allowed, name, word)?;
    }
    add_cookies(rt, alloc, matches, &mut peers.cookies)
}

/// Adds the name that was read of this word, unless it is among those before it.
fn allow(allowed: &mut Vec<NodeName>, name: NodeName, word: &str) -> Result<(), Fault> {
    if allowed.as_slice().contains(&name) {
        return Ok(());
    }
    if allowed.len() >= MOST_NAMES {
        return Err(refused("--allow", "more than 1024 names", word));
    }
    allowed.push(name)?;
    Ok(())
}

fn targets(alloc: Global, matches: &ArgMatches<'_>) -> Result<Arc<Targets>, Fault> {
    let mut targets = Vec::new(alloc);
    add_targets(alloc, matches, &mut targets)?;
    match Targets::of(alloc, targets) {
        Ok(targets) => Ok(Arc::new(alloc, targets)?),
        Err(_) => Err(Fault::of_memory()),
    }
}

/// Adds the nodes to dial, those of this program first.
fn add_targets(
    alloc: Global,
    matches: &ArgMatches<'_>,
    targets: &mut Vec<Target>,
) -> Result<(), Fault> {
    let own = matches.get_str("NAME");
    for word in matches.get_strs("dial").unwrap_or(&[]) {
        let target = target("--dial", own, word, Target::parse(alloc, word))?;
        add_target(targets, "--dial", word, target)?;
    }
    add_stock(alloc, matches, targets)
}

fn read_words<'a>(matches: &ArgMatches<'a>) -> Result<Words<'a>, Fault> {
    Ok(Words {
        archive: archive(matches)?,
        otp: read_otp(matches)?,
        faces: read_faces(matches)?,
        log: log_options(matches)?,
    })
}

/// The path of the archive, and the most bytes of a file of it.
fn archive<'a>(matches: &ArgMatches<'a>) -> Result<(Option<&'a str>, Option<u64>), Fault> {
    let path = matches.get_str("audit");
    let size = matches.get_one::<u64>("audit-size");
    if path.is_none() && size.is_some() {
        return Err(alone("audit-size", "audit"));
    }
    Ok((path, size))
}

fn log_options(matches: &ArgMatches<'_>) -> Result<LogOptions, Fault> {
    let format = matches.get_str("log").unwrap_or(FORMAT);
    let level = matches.get_str("log-level").unwrap_or(LEVEL);
    match (format.parse(), level_of(level)) {
        (Ok(format), Some(level)) => Ok(LogOptions { format, level }),
        (Err(_), _) => Err(refused("--log", "not text, json or none", format)),
        (Ok(_), None) => Err(refused("--log-level", "not error, warn or info", level)),
    }
}

fn level_of(word: &str) -> Option<LevelFilter> {
    match word {
        "error" => Some(LevelFilter::Error),
        "warn" => Some(LevelFilter::Warn),
        "info" => Some(LevelFilter::Info),
        _ => None,
    }
}

fn limits(matches: &ArgMatches<'_>) -> Limits {
    Limits {
        setup: millis(matches, "setuptime", SETUP),
        tick: millis(matches, "ticktime", TICK),
    }
}

fn millis(matches: &ArgMatches<'_>, option: &str, usual: u32) -> Duration {
    Duration::from_millis(u64::from(number(matches, option, usual)))
}

fn number(matches: &ArgMatches<'_>, option: &str, usual: u32) -> u32 {
    matches.get_one::<u32>(option).unwrap_or(usual)
}
