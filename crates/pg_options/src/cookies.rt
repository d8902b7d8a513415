//! The secrets that the node shares with its peers.
use crate::fault::{Fault, misused, refused, unread};
use crate::words::name;
use anyhow::anyhow;
use clap::ArgMatches;
use dist_types::{Cookie, NodeName};
use named_files::read_cookie;
use std::alloc::Global;
use std::fs::Files;

/// The most peers with a cookie of their own.
const MOST_PEERS: usize = 1_024;

pub fn own_cookie<R: Files>(
    rt: &R,
    alloc: Global,
    matches: &ArgMatches<'_>,
) -> Result<Cookie, Fault> {
    match (matches.get_str("cookie-file"), matches.get_str("cookie")) {
        (Some(path), None) => filed_cookie(rt, alloc, "--cookie-file", path),
        (None, Some(text)) => shown_cookie(alloc, text),
        (Some(_), Some(_)) => Err(misused(anyhow!(
            "--cookie-file and --cookie: only one may be given"
        ))),
        (None, None) => Err(misused(anyhow!("--cookie-file or --cookie is missing"))),
    }
}

/// The cookie that stands on the command line. A fault doesn't repeat it.
fn shown_cookie(alloc: Global, text: &str) -> Result<Cookie, Fault> {
    match Cookie::parse(alloc, text.as_bytes()) {
        Ok(cookie) => Ok(cookie),
        Err(fault) => Err(misused(anyhow!("--cookie: {fault}"))),
    }
}

/// The cookie in a file. A fault names the option.
fn filed_cookie<R: Files>(
    rt: &R,
    alloc: Global,
    option: &str,
    path: &str,
) -> Result<Cookie, Fault> {
    match read_cookie(rt, alloc, path) {
        Ok(cookie) => Ok(cookie),
        Err(fault) => Err(unread(option, path, fault)),
    }
}

/// Adds the cookies for single peers. Of a peer that is given several the last one holds.
pub fn add_cookies<R: Files>(
    rt: &R,
    alloc: Global,
    matches: &ArgMatches<'_>,
    cookies: &mut Vec<(NodeName, Cookie)>,
) -> Result<(), Fault> {
    let own = matches.get_str("NAME");
    for word in matches.get_strs("cookie-for").unwrap_or(&[]) {
        let (peer, cookie) = cookie_for(rt, alloc, word)?;
        cookies.retain(|(other, _)| *other != peer);
        cookies.push((peer, cookie))?;
        if peers_among(own, cookies.as_slice()) > MOST_PEERS {
            return Err(refused("--cookie-for", "more than 1024 peers", word));
        }
    }
    Ok(())
}

/// How many of the cookies are for others than the node itself.
fn peers_among(own: Option<&str>, cookies: &[(NodeName, Cookie)]) -> usize {
    cookies
        .iter()
        .filter(|given| own != Some(given.0.as_str()))
        .count()
}

fn cookie_for<R: Files>(rt: &R, alloc: Global, word: &str) -> Result<(NodeName, Cookie), Fault> {
    let Some((peer, path)) = word.split_once('=') else {
        // The word may be the secret.
        return Err(misused(anyhow!("--cookie-for: no NAME=FILE")));
    };
    let peer = name(alloc, "--cookie-for", peer)?;
    let cookie = filed_cookie(rt, alloc, "--cookie-for", path)?;
    Ok((peer, cookie))
}
