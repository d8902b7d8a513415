//! Where a node is asked beside its standard input.
use crate::fault::{Fault, alone, misused, refused};
use anyhow::anyhow;
use clap::ArgMatches;
use std::net::SocketAddr;

/// The greatest mode of a file.
const MOST: u32 = 0o777;

/// The mode of the control socket where none is given, and of that for reads.
const OWNERS: u32 = 0o600;

const GROUPS: u32 = 0o660;

/// A Unix socket.
#[derive(Clone, Copy, Drop)]
pub struct SocketFile<'a> {
    pub path: &'a str,
    /// Its mode, as `chmod` takes it.
    pub mode: u32,
}

/// Where a node is asked.
#[derive(Clone, Copy, Drop)]
pub struct Faces<'a> {
    pub control: Option<SocketFile<'a>>,
    /// Where all may be read, and nothing changed.
    pub control_read: Option<SocketFile<'a>>,
    /// ADDR:PORT of the page and the metrics.
    pub http: Option<&'a str>,
}

pub fn read_faces<'a>(matches: &ArgMatches<'a>) -> Result<Faces<'a>, Fault> {
    let control = socket_file(matches, "control", "control-mode", OWNERS)?;
    let control_read = socket_file(matches, "control-read", "control-read-mode", GROUPS)?;
    if let (Some(all), Some(reads)) = (control, control_read)
        && all.path == reads.path
    {
        return Err(misused(anyhow!("--control-read: the path of --control")));
    }
    Ok(Faces {
        control,
        control_read,
        http: http(matches)?,
    })
}

fn socket_file<'a>(
    matches: &ArgMatches<'a>,
    option: &str,
    mode_option: &str,
    usual: u32,
) -> Result<Option<SocketFile<'a>>, Fault> {
    match (matches.get_str(option), matches.get_str(mode_option)) {
        (None, None) => Ok(None),
        (None, Some(_)) => Err(alone(mode_option, option)),
        (Some(path), None) => Ok(Some(SocketFile { path, mode: usual })),
        (Some(path), Some(word)) => {
            let mode = mode_of(mode_option, word)?;
            Ok(Some(SocketFile { path, mode }))
        }
    }
}

fn mode_of(option: &str, word: &str) -> Result<u32, Fault> {
    match u32::from_str_radix(word, 8) {
        Ok(mode) if mode <= MOST => Ok(mode),
        _ => Err(misused(anyhow!("--{option}: no mode, as 0660: {word:.60}"))),
    }
}

/// The address of the page: one of this machine alone, unless it may be any.
fn http<'a>(matches: &ArgMatches<'a>) -> Result<Option<&'a str>, Fault> {
    let is_anywhere = matches.get_flag("http-anywhere");
    let Some(word) = matches.get_str("http") else {
        return if is_anywhere {
            Err(alone("http-anywhere", "http"))
        } else {
            Ok(None)
        };
    };
    let Ok(address) = SocketAddr::parse_ascii(word.as_bytes()) else {
        return Err(refused("--http", "no ADDR:PORT", word));
    };
    if address.ip().is_loopback() || is_anywhere {
        return Ok(Some(word));
    }
    let reason = "others than this machine reach it; --http-anywhere lets them";
    Err(refused("--http", reason, word))
}
