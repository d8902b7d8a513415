//! How stock nodes of Erlang/OTP are linked.
use crate::fault::{Fault, misused};
use crate::usual::EPMD;
use crate::words::{add_target, place, target};
use anyhow::anyhow;
use clap::ArgMatches;
use dial_targets::{EpmdUse, PeerKind, Target};
use std::alloc::Global;

/// How stock nodes of Erlang/OTP are linked.
#[derive(Clone, Copy, Drop)]
pub struct OtpOptions<'a> {
    /// HOST:PORT where they connect.
    pub listen: Option<&'a str>,
    /// Whether this node is among their nodes.
    pub kind: PeerKind,
    /// The port of EPMD on this machine, where the node is to be registered.
    pub epmd: Option<u16>,
}

/// How stock nodes are linked, as the command line says.
pub fn read_otp<'a>(matches: &ArgMatches<'a>) -> Result<OtpOptions<'a>, Fault> {
    let listen = place("--otp-listen", matches.get_str("otp-listen"))?;
    let epmd = matches.get_one::<u16>("epmd");
    let is_linked = listen.is_some() || matches.get_strs("otp-dial").is_some();
    if let Some(option) = idle(matches, epmd)
        && !is_linked
    {
        return Err(misused(anyhow!("--{option}: there is no --otp-listen and no --otp-dial")));
    }
    Ok(OtpOptions {
        listen,
        kind: kind(matches),
        epmd,
    })
}

/// An option that says more of links with stock nodes, if one is given.
fn idle(matches: &ArgMatches<'_>, epmd: Option<u16>) -> Option<&'static str> {
    if matches.get_flag("otp-visible") {
        Some("otp-visible")
    } else if epmd.is_some() {
        Some("epmd")
    } else {
        None
    }
}

fn kind(matches: &ArgMatches<'_>) -> PeerKind {
    if matches.get_flag("otp-visible") {
        PeerKind::Visible
    } else {
        PeerKind::Hidden
    }
}

/// Adds the stock nodes to dial.
pub fn add_stock(
    alloc: Global,
    matches: &ArgMatches<'_>,
    targets: &mut Vec<Target>,
) -> Result<(), Fault> {
    let epmd = EpmdUse {
        kind: kind(matches),
        port: matches.get_one::<u16>("epmd").unwrap_or(EPMD),
    };
    let own = matches.get_str("NAME");
    for word in matches.get_strs("otp-dial").unwrap_or(&[]) {
        let parsed = Target::parse_otp(alloc, word, epmd);
        let target = target("--otp-dial", own, word, parsed)?;
        add_target(targets, "--otp-dial", word, target)?;
    }
    Ok(())
}
