//! What a word at an option names.
use crate::fault::{Fault, refused};
use dial_targets::{Target, TargetFault, is_place};
use dist_types::NodeName;
use std::alloc::Global;

/// The name of a node that stands at this option.
pub fn name(alloc: Global, option: &str, word: &str) -> Result<NodeName, Fault> {
    match NodeName::parse(alloc, word.as_bytes()) {
        Ok(name) => Ok(name),
        Err(fault) => Err(refused(option, fault, word)),
    }
}

/// HOST:PORT, where it is given.
pub fn place<'a>(option: &str, word: Option<&'a str>) -> Result<Option<&'a str>, Fault> {
    match word {
        Some(word) if !is_place(word) => Err(refused(option, "no HOST:PORT", word)),
        word => Ok(word),
    }
}

/// The peer to dial that was read of this word, which is another one than the node.
pub fn target(
    option: &str,
    own: Option<&str>,
    word: &str,
    parsed: Result<Target, TargetFault>,
) -> Result<Target, Fault> {
    match parsed {
        Ok(target) if own == Some(target.peer().as_str()) => {
            Err(refused(option, "the node's own name", word))
        }
        Ok(target) => Ok(target),
        Err(TargetFault::OutOfMemory) => Err(Fault::of_memory()),
        Err(fault) => Err(refused(option, fault, word)),
    }
}

/// Adds a peer to dial that was read of this word, which is none of those before it.
pub fn add_target(
    targets: &mut Vec<Target>,
    option: &str,
    word: &str,
    target: Target,
) -> Result<(), Fault> {
    if is_among(targets, &target) {
        return Err(refused(option, "this peer is given twice", word));
    }
    targets.push(target)?;
    Ok(())
}

/// Whether one of them is of the same peer.
fn is_among(targets: &[Target], target: &Target) -> bool {
    let peer = target.peer().as_bytes();
    targets.iter().any(|other| other.peer().as_bytes() == peer)
}
