//! Bodies that are too long to be kept.
ghost use Rattle.std.specs.Prelude.{◌≡◌, IfSome, false, true};
ghost use Rattle.otp_link.specs.Long.{BeginsWith, GoesPast, IsOtherName, IsOtherTo, IsUnanswered};

use dist_types::after_kind;
use external_terms::atom_at;
use otp_edge::{Control, Edge, control_at, member_at};
use std::alloc::Global;

/// The bytes that a body begins with: it is passed through, and a term.
const PASS_THROUGH: u8 = 112;

const VERSION: u8 = 131;

const SEND: u8 = 2;

const REG_SEND: u8 = 6;

const SEND_SENDER: u8 = 22;

/// The names whose questions are answered.
const KERNEL: &[u8] = b"net_kernel";

const NAME_SERVER: &[u8] = b"global_name_server";

/// Whether a body that begins so goes to no scope here, and to no name that is answered.
pub fn may_skip(edge: &Edge, alloc: Global, begin: &[u8]) -> bool
    ensures { result ≡ true → GoesPast edge.now begin.now }
{
    let Some(control) = control_of(begin) else {
        return false;
    };
    match control.operation {
        SEND | SEND_SENDER => is_other_process(edge, alloc, control.second),
        REG_SEND => is_other_name(edge, control.rest),
        _ => false,
    }
}

fn control_of(begin: &[u8]) -> Option<Control<'_>>
    ensures { IfSome result (λ read. BeginsWith read.operation read.second.now read.rest.now
        begin.now) }
{
    let rest = after_kind(PASS_THROUGH, begin)?;
    control_at(after_kind(VERSION, rest)?)
}

/// Whether a term is a process, and that of no scope here.
fn is_other_process(edge: &Edge, alloc: Global, term: &[u8]) -> bool
    ensures { result ≡ true → IsOtherTo edge.now term.now }
{
    match member_at(alloc, term, None) {
        Ok((pid, _)) => edge.place_of_own(&pid).is_none(),
        Err(_) => false,
    }
}

/// Whether the atom at the front is the name of no scope here, and isn't answered.
fn is_other_name(edge: &Edge, terms: &[u8]) -> bool
    ensures { result ≡ true → IsOtherName edge.now terms.now }
{
    match atom_at(terms) {
        Some((name, _)) => edge.place_of(name).is_none() && !is_answered(name),
        None => false,
    }
}

/// Whether questions to that name are answered.
fn is_answered(name: &[u8]) -> bool
    ensures { result ≡ false → IsUnanswered name.now }
{
    name == KERNEL || name == NAME_SERVER
}
