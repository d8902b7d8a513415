//! What the process of the peer's scope is told, as bodies.
ghost use Rattle.std.specs.Prelude.{◌≡◌, ◌++◌, ◌<◌, ◌^◌, ◌∷◌, [], All, IfOk, OnOk, length};
ghost use Rattle.otp_edge.specs.Endings.{sought_bytes};
ghost use Rattle.otp_edge.specs.PgMessages.{discover};
ghost use Rattle.otp_edge.specs.Sayings.{sent_front, told_bytes, syncs, joins, leaves};
ghost use Rattle.otp_edge.specs.Telling.{HasFew};

use crate::body::Control;
use crate::own_terms::{NO_COOKIE, before_message, member_term, put_whole};
use crate::spelling::{put_discover, put_join, put_leave, put_sync};
use crate::telling::Told;
use dist_types::{OutOfMemory, Pid, Scope};
use external_terms::put_atom;
use std::alloc::Global;

/// SEND: a message to a process.
const SEND: u8 = 2;
/// REG_SEND: a message to a name.
const REG_SEND: u8 = 6;

/// The process of a scope here, and that of the peer's.
#[derive(Clone, Copy, Debug)]
pub struct Ends<'a> {
    pub own: &'a Pid,
    pub other: &'a Pid,
}

/// Appends the body by which a process is asked for its rows.
pub fn put_asked(alloc: Global, ends: Ends<'_>, out: &mut Vec<u8>) -> Result<(), OutOfMemory>
    ensures { OnOk result (out.new.items ≡ out.old.items ++ told_bytes ends.entry.other.now
        (discover ends.entry.own.now ∷ [])) }
{
    let mut body = begun(alloc, ends.other)?;
    put_discover(ends.own, &mut body)?;
    put_whole(&body, out)
}

/// Appends the body by which a name is asked: the process behind it isn't known.
pub fn put_sought(
    alloc: Global,
    own: &Pid,
    scope: &Scope,
    out: &mut Vec<u8>,
) -> Result<(), OutOfMemory>
    ensures { OnOk result (out.new.items ≡ out.old.items ++ sought_bytes own.now scope.now) }
{
    let mut name = Vec::new(alloc);
    put_atom(scope.as_bytes(), &mut name)?;
    let from = member_term(alloc, own)?;
    let control = Control {
        arity: 4,
        operation: REG_SEND,
        first: &from,
        second: &NO_COOKIE,
        rest: &name,
    };
    let mut body = before_message(alloc, &control)?;
    put_discover(own, &mut body)?;
    put_whole(&body, out)
}

/// The body by which a process is told all rows.
pub fn sync_body(alloc: Global, ends: Ends<'_>, told: &[Told<'_>]) -> Result<Vec<u8>, OutOfMemory>
    requires few { length told.now < 2 ^ 32 }
    requires each { All HasFew told.now }
    ensures { IfOk result (λ out. out.items ≡ told_bytes ends.entry.other.now
        (syncs ends.entry.own.now told.now)) }
{
    let mut body = begun(alloc, ends.other)?;
    put_sync(ends.own, told, &mut body)?;
    let mut out = Vec::new(alloc);
    put_whole(&body, &mut out)?;
    Ok(out)
}

/// The bodies by which a process is told further rows: one for each group.
pub fn join_bodies(alloc: Global, ends: Ends<'_>, told: &[Told<'_>]) -> Result<Vec<u8>, OutOfMemory>
    requires { All HasFew told.now }
    ensures { IfOk result (λ out. out.items ≡ told_bytes ends.entry.other.now
        (joins ends.entry.own.now told.now)) }
{
    let mut out = Vec::new(alloc);
    for one in told {
        let mut body = begun(alloc, ends.other)?;
        put_join(ends.own, one, &mut body)?;
        put_whole(&body, &mut out)?;
    }
    Ok(out)
}

/// The bodies by which a process is told that rows left: one for each group.
pub fn leave_bodies(
    alloc: Global,
    ends: Ends<'_>,
    told: &[Told<'_>],
) -> Result<Vec<u8>, OutOfMemory>
    requires { All HasFew told.now }
    ensures { IfOk result (λ out. out.items ≡ told_bytes ends.entry.other.now
        (leaves ends.entry.own.now told.now)) }
{
    let mut out = Vec::new(alloc);
    for one in told {
        let mut body = begun(alloc, ends.other)?;
        put_leave(ends.own, one, &mut body)?;
        put_whole(&body, &mut out)?;
    }
    Ok(out)
}

/// The beginning of a body whose message goes to a process.
fn begun(alloc: Global, to: &Pid) -> Result<Vec<u8>, OutOfMemory>
    ensures { IfOk result (λ body. body.items ≡ sent_front to.now) }
{
    let second = member_term(alloc, to)?;
    let control = Control {
        arity: 3,
        operation: SEND,
        first: &NO_COOKIE,
        second: &second,
        rest: &[],
    };
    before_message(alloc, &control)
}
