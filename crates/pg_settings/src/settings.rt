//! The calls that say what holds: cookies, allowed names and scopes.
ghost use Rattle.std.specs.Prelude.{◌≡◌, ◌++◌, true, IfOk, OnOk};
ghost use Rattle.std.specs.List.{list_all};
ghost use Rattle.policy_audit.specs.Admission.{own_cookie};
ghost use Rattle.policy_audit.specs.Own.{running_scopes};
ghost use Rattle.pg_settings.specs.Settings.{Renews, TellsAll, is_setting};
ghost use Rattle.pg_settings.specs.Settings.{cookies_told, names_told, own_told, scopes_told};

use admission_rules::Admission;
use dist_types::{Cookie, Items, NodeName, OutOfMemory, TryClone};
use node_core::NodeCore;
use policy_audit::Event;
use std::alloc::Global;

/// What the command line says beside the opening: the names that may connect, where some are named,
/// and a cookie for each of these peers.
pub fn given(
    alloc: Global,
    allowed: Vec<NodeName>,
    cookies: Vec<(NodeName, Cookie)>,
) -> Result<Vec<Event>, OutOfMemory>
    ensures { IfOk result (λ told.
        told.items ≡ names_told allowed.items ++ cookies_told cookies.items) }
{
    let mut told = Vec::new(alloc);
    tell_names(allowed, &mut told)?;
    for (peer, cookie) in cookies {
        told.push(Event::SetCookieFor(peer, cookie))?;
    }
    Ok(told)
}

/// What a life that has begun with this cookie was told since, and the scopes that run. Told just
/// that, the next life that begins with the cookie has the same cookie for each name, allows the
/// same names, and runs the same scopes.
pub fn held(alloc: Global, core: &NodeCore, begun: &Cookie) -> Result<Vec<Event>, OutOfMemory>
    // Each is told once, and a cookie only for who has one of its own.
    ensures exact { IfOk result (λ told. TellsAll begun.now core.now.history told.items) }
    ensures renews { IfOk result (λ told. Renews begun.now core.now.history told.items) }
    // None of them is a restart.
    ensures only { IfOk result (λ told. list_all is_setting told.items ≡ true) }
{
    let mut told = Vec::new(alloc);
    let admission = core.admission();
    tell_own_cookie(alloc, core, begun, &mut told)?;
    tell_cookies(alloc, admission, &mut told)?;
    tell_names(names_of(alloc, admission)?, &mut told)?;
    tell_scopes(alloc, core, &mut told)?;
    Ok(told)
}

/// Tells the node's own cookie, where it isn't that with which the life has begun.
fn tell_own_cookie(
    alloc: Global,
    core: &NodeCore,
    begun: &Cookie,
    told: &mut Vec<Event>,
) -> Result<(), OutOfMemory>
    ensures { OnOk result (told.new.items
        ≡ told.old.items ++ own_told begun.now (own_cookie core.now.history)) }
{
    // No peer has the node's own name, for which the cookie is its own.
    let own = core.admission().cookie_for(core.name());
    if own != begun {
        told.push(Event::SetCookie(own.try_clone(alloc)?))?;
    }
    Ok(())
}

/// Tells the cookies of peers that have one of their own.
fn tell_cookies(
    alloc: Global,
    admission: &Admission,
    told: &mut Vec<Event>,
) -> Result<(), OutOfMemory>
    ensures { OnOk result (told.new.items
        ≡ told.old.items ++ cookies_told admission.now.peers) }
{
    for index in 0..usize::MAX {
        let Some((peer, cookie)) = admission.peer(index) else {
            return Ok(());
        };
        let event = Event::SetCookieFor(peer.try_clone(alloc)?, cookie.try_clone(alloc)?);
        told.push(event)?;
    }
    Err(OutOfMemory)
}

/// Tells which names may connect, where some are named.
fn tell_names(names: Vec<NodeName>, told: &mut Vec<Event>) -> Result<(), OutOfMemory>
    ensures { OnOk result (told.new.items ≡ told.old.items ++ names_told names.items) }
{
    if !names.is_empty() {
        told.push(Event::Allow(Items::of(names)))?;
    }
    Ok(())
}

/// The names that may connect; all may, where there are none.
fn names_of(alloc: Global, admission: &Admission) -> Result<Vec<NodeName>, OutOfMemory>
    ensures { IfOk result (λ names. names.items ≡ admission.now.allowed) }
{
    let mut names = Vec::new(alloc);
    for index in 0..usize::MAX {
        let Some(name) = admission.allowed(index) else {
            return Ok(names);
        };
        names.push(name.try_clone(alloc)?)?;
    }
    Err(OutOfMemory)
}

/// Tells the scopes that run.
fn tell_scopes(alloc: Global, core: &NodeCore, told: &mut Vec<Event>) -> Result<(), OutOfMemory>
    ensures { OnOk result (told.new.items
        ≡ told.old.items ++ scopes_told (running_scopes core.now.history)) }
{
    for index in 0..usize::MAX {
        let Some(scope) = core.scope(index) else {
            return Ok(());
        };
        told.push(Event::StartScope(scope.try_clone(alloc)?))?;
    }
    Err(OutOfMemory)
}
