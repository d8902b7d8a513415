//! What may happen to a node.
ghost use Rattle.std.specs.Prelude.{◌≡◌, IfOk};

use dist_types::{Body, Cookie, Group, Items, NodeName, OutOfMemory, Pid, Pids, Scope, TryClone};
use std::alloc::Global;

/// Names of nodes, in any order.
pub type NodeNames = Items<NodeName>;

/// A call of the node, or what comes of a link. A link is named by the number of the entry that
/// opened it.
#[derive(Debug, Drop, PartialEq, Eq)]
pub enum Event {
    /// The node begins anew, with the next creation.
    Restart,
    /// The cookie of the node, and for each peer without a cookie of its own
    /// (`erlang:set_cookie/1`).
    SetCookie(Cookie),
    /// The cookie for one peer; for the own name, as `SetCookie` (`erlang:set_cookie/2`).
    SetCookieFor(NodeName, Cookie),
    /// Names that may connect from now on (`net_kernel:allow/1`).
    Allow(NodeNames),
    StartScope(Scope),
    StopScope(Scope),
    /// A new process of the node.
    Spawn,
    /// The end of a process of the node.
    Exit(Pid),
    /// Processes of the node join a group, each once per mention (`pg:join/3`).
    Join(Scope, Group, Pids),
    /// Processes of the node leave a group, each once per mention (`pg:leave/3`).
    Leave(Scope, Group, Pids),
    Members(Scope, Group),
    LocalMembers(Scope, Group),
    Groups(Scope),
    LocalGroups(Scope),
    /// The seat watches a group from now on (`pg:monitor/2`).
    Monitor(Scope, Group),
    /// The seat watches all groups of a scope from now on (`pg:monitor_scope/1`).
    MonitorScope(Scope),
    /// The end of a monitor, by the number of its entry (`pg:demonitor/2`).
    Demonitor(u32),
    /// What a monitor, by the number of its entry, has not told yet.
    Updates(u32),
    /// A new link to a peer, with the challenge that it has to answer.
    Dial(NodeName, u32),
    /// A new link from a peer, with the challenge that it has to answer.
    Opened(u32),
    /// The link is gone.
    Lost(u32),
    /// The frames that wait for the link.
    Take(u32),
    /// The end of the link to a peer.
    Disconnect(NodeName),
    /// A frame that came on the link.
    Frame(u32, Body),
}

impl TryClone for Event {
    fn try_clone(&self, a: Global) -> Result<Event, OutOfMemory> {
        Ok(match self {
            Self::Restart => Self::Restart,
            Self::SetCookie(cookie) => Self::SetCookie(cookie.try_clone(a)?),
            Self::SetCookieFor(name, cookie) => {
                let (name, cookie) = both(a, name, cookie)?;
                Self::SetCookieFor(name, cookie)
            }
            Self::Allow(names) => Self::Allow(names.try_clone(a)?),
            Self::StartScope(scope) => Self::StartScope(scope.try_clone(a)?),
            Self::StopScope(scope) => Self::StopScope(scope.try_clone(a)?),
            Self::Spawn => Self::Spawn,
            Self::Exit(pid) => Self::Exit(pid.try_clone(a)?),
            Self::Join(scope, group, pids) => {
                let (scope, group, pids) = all_three(a, scope, group, pids)?;
                Self::Join(scope, group, pids)
            }
            Self::Leave(scope, group, pids) => {
                let (scope, group, pids) = all_three(a, scope, group, pids)?;
                Self::Leave(scope, group, pids)
            }
            Self::Members(s, g) => Self::Members(s.try_clone(a)?, g.try_clone(a)?),
            Self::LocalMembers(s, g) => Self::LocalMembers(s.try_clone(a)?, g.try_clone(a)?),
            Self::Groups(scope) => Self::Groups(scope.try_clone(a)?),
            Self::LocalGroups(scope) => Self::LocalGroups(scope.try_clone(a)?),
            Self::Monitor(scope, group) => {
                let (scope, group) = both(a, scope, group)?;
                Self::Monitor(scope, group)
            }
            Self::MonitorScope(scope) => Self::MonitorScope(scope.try_clone(a)?),
            Self::Demonitor(number) => Self::Demonitor(*number),
            Self::Updates(number) => Self::Updates(*number),
            Self::Dial(peer, challenge) => Self::Dial(peer.try_clone(a)?, *challenge),
            Self::Opened(challenge) => Self::Opened(*challenge),
            Self::Lost(link) => Self::Lost(*link),
            Self::Take(link) => Self::Take(*link),
            Self::Disconnect(peer) => Self::Disconnect(peer.try_clone(a)?),
            Self::Frame(link, body) => Self::Frame(*link, body.try_clone(a)?),
        })
    }
}

/// Copies of two values.
fn both<A: TryClone + Drop, B: TryClone + Drop>(
    alloc: Global,
    first: &A,
    second: &B,
) -> Result<(A, B), OutOfMemory>
    ensures { IfOk result (λ copies. (copies.0 ≡ first.now) × (copies.1 ≡ second.now)) }
{
    Ok((first.try_clone(alloc)?, second.try_clone(alloc)?))
}

/// Copies of three values.
fn all_three<A: TryClone + Drop, B: TryClone + Drop, C: TryClone + Drop>(
    alloc: Global,
    first: &A,
    second: &B,
    third: &C,
) -> Result<(A, B, C), OutOfMemory>
    ensures { IfOk result (λ copies. (copies.0 ≡ first.now) × (copies.1 ≡ second.now)
        × (copies.2 ≡ third.now)) }
{
    let (first, second) = both(alloc, first, second)?;
    Ok((first, second, third.try_clone(alloc)?))
}
