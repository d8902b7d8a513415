//! Cookies, allowed names and processes.
ghost use Rattle.std.specs.Prelude.{◌≡◌, ◌≤◌, length, IfErr, OnOk, OnErr};
ghost use Rattle.admission_rules.specs.Admission.{max_peers, with_cookie_for};
ghost use Rattle.node_core.specs.AdmissionFacts.{IsCookieRefusal};
ghost use Rattle.policy_audit.specs.declared.event.Event.TheVariants as events;
ghost use Rattle.node_core.specs.Step.{Call, IsCalled, Answers};

use crate::entering::Answered;
use crate::fault::CoreFault;
use crate::kept::Kept;
use admission_rules::{Admission, AllowFault, CookieFault};
use dist_types::{Cookie, NodeName, Pid, TryClone};
use policy_audit::{NodeNames, Reply, Rule};
use std::alloc::Global;

impl Kept {
    /// Sets the cookie of the node.
    #[tactic(auto, unfolding(crate::specs::Step::Answers))]
    pub fn set_cookie(&mut self, cookie: &Cookie) -> Result<Answered, CoreFault>
        ghost call: { Call }
        requires { IsCalled call self.old }
        ensures { Answers call (events.SetCookie cookie.now) self.new result }
    {
        let kept = cookie.try_clone(self.alloc)?;
        self.admission.set_cookie(kept);
        Ok(Answered::done(self.alloc))
    }

    /// Sets the cookie for one peer.
    #[tactic(auto, unfolding(crate::specs::Step::Answers))]
    pub fn set_cookie_for(
        &mut self,
        peer: &NodeName,
        cookie: &Cookie,
    ) -> Result<Answered, CoreFault>
        ghost call: { Call }
        requires { IsCalled call self.old }
        ensures { Answers call (events.SetCookieFor peer.now cookie.now) self.new result }
    {
        give_cookie(self.alloc, &mut self.admission, peer, cookie)?;
        Ok(Answered::done(self.alloc))
    }

    /// Allows names beside those allowed already.
    #[tactic(auto, unfolding(crate::specs::Step::Answers))]
    pub fn allow(&mut self, names: &NodeNames) -> Result<Answered, CoreFault>
        ghost call: { Call }
        requires { IsCalled call self.old }
        ensures { Answers call (events.Allow names.now) self.new result }
    {
        match self.admission.allow(names.as_slice()) {
            Ok(()) => Ok(Answered::done(self.alloc)),
            Err(AllowFault::AllowFull) => Err(CoreFault::Refused(Rule::AllowFull)),
            Err(AllowFault::OutOfMemory) => Err(CoreFault::OutOfMemory),
        }
    }

    /// A new process.
    #[tactic(auto, unfolding(crate::specs::Step::Answers))]
    pub fn spawn(&mut self) -> Result<Answered, CoreFault>
        ghost call: { Call }
        requires { IsCalled call self.old }
        ensures { Answers call events.Spawn self.new result }
    {
        if self.processes.is_full() {
            return Err(CoreFault::Refused(Rule::PidsFull));
        }
        let pid = Pid {
            node: self.opening.name.try_clone(self.alloc)?,
            creation: self.admission.creation(),
            number: self.processes.spawned() + 1,
        };
        let answered = Answered::with(self.alloc, Reply::Pid(pid))?;
        self.processes.spawn()?;
        Ok(answered)
    }
}

/// Sets the cookie for one peer. Where it isn't set, the cookies are as before.
fn give_cookie(
    alloc: Global,
    admission: &mut Admission,
    peer: &NodeName,
    cookie: &Cookie,
) -> Result<(), CoreFault>
    ensures ok { OnOk result (admission.new ≡ with_cookie_for admission.old peer.now cookie.now) }
    ensures limits { OnOk result (length admission.new.peers ≤ max_peers) }
    ensures refused { IfErr result (IsCookieRefusal admission.old
        (with_cookie_for admission.old peer.now cookie.now)) }
    ensures same { OnErr result (admission.new ≡ admission.old) }
{
    let name = peer.try_clone(alloc)?;
    let kept = cookie.try_clone(alloc)?;
    match admission.set_cookie_for(name, kept) {
        Ok(()) => Ok(()),
        Err(CookieFault::CookiesFull) => Err(CoreFault::Refused(Rule::CookiesFull)),
        Err(CookieFault::OutOfMemory) => Err(CoreFault::OutOfMemory),
    }
}
