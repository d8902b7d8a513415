//! What is handed in of what the peer says of a scope that runs here.
ghost use Rattle.std.specs.Prelude.{◌≡◌, [], cond, IfOk};
ghost use Rattle.otp_edge.specs.Controls.{monitor_bytes};
ghost use Rattle.otp_edge.specs.Endings.{watch_bytes};
ghost use Rattle.otp_edge.specs.HeardWords.{heard_said, seen_said};
ghost use Rattle.otp_edge.specs.Meaning.{speaker_of};
ghost use Rattle.otp_edge.specs.Opens.{ComesOf};
ghost use Rattle.otp_edge.specs.ScopeEdges.{is_known, seen_of};

use crate::heard::{Heard, heard_of};
use crate::meaning::{Said, speaker};
use crate::open_scope::OpenScope;
use crate::own_terms::reference_term;
use crate::scope_edge::Run;
use crate::told_control::put_watch;
use dist_types::{OutOfMemory, Scope, TryClone};
use std::alloc::Global;

/// What needs memory of what is handed in: the name of the scope twice, and the body by which a
/// new process is watched.
#[derive(Debug, Drop)]
pub struct Ready {
    pub scope: Scope,
    pub copy: Scope,
    pub watch: Vec<u8>,
}

impl OpenScope {
    /// Makes ready to hear.
    pub fn ready(
        &self,
        alloc: Global,
        run: &Run,
        reference: u32,
        said: &Said,
    ) -> Result<Ready, OutOfMemory>
        ensures scope { IfOk result (λ ready. ready.scope ≡ self.now.scope) }
        ensures copy { IfOk result (λ ready. ready.copy ≡ self.now.scope) }
        ensures watch { IfOk result (λ ready. ready.watch.items ≡ cond
            (is_known (speaker_of said.now) self.now.seen.other) [] (monitor_bytes self.now.own
            (speaker_of said.now) (watch_bytes run.now reference))) }
    {
        let scope = self.scope.try_clone(alloc)?;
        let copy = self.scope.try_clone(alloc)?;
        let mut watch = Vec::new(alloc);
        if !self.seen.is_known(speaker(said)) {
            let reference = reference_term(alloc, run, reference)?;
            put_watch(alloc, &self.own, speaker(said), &reference, &mut watch)?;
        }
        Ok(Ready { scope, copy, watch })
    }

    /// What comes of what a process of the peer says to that of the scope. A new process is
    /// watched by that reference.
    pub fn hear(&mut self, ready: Ready, peer: &Run, reference: u32, said: Said) -> Heard
        requires scope { ready.scope ≡ self.old.scope }
        requires copy { ready.copy ≡ self.old.scope }
        ensures heard { ComesOf self.old.scope (heard_said peer.now said (seen_of self.old.seen))
            result }
        ensures owed { result.owed.items ≡ cond (heard_said peer.now said
            (seen_of self.old.seen)).is_new ready.watch.items [] }
        ensures reference { self.new.reference ≡ cond (heard_said peer.now said
            (seen_of self.old.seen)).is_new reference self.old.reference }
        ensures seen { seen_of self.new.seen ≡ seen_said peer.now said (seen_of self.old.seen) }
        ensures scope { self.new.scope ≡ self.old.scope }
        ensures own { self.new.own ≡ self.old.own }
        ensures watchers { self.new.watchers ≡ self.old.watchers }
    {
        let Ready {
            scope,
            copy,
            mut watch,
        } = ready;
        let heard = self.seen.hear_said(peer, said);
        if heard.is_new {
            self.reference = reference;
        } else {
            watch.clear();
        }
        heard_of(scope, copy, heard, watch)
    }
}
