//! What a connection is told unasked.
ghost use Rattle.std.specs.Prelude.{◌≡◌, IfOk, None, OnErr, OnOk, map};
ghost use Rattle.pg_session.specs.Asked.{is_fetch};
ghost use Rattle.pg_session.specs.Calls.{GoesOnBy};
ghost use Rattle.pg_session.specs.Looking.{AreTold, HasLooked, IsBroken};
ghost use Rattle.pg_session.specs.Notices.{Tells, TellsNews};
ghost use Rattle.pg_session.specs.Watching.{as_begun};

use crate::news::{LostLinks, Seen};
use crate::session::Session;
use crate::stops::put_stops;
use crate::watch::{note_ages, tell_all};
use crate::watched::{Watched, note_news, tell_noted};
use dist_types::OutOfMemory;
use node_threads::Node;
use std::sync::Wait;

impl Session {
    /// Adds what has happened since the last time, as lines that come unasked. Monitors that
    /// weren't asked since there were so many entries are asked, too: the node keeps what they
    /// need.
    pub fn tell<R: Wait, E: LostLinks>(
        &mut self,
        rt: &R,
        node: &Node,
        lost: &E,
        stale: usize,
        out: &mut Vec<u8>,
    ) -> Result<Seen, OutOfMemory>
        ensures told { OnOk result (Tells self.old.pass self.old.known out.old.items self.new.pass
            self.new.known out.new.items) }
        ensures done { OnOk result (self.new.known.anew ≡ None) }
        ensures asks { GoesOnBy is_fetch self.old.pass self.new.pass }
        ensures own { self.new.own ≡ self.old.own }
        ensures taken { self.new.taken ≡ self.old.taken }
        ensures monitors { OnOk result (AreTold stale self.old self.new) }
        ensures seen { IfOk result (λ seen. seen ≡ self.new.seen) }
        ensures memory { OnErr result (IsBroken self.old self.new) }
    {
        self.news.put_restart(out)?;
        self.look(rt, node, lost, out)?;
        note_ages(&mut self.watches, stale);
        tell_all(
            &mut self.watches,
            &mut self.caller,
            rt,
            node,
            self.seen.entries(),
            out,
        )?;
        Ok(self.seen)
    }

    /// Adds which peers came and went and which scopes stopped, and notes which monitors have
    /// something to tell.
    fn look<R: Wait, E: LostLinks>(
        &mut self,
        rt: &R,
        node: &Node,
        lost: &E,
        out: &mut Vec<u8>,
    ) -> Result<(), OutOfMemory>
        ensures rest { self.new ≡ record self.old {
          known = self.new.known;
          watches = self.new.watches;
          seen = self.new.seen;
        } }
        ensures told { OnOk result (TellsNews self.old.known out.old.items self.new.known
            out.new.items) }
        ensures looked { OnOk result (HasLooked self.old self.new) }
        ensures monitors { map as_begun self.new.watches ≡ map as_begun self.old.watches }
        ensures memory { OnErr result (self.new.seen ≡ self.old.seen) }
    {
        let alloc = *out.allocator();
        let mut watched = Watched::of_many(rt, alloc, node, &self.watches, self.seen);
        let shared = node.shared.lock(rt);
        let core = shared.core();
        note_news(&mut watched, &mut self.watches, self.seen.unseen(core));
        put_stops(&self.processes, self.seen.unseen(core), out)?;
        let told = self
            .news
            .put_peers(alloc, core, self.seen.unseen(core), lost, out);
        let seen = Seen::of(core);
        drop(shared);
        tell_noted(watched, &mut self.watches);
        told?;
        self.seen = seen;
        Ok(())
    }
}
