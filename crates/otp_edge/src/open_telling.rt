//! What the peer is told of a scope that runs here.
ghost use Rattle.std.specs.Prelude.{◌≡◌, ◌≤◌, ◌++◌, List, [], None, Some, length, vec_len};
ghost use Rattle.std.specs.Prelude.{IfOk, IfSome, OnOk, OnErr, option_map};
ghost use Rattle.std.specs.List.{flat_map};
ghost use Rattle.dist_types.specs.declared.pid.Pid.{Pid};
ghost use Rattle.dist_types.specs.declared.row.Row.{Row};
ghost use Rattle.otp_edge.specs.Endings.{asking_of, asking_again, ending_of, end_bytes};
ghost use Rattle.otp_edge.specs.Endings.{unwatch_bytes};
ghost use Rattle.otp_edge.specs.Opens.{open_of, with_seen};
ghost use Rattle.otp_edge.specs.Said.{GoesOn, Tells};
ghost use Rattle.otp_edge.specs.Sayings.{AreTold, syncs, joins, AreLeft};
ghost use Rattle.otp_edge.specs.ScopeEdges.{seen_of, with_told, now_told, told_to};

use crate::life::Life;
use crate::open_scope::OpenScope;
use crate::own_terms::{member_term, reference_term};
use crate::row_tally::RowTally;
use crate::scope_edge::Run;
use crate::told_bodies::{Ends, join_bodies, leave_bodies, put_asked, put_sought, sync_body};
use crate::told_control::{put_end, put_unwatch};
use crate::told_groups::{groups_of, rows_told};
use dist_types::{OutOfMemory, Row};
use link_frames::{PartKind, Rows};
use std::alloc::Global;

impl OpenScope {
    /// Appends the body by which the scope is asked for at the peer.
    pub fn ask(&self, alloc: Global, out: &mut Vec<u8>) -> Result<(), OutOfMemory>
        ensures { OnOk result (out.new.items ≡ out.old.items ++ asking_of self.now) }
    {
        match self.ends() {
            Some(ends) => put_asked(alloc, ends, out),
            None => put_sought(alloc, &self.own, &self.scope, out),
        }
    }

    /// The same where all scopes are asked for, or the process of the peer's isn't known.
    pub(crate) fn ask_again(
        &self,
        alloc: Global,
        all: bool,
        out: &mut Vec<u8>,
    ) -> Result<(), OutOfMemory>
        ensures { OnOk result (out.new.items ≡ out.old.items ++ asking_again all self.now) }
    {
        if all || self.seen.other.is_none() {
            return self.ask(alloc, out);
        }
        Ok(())
    }

    /// What the peer is told of rows: all of the scope, further ones, or such as left.
    pub(crate) fn tell(
        &mut self,
        alloc: Global,
        kind: PartKind,
        rows: Rows,
        life: &mut Life,
    ) -> Result<Vec<u8>, OutOfMemory>
        requires { length rows ≤ 65536 }
        ensures told { IfOk result (λ out. Tells life.new.atoms.items kind rows self.old
            self.new out.items) }
        ensures same { OnErr result (open_of self.new ≡ open_of self.old) }
        ensures life { GoesOn life.old life.new }
    {
        match kind {
            PartKind::Sync => self.tell_sync(alloc, rows.into_vec(), life),
            PartKind::Join => self.tell_join(alloc, rows.into_vec(), life),
            PartKind::Leave => self.tell_leave(alloc, rows.as_slice(), life),
        }
    }

    /// What the peer is told of all rows here: nothing where its process isn't known.
    pub fn tell_sync(
        &mut self,
        alloc: Global,
        mut rows: Vec<Row>,
        life: &mut Life,
    ) -> Result<Vec<u8>, OutOfMemory>
        requires { vec_len rows ≤ 65536 }
        ensures untold { self.old.seen.other ≡ None → IfOk result (λ out. (out.items ≡ []) ×
            (open_of self.new ≡ open_of self.old)) }
        ensures told { (other : Pid) → self.old.seen.other ≡ Some other → IfOk result (λ out.
            AreTold life.new.atoms.items syncs self.old.own other rows.items out.items
            self.new.seen.told.items × (open_of self.new ≡ with_seen
            (with_told self.new.seen.told.items (seen_of self.old.seen)) (open_of self.old))) }
        ensures same { OnErr result (open_of self.new ≡ open_of self.old) }
        ensures life { GoesOn life.old life.new }
    {
        let Some(ends) = self.ends() else {
            return Ok(Vec::new(alloc));
        };
        rows.sort_unstable();
        let told = groups_of(alloc, &rows, life)?;
        let out = sync_body(alloc, ends, &told)?;
        let copies = rows_told(alloc, &told)?;
        self.seen.tell_sync(copies);
        Ok(out)
    }

    /// What the peer is told of further rows: nothing where it wasn't told all.
    pub fn tell_join(
        &mut self,
        alloc: Global,
        mut rows: Vec<Row>,
        life: &mut Life,
    ) -> Result<Vec<u8>, OutOfMemory>
        requires { vec_len rows ≤ 65536 }
        ensures untold { told_to (seen_of self.old.seen) ≡ None → IfOk result (λ out.
            (out.items ≡ []) × (open_of self.new ≡ open_of self.old)) }
        ensures told { (other : Pid) → told_to (seen_of self.old.seen) ≡ Some other →
            IfOk result (λ out. (told : List Row) × AreTold life.new.atoms.items joins
            self.old.own other rows.items out.items told × (open_of self.new ≡ with_seen
            (now_told (self.old.seen.told.items ++ told) (seen_of self.old.seen))
            (open_of self.old))) }
        ensures same { OnErr result (open_of self.new ≡ open_of self.old) }
        ensures life { GoesOn life.old life.new }
    {
        let Some(ends) = self.told_ends() else {
            return Ok(Vec::new(alloc));
        };
        rows.sort_unstable();
        let told = groups_of(alloc, &rows, life)?;
        let out = join_bodies(alloc, ends, &told)?;
        let copies = rows_told(alloc, &told)?;
        self.seen.tell_join(copies)?;
        Ok(out)
    }

    /// What the peer is told of rows that left: of those that it was told, and that didn't leave
    /// since; nothing where it wasn't told all.
    pub fn tell_leave(
        &mut self,
        alloc: Global,
        rows: &[Row],
        life: &mut Life,
    ) -> Result<Vec<u8>, OutOfMemory>
        requires { length rows.now ≤ 65536 }
        ensures untold { told_to (seen_of self.old.seen) ≡ None → IfOk result (λ out.
            (out.items ≡ []) × (open_of self.new ≡ open_of self.old)) }
        ensures told { (other : Pid) → told_to (seen_of self.old.seen) ≡ Some other →
            IfOk result (λ out. AreLeft life.new.atoms.items self.old.own other rows.now
            out.items self.old.seen.told.items self.new.seen.told.items ×
            (open_of self.new ≡ with_seen (now_told self.new.seen.told.items
            (seen_of self.old.seen)) (open_of self.old))) }
        ensures same { OnErr result (open_of self.new ≡ open_of self.old) }
        ensures life { GoesOn life.old life.new }
    {
        let Some(ends) = self.told_ends() else {
            return Ok(Vec::new(alloc));
        };
        let mut kept = self.seen.leaving(alloc, rows)?;
        kept.sort_unstable();
        let told = groups_of(alloc, &kept, life)?;
        let out = leave_bodies(alloc, ends, &told)?;
        let gone = rows_told(alloc, &told)?;
        let tally = RowTally::of(alloc, &gone)?;
        self.seen.tell_leave(tally);
        Ok(out)
    }

    /// The bodies by which the process of the scope ends: who watches it is told, and it watches no
    /// longer.
    pub(crate) fn end(&self, alloc: Global, run: &Run) -> Result<Vec<u8>, OutOfMemory>
        ensures { IfOk result (λ out. out.items ≡ ending_of run.now self.now) }
    {
        let mut out = self.ends_of_watches(alloc)?;
        self.put_unwatched(alloc, run, &mut out)?;
        Ok(out)
    }

    /// Who watches the process of the scope is told that it ended.
    fn ends_of_watches(&self, alloc: Global) -> Result<Vec<u8>, OutOfMemory>
        ensures { IfOk result (λ out. out.items ≡ flat_map (end_bytes self.now.own)
            self.now.watchers.items) }
    {
        let mut out = Vec::new(alloc);
        for watcher in &self.watchers {
            let own = member_term(alloc, &self.own)?;
            put_end(alloc, &own, watcher, &mut out)?;
        }
        Ok(out)
    }

    /// The process of the scope watches that of the peer's no longer.
    fn put_unwatched(&self, alloc: Global, run: &Run, out: &mut Vec<u8>) -> Result<(), OutOfMemory>
        ensures { OnOk result (out.new.items ≡ out.old.items ++ unwatch_bytes run.now self.now.own
            self.now.reference self.now.seen.other) }
    {
        let Some(other) = &self.seen.other else {
            return Ok(());
        };
        let reference = reference_term(alloc, run, self.reference)?;
        put_unwatch(alloc, &self.own, other, &reference, out)
    }

    /// The process here and that of the peer's scope, where it is known.
    fn ends(&self) -> Option<Ends<'_>>
        ensures other { option_map (λ ends. ends.other.now) result ≡ self.now.seen.other }
        ensures own { IfSome result (λ ends. ends.own.now ≡ self.now.own) }
    {
        match &self.seen.other {
            Some(other) => Some(Ends {
                own: &self.own,
                other,
            }),
            None => None,
        }
    }

    /// The same, where it was told all rows.
    fn told_ends(&self) -> Option<Ends<'_>>
        ensures other { option_map (λ ends. ends.other.now) result ≡
            told_to (seen_of self.now.seen) }
        ensures own { IfSome result (λ ends. ends.own.now ≡ self.now.own) }
    {
        if self.seen.is_told { self.ends() } else { None }
    }
}
