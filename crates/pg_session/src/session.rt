//! The seat of one connection: what it asks, and what it has of the node.
ghost use Rattle.std.specs.Prelude.{◌≡◌, [], false, true, not, length, IfOk, OnOk, OnErr, IsTrue, Some, None};
ghost use Rattle.std.specs.List.{list_any};
ghost use Rattle.dist_types.specs.Difference.{is_empty};
ghost use Rattle.policy_audit.specs.History.{creation};
ghost use Rattle.pg_text.specs.Lines.{is_quiet};
ghost use Rattle.pg_session.specs.Asked.{is_call, is_end, asked_by, next_after, next_behind, IsAsked};
ghost use Rattle.pg_session.specs.Answers.{Answers, Makes};
ghost use Rattle.dist_types.specs.declared.pid.Pid.{Pid};
ghost use Rattle.pg_session.specs.Processes.{has};
ghost use Rattle.pg_session.specs.Calls.{Seat, GoesOnBy, LeavesMonitor};
ghost use Rattle.pg_session.specs.Notices.{TellsNews, has_gone};
ghost use Rattle.pg_session.specs.Seen.{seen_of};
ghost use Rattle.pg_session.specs.declared.request.Request.TheVariants as requests;

use crate::answered::{Answered, Next};
use crate::caller::{Caller, Lack, Outcome};
use crate::kind::Kind;
use crate::leaving::{end_process, end_watch};
use crate::news::{News, Seen};
use crate::processes::Processes;
use crate::reading::{HELP, put_found, put_peers, put_query, put_size};
use crate::request::{Request, put_fault, read_request};
use crate::roster::Roster;
use crate::rows::{MoreOrFewer, rows_of};
use crate::stake::{keep, prepare};
use crate::surroundings::{Surroundings, put_change, put_report};
use crate::watch::Watch;
use dist_types::OutOfMemory;
use node_core::NodeCore;
use node_threads::Node;
use pg_text::{LineFault, is_quiet, put_word};
use policy_audit::Event;
use std::alloc::Global;
use std::marker::Model;
use std::mem::replace;
use std::sync::Wait;

/// The seat of one connection.
pub struct Session {
    pub(crate) caller: Caller,
    pub(crate) processes: Processes,
    pub(crate) watches: Vec<Watch>,
    pub(crate) news: News,
    pub(crate) seen: Seen,
    is_open: bool,
    /// How many rows its processes have at most. No contract rests on it.
    rows: usize,
}

impl Drop for Session {
    fn drop(self) {
        let Session {
            caller: _,
            processes: _,
            watches: _,
            news: _,
            seen: _,
            is_open: _,
            rows: _,
        } = self;
    }
}

impl Model for Session {
    ghost use Rattle.pg_session.specs.Calls.{Seat, IsSeat};

    ghost Value = { Seat };

    ghost view = { λ session. record {
      pass = session.caller;
      own = session.processes;
      taken = session.is_open;
      known = session.news;
      watches = session.watches.items;
      seen = session.seen;
    } };

    ghost invariant = { λ session. IsSeat (record {
      pass = session.caller;
      own = session.processes;
      taken = session.is_open;
      known = session.news;
      watches = session.watches.items;
      seen = session.seen;
    }) };
}

impl Session {
    /// A seat that nobody has.
    pub fn new(alloc: Global, caller: Caller) -> Session
        ensures { result ≡ record {
          pass = caller;
          own = [];
          taken = false;
          known = record { peers = []; anew = None };
          watches = [];
          seen = record { creation = 0; entries = 0 };
        } }
    {
        Session {
            caller,
            processes: Processes::new(alloc),
            watches: Vec::new(alloc),
            news: News::new(alloc),
            seen: Seen::NOTHING,
            is_open: false,
            rows: 0,
        }
    }

    /// Whether a connection has the seat.
    pub fn is_open(&self) -> bool
        ensures { result ≡ self.now.taken }
    {
        self.is_open
    }

    /// Whether the connection has processes that live.
    pub fn has_processes(&self) -> bool
        ensures { result ≡ not (is_empty self.now.own) }
    {
        !self.processes.is_empty()
    }

    /// How many rows its processes have at most, repeats included.
    pub fn rows(&self) -> usize {
        rows_of(&self.processes, self.rows)
    }

    /// How many calls the seat has made that are entries.
    pub fn calls(&self) -> usize
        ensures { result ≡ length self.now.pass.calls }
    {
        self.caller.calls()
    }

    /// How many monitors it has.
    pub fn monitors(&self) -> usize
        ensures { result ≡ length self.now.watches }
    {
        self.watches.len()
    }

    /// Whether its pass keeps many of its calls.
    pub fn keeps_many(&self) -> bool {
        self.caller.keeps_many()
    }

    /// Lets the calls go that its pass keeps, where the node doesn't keep all entries either.
    pub fn let_go(&mut self)
        ensures { self.new ≡ record self.old {
          pass =
              record self.old.pass { gone = length self.old.pass.calls };
        } }
    {
        self.caller.let_go();
    }

    /// Gives the seat to a connection, which is told what happens from now on.
    pub fn open(
        &mut self,
        alloc: Global,
        core: &NodeCore,
        roster: &mut Roster,
    ) -> Result<Seen, OutOfMemory>
        ensures ok { OnOk result (self.new ≡ record self.old {
          taken = true;
          known = self.new.known;
          seen = self.new.seen;
        }) }
        ensures done { OnOk result (self.new.known.anew ≡ None) }
        ensures known { OnOk result (self.new.known.peers ≡ roster.new.news.peers) }
        ensures up { OnOk result (list_any (has_gone core.now.history) self.new.known.peers
            ≡ false) }
        ensures looked { OnOk result (self.new.seen ≡ seen_of core.now.history) }
        ensures seen { IfOk result (λ seen. seen ≡ self.new.seen) }
        ensures same { OnErr result (self.new ≡ self.old) }
    {
        roster.follow(alloc, core)?;
        self.news.start(alloc, roster.news())?;
        self.seen = roster.seen();
        self.is_open = true;
        Ok(self.seen)
    }

    /// Takes the right to call the next life, and gives back the last one's: what that had is gone.
    pub fn begin_anew(&mut self, caller: Caller, core: &NodeCore) -> Caller
        ensures next { self.new ≡ record {
          pass = caller;
          own = [];
          taken = self.old.taken;
          known = record { peers = self.old.known.peers; anew = Some (creation core.now.history) };
          watches = [];
          seen = record { creation = creation core.now.history; entries = 0 };
        } }
        ensures last { result ≡ self.old.pass }
    {
        self.processes.clear();
        self.watches.clear();
        self.news.begin_anew(core);
        self.seen = Seen::begun(core);
        replace(&mut self.caller, caller)
    }

    /// The right to call, of a connection that has gone.
    pub fn into_caller(self) -> Caller
        ensures { result ≡ self.pass }
    {
        let Session {
            caller,
            processes: _,
            watches: _,
            news: _,
            seen: _,
            is_open: _,
            rows: _,
        } = self;
        caller
    }

    /// Adds that the node has begun anew, if the connection hasn't been told, behind the end of
    /// each peer that it takes for up.
    pub fn put_restart(&mut self, out: &mut Vec<u8>) -> Result<(), OutOfMemory>
        ensures rest { self.new ≡ record self.old { known = self.new.known } }
        ensures told { OnOk result (TellsNews self.old.known out.old.items self.new.known
            out.new.items) }
        ensures done { OnOk result (self.new.known.anew ≡ None) }
        ensures same { OnErr result (self.new ≡ self.old) }
    {
        self.news.put_restart(out)
    }

    /// Adds the answer, a line, unless the line is quiet. At an error the call may have been made.
    #[tactic(auto, using(crate::proofs::Asking::makes_none, crate::proofs::Asking::makes_as, crate::proofs::Asking::answers_as))]
    pub fn answer<R: Wait, E: Surroundings>(
        &mut self,
        rt: &R,
        node: &Node,
        surroundings: &E,
        line: &[u8],
        out: &mut Vec<u8>,
    ) -> Result<Answered, OutOfMemory>
        ensures quiet { is_quiet line.now ≡ true → (self.new ≡ self.old) × (out.new ≡ out.old)
            × IfOk result (λ answered. answered.lack ≡ None) }
        ensures ok { IfOk result (λ answered. is_quiet line.now ≡ false
            → Answers (asked_by line.now) answered.lack self.old out.old.items self.new
            out.new.items) }
        ensures next { IfOk result (λ answered. answered.next ≡ next_behind line.now) }
        ensures once { Makes (asked_by line.now) self.old self.new }
        ensures taken { self.new.taken ≡ self.old.taken }
        ensures known { self.new.known ≡ self.old.known }
        ensures seen { self.new.seen ≡ self.old.seen }
    {
        if is_quiet(line) {
            return Ok(Answered::LINE);
        }
        let alloc = *out.allocator();
        match read_request(alloc, line) {
            Ok(request) => self.follow(rt, node, surroundings, request, out),
            Err(LineFault::Script) => {
                put_fault(alloc, line, out)?;
                Ok(Answered::LINE)
            }
            Err(LineFault::Memory) => Err(OutOfMemory),
        }
    }

    fn follow<R: Wait, E: Surroundings>(
        &mut self,
        rt: &R,
        node: &Node,
        surroundings: &E,
        request: Request,
        out: &mut Vec<u8>,
    ) -> Result<Answered, OutOfMemory>
        requires { IsAsked request }
        ensures ok { IfOk result (λ answered.
            Answers (Some request) answered.lack self.old out.old.items self.new out.new.items) }
        ensures next { IfOk result (λ answered. answered.next ≡ next_after (Some request)) }
        ensures once { Makes (Some request) self.old self.new }
        ensures taken { self.new.taken ≡ self.old.taken }
        ensures known { self.new.known ≡ self.old.known }
        ensures seen { self.new.seen ≡ self.old.seen }
    {
        match request {
            Request::Call(event) => {
                let lack = self.call(rt, node, event, out)?;
                let next = Next::Line;
                return Ok(Answered { next, lack });
            }
            Request::Query(event) => put_query(rt, node, &self.caller, event, out)?,
            Request::Size => put_size(rt, node, &self.caller, out)?,
            Request::Audit(number) => put_found(rt, node, &self.caller, number, out)?,
            Request::Nodes => put_peers(rt, node, &self.caller, out)?,
            Request::Report(report) => put_report(surroundings, report, out)?,
            Request::Change(change) => put_change(surroundings, change, out)?,
            Request::Help => put_word(HELP, out)?,
            Request::Quit => {
                put_word("ok\n", out)?;
                return Ok(Answered::QUIT);
            }
            Request::Drain => {
                put_word("ok\n", out)?;
                return Ok(Answered::DRAIN);
            }
        }
        Ok(Answered::LINE)
    }

    /// Answers a call for own processes, if for any, and keeps what comes of it. Tells what it
    /// lacked.
    fn call<R: Wait>(
        &mut self,
        rt: &R,
        node: &Node,
        event: Event,
        out: &mut Vec<u8>,
    ) -> Result<Option<Lack>, OutOfMemory>
        requires { is_call event ≡ true }
        ensures ok { IfOk result (λ lack. Answers (Some (requests.Call event)) lack self.old
            out.old.items self.new out.new.items) }
        ensures once { Makes (Some (requests.Call event)) self.old self.new }
        ensures taken { self.new.taken ≡ self.old.taken }
        ensures known { self.new.known ≡ self.old.known }
        ensures seen { self.new.seen ≡ self.old.seen }
    {
        let kind = Kind::of(&event);
        if !self.processes.has_all(kind.pids()) {
            drop(event);
            put_word("fault not yours\n", out)?;
            return Ok(None);
        }
        let alloc = *out.allocator();
        let prepared = prepare(alloc, &mut self.processes, &mut self.watches, kind);
        let Ok(stake) = prepared else {
            drop(event);
            return Err(OutOfMemory);
        };
        let rows = MoreOrFewer::of(rows_of(&self.processes, self.rows), &event);
        let mut outcome = Outcome::Refused(None);
        let answered = self.caller.call(rt, node, event, &mut outcome, out);
        let lack = outcome.lack();
        self.rows = rows.behind(&outcome);
        keep(&mut self.processes, &mut self.watches, outcome, stake)?;
        answered?;
        Ok(lack)
    }

    /// Ends the last monitor of the connection: whether there was one.
    pub fn leave_monitor<R: Wait>(&mut self, rt: &R, node: &Node) -> bool
        ensures one { LeavesMonitor result self.old self.new }
        ensures rest { self.new ≡ record self.old {
          pass = self.new.pass;
          watches = self.new.watches;
        } }
    {
        let Some(watch) = self.watches.pop() else {
            return false;
        };
        end_watch(&mut self.caller, rt, node, watch.number);
        true
    }

    /// Ends one thing that the connection has, a process or a monitor: whether there was one. If
    /// not, the seat is free.
    pub fn leave_one<R: Wait>(&mut self, rt: &R, alloc: Global, node: &Node) -> bool
        ensures goes { GoesOnBy is_end self.old.pass self.new.pass }
        ensures fewer { (p : Pid) → has self.new.own p ≡ true → has self.old.own p ≡ true }
        ensures monitor { self.old.own ≡ [] → IsTrue result → LeavesMonitor true self.old self.new }
        ensures free { result ≡ false → (self.old.own ≡ []) × (self.old.watches ≡ [])
            × (self.new ≡ record self.old { taken = false }) }
        ensures taken { result ≡ true → self.new.taken ≡ self.old.taken }
    {
        if let Some(pid) = self.processes.take() {
            end_process(&mut self.caller, rt, alloc, node, &pid);
            return true;
        }
        if self.leave_monitor(rt, node) {
            return true;
        }
        self.is_open = false;
        false
    }
}
