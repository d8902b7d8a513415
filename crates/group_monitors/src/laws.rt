//! Laws of monitors. Each function does nothing; its contract is the law.
ghost use Rattle.std.specs.Prelude.{◌≡◌, ◌+◌, ◌≤◌, nat_le, ◌==◌, ◌&&◌, ◌++◌, ℕ, true, false, cond, List, [], ◌∷◌, Some, None, length, IsTrue};
ghost use Rattle.std.specs.List.{flat_map, list_all};
ghost use Rattle.std.specs.Option.{IsSome, option_map, option_and_then};
ghost use Rattle.dist_types.specs.declared.pid.Pid.{Pid};
ghost use Rattle.dist_types.specs.Listing.{same, mentions};
ghost use Rattle.policy_audit.specs.declared.opening.Opening.{Opening};
ghost use Rattle.policy_audit.specs.declared.event.Event.TheVariants as event;
ghost use Rattle.policy_audit.specs.declared.rule.Rule.TheVariants as rule;
ghost use Rattle.policy_audit.specs.declared.entry.Verdict.TheVariants.{Accepted};
ghost use Rattle.policy_audit.specs.declared.entry.Entry.{Entry};
ghost use Rattle.policy_audit.specs.declared.reply.GroupPids.{GroupPids};
ghost use Rattle.policy_audit.specs.declared.reply.Reply.TheVariants as reply;
ghost use Rattle.policy_audit.specs.declared.reply.Update.{Update};
ghost use Rattle.policy_audit.specs.History.{History, past, is_accepted, audit_of, audited, just};
ghost use Rattle.policy_audit.specs.Listed.{listed};
ghost use Rattle.policy_audit.specs.Contents.{members, contents};
ghost use Rattle.policy_audit.specs.Log.{entry_at, later_than};
ghost use Rattle.policy_audit.specs.Monitors.{Target, is_fetch, monitor, updates, updates_of, updates_since};
ghost use Rattle.policy_audit.specs.Policy.{history, IsLegalIn};
ghost use Rattle.policy_audit.specs.Checks.{first_broken, checks};
ghost use Rattle.group_monitors.specs.declared.monitor.Monitor.{Monitor as Watch};
ghost use Rattle.group_monitors.specs.Monitors.{target, at_place, monitor_of, IsFree, IsNumbered, HasSeen, updates_behind, without, without_scope, with_place};
ghost use Rattle.group_monitors.specs.Fetches.{IsLastFetch, fetched};
ghost use Rattle.group_monitors.specs.Follows.{FollowsPolicy, Reaches, concerns_monitors};
ghost use Rattle.group_monitors.specs.Counts.{counted, times_in, Watches};

use policy_audit::{left_alone, lists_ascend, slow_links_end};

/// What the entries behind its place tell a monitor is the policy's answer, where the place is that
/// of the last fetch. It is so again behind each further entry, once the place has moved to each
/// further fetch.
pub fn since_the_place()
    ensures since { (seat k : ℕ) (m : Watch) (entries : List Entry)
        → IsLastFetch seat k m.place entries → updates_since seat k (target m) entries
        ≡ updates_behind entries m }
    ensures answer { (h : History) (seat k : ℕ) (m : Watch) → monitor h seat k ≡ Some (target m)
        → IsLastFetch seat k m.place h.entries → updates h seat k ≡ updates_behind h.entries m }
    ensures seen { (seat k place : ℕ) (entries : List Entry) → IsLastFetch seat k place entries
        → place ≤ length entries }
    ensures stays { (seat k place : ℕ) (e : Entry) (entries : List Entry)
        → IsLastFetch seat k place entries → is_fetch seat k e ≡ false
        → IsLastFetch seat k place (e ∷ entries) }
    ensures moves { (seat k : ℕ) (e : Entry) (entries : List Entry) → IsTrue (is_fetch seat k e)
        → IsLastFetch seat k (length entries + 1) (e ∷ entries) }
{}

/// Of an audit whose first entries aren't kept, what a monitor has still to be told is among the
/// others: that stays so with each further entry, and holds exactly where it holds of the place of
/// each monitor that is kept.
pub fn told_from_kept()
    ensures start { Reaches 0 [] }
    ensures stays { (e : Entry) (entries : List Entry) (forgotten : ℕ) → forgotten ≤ length entries
        → Reaches forgotten entries → Reaches forgotten (e ∷ entries) }
    ensures places { (h : History) (ms : List (ℕ × Watch)) → FollowsPolicy h ms → (forgotten : ℕ)
        → Reaches forgotten h.entries
        → (seat k : ℕ) (m : Watch) → monitor_of ms seat k ≡ Some m → forgotten ≤ m.place }
    ensures all { (h : History) (ms : List (ℕ × Watch)) → FollowsPolicy h ms → (forgotten : ℕ)
        → list_all (λ m. nat_le forgotten m.1.place) ms ≡ true → Reaches forgotten h.entries }
    ensures only { (h : History) (ms : List (ℕ × Watch)) → FollowsPolicy h ms → (forgotten : ℕ)
        → Reaches forgotten h.entries → list_all (λ m. nat_le forgotten m.1.place) ms ≡ true }
{}

/// Of each audit that the policy makes, with these entries behind those: how often a process was in
/// a watched group at the monitor's place, with what the monitor is told since then applied in
/// turn, is how often it is listed there now. None leaves that isn't there. So the first contents,
/// of a group and of a scope, become the contents of now, also where they are fetched in several
/// parts.
pub fn tells_the_listing()
    ensures listed { (o : Opening) (es ks : List Entry) → IsLegalIn o (es ++ ks) → (m : Watch)
        → m.place ≡ length ks
        → (g : List ℕ) → Watches g m → (p : Pid)
        → counted g p (updates_behind (es ++ ks) m) (listed (history o ks) m.scope g p)
        ≡ Some (listed (history o (es ++ ks)) m.scope g p) }
    ensures group { (o : Opening) (es ks : List Entry) → IsLegalIn o (es ++ ks) → (m : Watch)
        → m.place ≡ length ks
        → (g : List ℕ) → m.group ≡ Some g → (p : Pid)
        → counted g p (updates_behind (es ++ ks) m) (mentions p (members (history o ks) m.scope g))
        ≡ Some (mentions p (members (history o (es ++ ks)) m.scope g)) }
    ensures scope { (o : Opening) (es ks : List Entry) → IsLegalIn o (es ++ ks) → (m : Watch)
        → m.place ≡ length ks
        → m.group ≡ None → (g : List ℕ) (p : Pid)
        → counted g p (updates_behind (es ++ ks) m) (times_in g p (contents (history o ks) m.scope))
        ≡ Some (times_in g p (contents (history o (es ++ ks)) m.scope)) }
    ensures parts { (g : List ℕ) (p : Pid) (us vs : List Update) (n : ℕ) → counted g p (us ++ vs) n
        ≡ option_and_then (counted g p vs) (counted g p us n) }
{
    lists_ascend();
}

/// Of each audit that the policy makes, and each monitor that a seat has there: what the seat has
/// fetched since the monitor's own entry, and then what is still to be fetched, are the updates of
/// all entries behind that one. The contents that it answered, with all of these applied in turn,
/// are what is listed now, as multisets.
pub fn fetches_tell_the_listing()
    ensures parts { (o : Opening) (es : List Entry) → IsLegalIn o es → (seat k : ℕ) (t : Target)
        → monitor (past o es) seat k ≡ Some t
        → fetched seat k es ++ updates (past o es) seat k
        ≡ flat_map (λ e. updates_of t e.change) (later_than k es) }
    ensures group { (o : Opening) (es : List Entry) → IsLegalIn o es → (seat k : ℕ) (s g : List ℕ)
        → monitor (past o es) seat k ≡ Some (record { scope = s; group = Some g })
        → (first : List Pid)
        × (option_map (λ e. e.verdict) (entry_at k es) ≡ Some (Accepted (reply.Ref k first)))
        × ((p : Pid)
        → counted g p (fetched seat k es ++ updates (past o es) seat k) (mentions p first)
        ≡ Some (listed (history o es) s g p)) }
    ensures scope { (o : Opening) (es : List Entry) → IsLegalIn o es → (seat k : ℕ) (s : List ℕ)
        → monitor (past o es) seat k ≡ Some (record { scope = s; group = None })
        → (first : List GroupPids)
        × (option_map (λ e. e.verdict) (entry_at k es) ≡ Some (Accepted (reply.ScopeRef k first)))
        × ((g : List ℕ) (p : Pid)
        → counted g p (fetched seat k es ++ updates (past o es) seat k) (times_in g p first)
        ≡ Some (listed (history o es) s g p)) }
{
    left_alone();
    lists_ascend();
    slow_links_end();
}

/// Which seat has which monitor after each call: the added one beside those before, all but the
/// removed one and those of the dropped scope, and the moved one at its new place.
pub fn found_after()
    ensures added { (ms : List (ℕ × Watch)) (n : ℕ) (m : Watch) → IsFree n ms
        → (seat k : ℕ) → monitor_of (ms ++ (n, m) ∷ []) seat k
        ≡ cond (k == n && m.seat == seat) (Some m) (monitor_of ms seat k) }
    ensures removed { (ms : List (ℕ × Watch)) (own n : ℕ)
        → (seat k : ℕ) → monitor_of (without own n ms) seat k
        ≡ cond (k == n && own == seat) None (monitor_of ms seat k) }
    ensures moved { (ms : List (ℕ × Watch)) (own n place : ℕ)
        → (seat k : ℕ) → monitor_of (with_place own n place ms) seat k
        ≡ cond (k == n && own == seat) (option_map (at_place place) (monitor_of ms seat k))
        (monitor_of ms seat k) }
    ensures dropped { (ms : List (ℕ × Watch)) (s : List ℕ) → IsNumbered ms
        → (seat k : ℕ) → monitor_of (without_scope s ms) seat k
        ≡ option_and_then (λ m. cond (same m.scope s) None (Some m)) (monitor_of ms seat k) }
{}

/// Monitors follow the policy at the start, and again behind each further entry, once what its
/// event asks for is done to them. While they do, the next number is free, and what they say of a
/// seat's monitor is the policy's verdict and answer.
pub fn follows_the_policy()
    ensures start { (o : Opening) → FollowsPolicy (past o []) [] }
    ensures other { (h : History) (e : Entry) (ms : List (ℕ × Watch))
        → e.number ≡ length h.entries + 1 → FollowsPolicy h ms
        → (is_accepted e.verdict && concerns_monitors e.event) ≡ false
        → FollowsPolicy (just h e) ms }
    ensures group { (h : History) (e : Entry) (ms : List (ℕ × Watch))
        → e.number ≡ length h.entries + 1 → FollowsPolicy h ms → is_accepted e.verdict ≡ true
        → (s g : List ℕ) → e.event ≡ event.Monitor s g
        → FollowsPolicy (just h e)
        (ms ++ (
          length h.entries + 1,
          record { seat = e.seat; scope = s; group = Some g; place = length h.entries + 1 },
        ) ∷ []) }
    ensures scope { (h : History) (e : Entry) (ms : List (ℕ × Watch))
        → e.number ≡ length h.entries + 1 → FollowsPolicy h ms → is_accepted e.verdict ≡ true
        → (s : List ℕ) → e.event ≡ event.MonitorScope s
        → FollowsPolicy (just h e)
        (ms ++ (
          length h.entries + 1,
          record { seat = e.seat; scope = s; group = None; place = length h.entries + 1 },
        ) ∷ []) }
    ensures removed { (h : History) (e : Entry) (ms : List (ℕ × Watch))
        → e.number ≡ length h.entries + 1 → FollowsPolicy h ms → is_accepted e.verdict ≡ true
        → (n : ℕ) → e.event ≡ event.Demonitor n
        → FollowsPolicy (just h e) (without e.seat n ms) }
    ensures moved { (h : History) (e : Entry) (ms : List (ℕ × Watch))
        → e.number ≡ length h.entries + 1 → FollowsPolicy h ms → is_accepted e.verdict ≡ true
        → (n : ℕ) → e.event ≡ event.Updates n
        → FollowsPolicy (just h e) (with_place e.seat n (length (e ∷ h.entries)) ms) }
    ensures dropped { (h : History) (e : Entry) (ms : List (ℕ × Watch))
        → e.number ≡ length h.entries + 1 → FollowsPolicy h ms → is_accepted e.verdict ≡ true
        → (s : List ℕ) → e.event ≡ event.StopScope s
        → FollowsPolicy (just h e) (without_scope s ms) }
    ensures cleared { (h : History) (e : Entry) → is_accepted e.verdict ≡ true
        → e.event ≡ event.Restart → FollowsPolicy (just h e) [] }
    ensures free { (h : History) (ms : List (ℕ × Watch)) → FollowsPolicy h ms
        → IsFree (length h.entries + 1) ms }
    ensures answer { (h : History) (ms : List (ℕ × Watch)) → FollowsPolicy (audit_of h) ms
        → (seat k : ℕ) (m : Watch) → monitor_of ms seat k ≡ Some m
        → updates (audit_of h) seat k ≡ updates_behind (audited h.entries) m }
    ensures told { (h : History) (ms : List (ℕ × Watch)) → FollowsPolicy (audit_of h) ms
        → (seat k : ℕ) (us : List Update)
        → option_map (updates_behind (audited h.entries)) (monitor_of ms seat k) ≡ Some us
        → (first_broken (checks h seat (event.Updates k)) ≡ None)
        × (updates (audit_of h) seat k ≡ us) }
    ensures seen { (h : History) (ms : List (ℕ × Watch)) → FollowsPolicy (audit_of h) ms
        → (seat k : ℕ) → HasSeen (monitor_of ms seat k) (audited h.entries) }
    ensures seen_later { (h : History) (ms : List (ℕ × Watch)) → FollowsPolicy (audit_of h) ms
        → (seat k : ℕ) (later : List Entry) → length (audited h.entries) ≤ length later
        → HasSeen (monitor_of ms seat k) later }
    ensures checked { (h : History) (ms : List (ℕ × Watch)) → FollowsPolicy (audit_of h) ms
        → (seat k : ℕ) → IsSome (monitor_of ms seat k)
        → (first_broken (checks h seat (event.Updates k)) ≡ None)
        × (first_broken (checks h seat (event.Demonitor k)) ≡ None) }
    ensures refused { (h : History) (ms : List (ℕ × Watch)) → FollowsPolicy (audit_of h) ms
        → (seat k : ℕ) → monitor_of ms seat k ≡ None
        → (first_broken (checks h seat (event.Updates k)) ≡ Some rule.NoMonitor)
        × (first_broken (checks h seat (event.Demonitor k)) ≡ Some rule.NoMonitor) }
{}
