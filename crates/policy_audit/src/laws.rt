//! Laws of the written policy. Each function does nothing; its contract is the law.
ghost use Rattle.std.specs.List.{list_all, list_any};
ghost use Rattle.std.specs.Option.{option_map_or};
ghost use Rattle.std.specs.Prelude.{length, ◌≤◌, ◌≡◌, ◌↔◌, ℕ, ◌+◌, ◌-◌, ◌==◌, ◌&&◌, not};
ghost use Rattle.std.specs.Prelude.{true, false, cond, List, [], ◌∷◌, ◌++◌, Some, None, IsTrue};
ghost use Rattle.dist_types.specs.declared.pid.Pid.{Pid};
ghost use Rattle.dist_types.specs.declared.row.Row.{Row};
ghost use Rattle.dist_types.specs.Listing.{same, same_pid, mentions, IsPidListing, IsRowListing, IsGroupListing};
ghost use Rattle.dist_types.specs.Flags.{has_bit};
ghost use Rattle.handshake_frames.specs.Frame.{Name};
ghost use Rattle.link_frames.specs.declared.message.Message.{Message};
ghost use Rattle.link_frames.specs.declared.message.Message.TheVariants as said;
ghost use Rattle.link_frames.specs.Parts.{parts};
ghost use Rattle.policy_audit.specs.declared.event.Event.{Event};
ghost use Rattle.policy_audit.specs.declared.event.Event.TheVariants as events;
ghost use Rattle.policy_audit.specs.declared.reply.Reply.{Reply};
ghost use Rattle.policy_audit.specs.declared.entry.Verdict.{Verdict};
ghost use Rattle.policy_audit.specs.declared.entry.Entry.{Entry};
ghost use Rattle.policy_audit.specs.declared.opening.Opening.{Opening};
ghost use Rattle.policy_audit.specs.History.{History, past, is_accepted, is_entered, audited};
ghost use Rattle.policy_audit.specs.History.{entered, just, lose};
ghost use Rattle.policy_audit.specs.Owed.{with_entry, waiting, waiting_in, is_slow, may_tell};
ghost use Rattle.policy_audit.specs.Owed.{slow_links};
ghost use Rattle.policy_audit.specs.Own.{is_running, is_local, own};
ghost use Rattle.policy_audit.specs.Sides.{present_link, frame_of, peer_of, given, is_visible, awaits, is_whole, is_last};
ghost use Rattle.policy_audit.specs.Links.{is_open, is_up};
ghost use Rattle.policy_audit.specs.Hearing.{rows_of, heard, told, begun, kept_after, frame_taken};
ghost use Rattle.policy_audit.specs.Hearing.{rows_kept};
ghost use Rattle.policy_audit.specs.Parted.{scope_of, messages, taken_behind, moves_parts};
ghost use Rattle.policy_audit.specs.Parted.{AreUndisturbed};
ghost use Rattle.policy_audit.specs.Listed.{is_from, listed};
ghost use Rattle.policy_audit.specs.Contents.{members, local_members, groups, local_groups, local_rows};
ghost use Rattle.policy_audit.specs.Changes.{IsChange, change};
ghost use Rattle.policy_audit.specs.Checks.{own_limit};
ghost use Rattle.policy_audit.specs.Effects.{leaves_rows, may_change, may_change_with, IsSameLink};
ghost use Rattle.policy_audit.specs.Effects.{IsAccepted, IsMessage, IsUntouched, IsAsOpen};
ghost use Rattle.policy_audit.specs.Stages.{stages, is_up_at, name_up};
ghost use Rattle.policy_audit.specs.Admitted.{IsAdmitted};
ghost use Rattle.policy_audit.specs.Policy.{is_full, entry_of, history, IsNext, IsLegal, IsLegalIn};
ghost use Rattle.policy_audit.specs.Policy.{IsPlayed, IsStep};

use crate::entry::Verdict;
use crate::event::Event;
use crate::reply::Reply;

/// In every history that the policy makes, a link that is up was admitted, and an open link that
/// was admitted is up.
pub fn admitted()
    ensures up { (h : History) → IsPlayed h → (l : ℕ) → IsTrue (is_up l h.entries)
        → IsAdmitted h l }
    ensures only { (h : History) → IsPlayed h → (l : ℕ)
        → IsTrue (is_up l h.entries) ↔ (IsTrue (is_open l h.entries) × IsAdmitted h l) }
{}

/// The present link of a peer is the one link of that peer that is up, with the flags and the
/// creation that the peer gave on it.
pub fn one_link_up()
    ensures given { (h : History) → IsPlayed h → (l : ℕ) → IsTrue (is_up l h.entries)
        → (f : Name) × (given l h.entries ≡ Some f) × (peer_of l h.entries ≡ Some f.name)
        × (is_visible h l ≡ (not h.opening.hidden && has_bit 0 f.flags)) }
    ensures present { (h : History) → IsPlayed h → (n : List ℕ) (l : ℕ)
        → (present_link n h.entries ≡ Some l)
        ↔ (IsTrue (is_up l h.entries) × (peer_of l h.entries ≡ Some n)) }
{}

/// Which links are open and up follows from the events and whether each was accepted: no recorded
/// answer is needed. And a link of a name is up there exactly where an open link of that peer was
/// admitted.
pub fn up_by_events()
    ensures up { (h : History) → IsPlayed h → (l : ℕ)
        → is_up_at (stages h.entries) l h.entries ≡ is_up l h.entries }
    ensures open { (h : History) → IsPlayed h → (l : ℕ)
        → (stages h.entries l).is_open ≡ is_open l h.entries }
    ensures named { (h : History) → IsPlayed h → (n : List ℕ)
        → IsTrue (name_up n h.entries)
        ↔ ((l : ℕ) × IsTrue (is_open l h.entries) × (peer_of l h.entries ≡ Some n)
        × IsAdmitted h l) }
{}

/// A history stays legal with one more entry exactly where that is what the policy makes of its
/// event, and where the audit isn't full there is such an entry for each event.
pub fn goes_on()
    ensures legal { (h : History) (e : Entry) → is_entered e ≡ true
        → IsLegal (with_entry h e) ↔ (IsNext h e × IsLegal h) }
    ensures next { (h : History) (seat : ℕ) (e : Event) → is_full h ≡ false
        → IsNext h (entry_of h seat e) }
    ensures computed { (h k : History) → IsChange h k (change h k) }
{}

/// The lists in answers ascend, and each process stands in them as often as it is counted.
pub fn lists_ascend()
    ensures members { (h : History) (s g : List ℕ) → IsPidListing (listed h s g) (members h s g) }
    ensures local_members { (h : History) (s g : List ℕ)
        → IsPidListing (own h s g) (local_members h s g) }
    ensures groups { (h : History) (s : List ℕ) → IsGroupListing (listed h s) (groups h s) }
    ensures local_groups { (h : History) (s : List ℕ)
        → IsGroupListing (own h s) (local_groups h s) }
    ensures local_rows { (h : History) (s : List ℕ) → IsRowListing (own h s) (local_rows h s) }
{}

/// What an entry leaves alone: a refused one and one that concerns no row, all listings; any other,
/// the rows that it may not change; one of a link's frame, what is said of every other link.
pub fn left_alone()
    ensures listings { (h : History) (e : Entry) → IsTrue (leaves_rows e) → (s g : List ℕ) (p : Pid)
        → listed (just h e) s g p ≡ listed h s g p }
    ensures no_change { (h : History) (e : Entry) → IsTrue (leaves_rows e)
        → IsChange h (just h e) [] }
    ensures within { (h : History) (e : Entry) → IsPlayed (just h e) → (s g : List ℕ) (p : Pid)
        → may_change h.opening h.entries e s g p ≡ false
        → listed (just h e) s g p ≡ listed h s g p }
    ensures links { (es : List Entry) (e : Entry) (k l : ℕ) (body : List ℕ)
        → e.event ≡ events.Frame k body → (k == l) ≡ false → IsSameLink l es (e ∷ es) }
{}

/// A refused entry leaves all as it was: rows, processes, up links, cookies, allow list, scopes and
/// monitors with their places. And unless it is of a frame of that link, a link is open as before,
/// and the same frames wait for it.
pub fn refusal_leaves()
    ensures all { (h : History) (e : Entry) → IsNext h e → is_accepted e.verdict ≡ false
        → IsUntouched h (with_entry h e) }
    ensures links { (h : History) (e : Entry) (l : ℕ) → is_accepted e.verdict ≡ false
        → frame_of l h.entries e.event ≡ None → IsAsOpen l h (just h e) }
{}

/// The history of an audit, and what the losses of slow links make of it. Each slow link is closed
/// and loses its frames, nobody is heard or told over it, and its peer's rows are gone; of the
/// other links and rows the same is said. In a history that the policy makes no link has more
/// frames than it may, and while a side isn't whole it has few. An entry that may owe no message to
/// a link that was up has no losses.
pub fn slow_links_end()
    ensures plays { (h : History) → IsLegal h → IsPlayed h }
    ensures step { (h : History) (e : Entry) → IsNext h e → IsStep h e }
    ensures made { (o : Opening) (es : List Entry) → IsLegalIn o es → IsLegal (history o es) }
    ensures opening { (o : Opening) (es : List Entry) → (history o es).opening ≡ o }
    ensures audited { (o : Opening) (es : List Entry) → IsLegalIn o es
        → audited (history o es).entries ≡ es }
    ensures entered { (o : Opening) (es : List Entry) → IsLegalIn o es
        → entered (history o es).entries ≡ length es }
    ensures room { (h : History) → IsLegal h → entered h.entries ≤ h.opening.entries }
    ensures few { (h : History) → IsLegal h → (l : ℕ) → length (waiting h l) ≤ 1024 }
    ensures early { (h : History) → IsPlayed h → (l : ℕ) → is_whole l h.entries ≡ false
        → length (waiting h l) ≤ 6 }
    ensures lost { (h : History) (e : Entry) → IsTrue (is_accepted e.verdict)
        → (with_entry h e).entries ≡ lose (slow_links (just h e)) (just h e).entries }
    ensures slow { (h : History) (l : ℕ) → IsTrue (list_any (λ k. k == l) (slow_links h))
        ↔ IsTrue (is_slow h.opening h.entries l) }
    ensures alone { (h : History) (e : Entry) → slow_links (just h e) ≡ []
        → with_entry h e ≡ just h e }
    ensures silent { (h : History) → IsLegal h → (e : Entry) → IsStep h e
        → may_tell h.opening h.entries e.event ≡ false → with_entry h e ≡ just h e }
    ensures opens { (es : List Entry) (ls : List ℕ) (k : ℕ)
        → is_open k (lose ls es) ≡ (not (list_any (λ l. l == k) ls) && is_open k es) }
    ensures same { (es : List Entry) (ls : List ℕ) (k : ℕ) → IsSameLink k es (lose ls es) }
    ensures waiting { (o : Opening) (es : List Entry) (ls : List ℕ) (k : ℕ)
        → waiting_in o k (lose ls es) ≡ cond (list_any (λ l. l == k) ls) [] (waiting_in o k es) }
    ensures heard { (o : Opening) (es : List Entry) (ls : List ℕ) (k : ℕ) (s : List ℕ)
        → heard o k s (lose ls es) ≡ (not (list_any (λ l. l == k) ls) && heard o k s es) }
    ensures told { (o : Opening) (es : List Entry) (ls : List ℕ) (k : ℕ) (s : List ℕ)
        → told o k s (lose ls es) ≡ (not (list_any (λ l. l == k) ls) && told o k s es) }
    ensures listed { (o : Opening) (es : List Entry) (ls s g : List ℕ) (p : Pid)
        → listed (past o (lose ls es)) s g p
        ≡ cond (not (is_local (past o es) p) && option_map_or (λ k. list_any (λ l. l == k) ls)
        (present_link p.node es) false) 0 (listed (past o es) s g p) }
    ensures within { (h : History) (e : Entry) → IsPlayed (just h e) → (s g : List ℕ) (p : Pid)
        → may_change_with h e s g p ≡ false → listed (with_entry h e) s g p ≡ listed h s g p }
{}

/// What is kept of a message begun on a link. A frame that the link takes carries it on or breaks
/// it off; a stop breaks off what is of its scope, a restart all, and nothing else does. The rows
/// kept are of the link's peer and of the creation that it gave. Before its side is whole there are
/// none.
pub fn kept_parts()
    ensures framed { (o : Opening) (es : List Entry) (e : Entry) (l : ℕ) (body : List ℕ)
        → e.event ≡ events.Frame l body → IsTrue (is_accepted e.verdict) → IsTrue (is_whole l es)
        → begun o l (e ∷ es) ≡ kept_after (begun o l es) (frame_taken o l es body) }
    ensures stopped { (o : Opening) (es : List Entry) (e : Entry) (l : ℕ) (s : List ℕ)
        → e.event ≡ events.StopScope s → IsTrue (is_accepted e.verdict)
        → begun o l (e ∷ es)
        ≡ cond (option_map_or (λ b. same b.scope s) (begun o l es) false) None (begun o l es) }
    ensures restarted { (o : Opening) (es : List Entry) (e : Entry) (l : ℕ)
        → e.event ≡ events.Restart → IsTrue (is_accepted e.verdict) → begun o l (e ∷ es) ≡ None }
    ensures others { (o : Opening) (es : List Entry) (e : Entry) (l : ℕ)
        → (is_accepted e.verdict && moves_parts l es e.event) ≡ false
        → begun o l (e ∷ es) ≡ begun o l es }
    ensures peers { (h : History) → IsPlayed h → (l : ℕ) → IsTrue
        (list_all (λ r. is_from l h.entries r.pid) (rows_kept (begun h.opening l h.entries))) }
    ensures early { (h : History) → IsPlayed h → (l : ℕ) → is_whole l h.entries ≡ false
        → begun h.opening l h.entries ≡ None }
{}

/// Where further entries take on a link just the parts of a message, in their order, and nothing
/// between them stops its scope or all, that one message stands there, whatever was kept before.
pub fn parts_are_said()
    ensures { (o : Opening) (l : ℕ) (es more : List Entry) (m : Message)
        → AreUndisturbed (scope_of m) more → taken_behind o l es more ≡ parts m
        → messages o l (more ++ es) ≡ m ∷ messages o l es }
{}

/// How often the own processes are joined after an accepted Join, Leave and Exit.
pub fn own_counts()
    ensures joined { (h : History) (e : Entry) (s g : List ℕ) (ps : List Pid)
        → e.event ≡ events.Join s g ps → IsTrue (is_accepted e.verdict) → IsTrue (is_running h s)
        → (t f : List ℕ) (p : Pid)
        → own (just h e) t f p
        ≡ cond (same s t && same g f) (own h t f p + mentions p ps) (own h t f p) }
    ensures left { (h : History) (e : Entry) (s g : List ℕ) (ps : List Pid)
        → e.event ≡ events.Leave s g ps → IsTrue (is_accepted e.verdict)
        → (t f : List ℕ) (p : Pid)
        → own (just h e) t f p
        ≡ cond (same s t && same g f) (own h t f p - mentions p ps) (own h t f p) }
    ensures exited { (h : History) (e : Entry) (q : Pid) → e.event ≡ events.Exit q
        → IsTrue (is_accepted e.verdict)
        → (t f : List ℕ) (p : Pid) → own (just h e) t f p ≡ cond (same_pid q p) 0 (own h t f p) }
{}

/// A node has at most as many own rows in a scope as it may: 65,536 where it knows version 2 and no
/// link of version 1 is told there, else `dist_types::MAX_ROWS`.
pub fn few_own()
    ensures { (h : History) → IsPlayed h → (s : List ℕ)
        → length (local_rows h s) ≤ own_limit h s }
{}

/// How often a process is listed after an accepted event. A Join adds and a Leave takes away, an
/// Exit, a stop and a restart clear, and a link that becomes up, is lost or is disconnected clears
/// what its peer had listed.
pub fn rows_after()
    ensures joined { (h : History) (e : Entry) (s g : List ℕ) (ps : List Pid)
        → IsAccepted h e (events.Join s g ps)
        → (t f : List ℕ) (p : Pid)
        → listed (just h e) t f p
        ≡ cond (same t s) (listed h t f p + cond (same f g) (mentions p ps) 0) (listed h t f p) }
    ensures left { (h : History) (e : Entry) (s g : List ℕ) (ps : List Pid)
        → IsAccepted h e (events.Leave s g ps)
        → (t f : List ℕ) (p : Pid)
        → listed (just h e) t f p
        ≡ cond (same t s) (listed h t f p - cond (same f g) (mentions p ps) 0) (listed h t f p) }
    ensures exited { (h : History) (e : Entry) (q : Pid) → IsAccepted h e (events.Exit q)
        → (t f : List ℕ) (p : Pid)
        → listed (just h e) t f p ≡ cond (same_pid p q) 0 (listed h t f p) }
    ensures started { (h : History) (e : Entry) (s : List ℕ) → IsAccepted h e (events.StartScope s)
        → (t f : List ℕ) (p : Pid) → listed (just h e) t f p ≡ listed h t f p }
    ensures stopped { (h : History) (e : Entry) (s : List ℕ) → IsAccepted h e (events.StopScope s)
        → (t f : List ℕ) (p : Pid) → listed (just h e) t f p ≡ cond (same t s) 0 (listed h t f p) }
    ensures restarted { (h : History) (e : Entry) → IsAccepted h e events.Restart
        → (t f : List ℕ) (p : Pid) → listed (just h e) t f p ≡ 0 }
    ensures opened { (h : History) (e : Entry) (c : ℕ) → IsAccepted h e (events.Opened c)
        → (t f : List ℕ) (p : Pid) → listed (just h e) t f p ≡ listed h t f p }
    ensures dialled { (h : History) (e : Entry) (n : List ℕ) (c : ℕ)
        → IsAccepted h e (events.Dial n c)
        → (t f : List ℕ) (p : Pid) → listed (just h e) t f p ≡ listed h t f p }
    ensures unfinished { (h : History) (e : Entry) (l : ℕ) (body : List ℕ)
        → IsAccepted h e (events.Frame l body) → is_whole l h.entries ≡ false
        → is_last (awaits l h.entries) ≡ false
        → (t f : List ℕ) (p : Pid) → listed (just h e) t f p ≡ listed h t f p }
    ensures up { (h : History) (e : Entry) (l : ℕ) (body n : List ℕ)
        → IsAccepted h e (events.Frame l body) → IsTrue (is_last (awaits l h.entries))
        → peer_of l h.entries ≡ Some n
        → (t f : List ℕ) (p : Pid)
        → listed (just h e) t f p ≡ cond (same p.node n) 0 (listed h t f p) }
    ensures lost { (h : History) (e : Entry) (l : ℕ) (n : List ℕ) → IsAccepted h e (events.Lost l)
        → IsTrue (is_up l h.entries) → peer_of l h.entries ≡ Some n
        → (t f : List ℕ) (p : Pid)
        → listed (just h e) t f p ≡ cond (same p.node n) 0 (listed h t f p) }
    ensures lost_unfinished { (h : History) (e : Entry) (l : ℕ) → IsAccepted h e (events.Lost l)
        → is_up l h.entries ≡ false
        → (t f : List ℕ) (p : Pid) → listed (just h e) t f p ≡ listed h t f p }
    ensures disconnected { (h : History) (e : Entry) (n : List ℕ)
        → IsAccepted h e (events.Disconnect n)
        → (t f : List ℕ) (p : Pid)
        → listed (just h e) t f p ≡ cond (same p.node n) 0 (listed h t f p) }
{}

/// How often a process is listed after an accepted message of a peer: a Sync says all rows of the
/// peer in the scope, a Join adds, a Leave takes away, a Down clears.
pub fn rows_after_messages()
    ensures synced { (h : History) (e : Entry) (l : ℕ) (n s : List ℕ) (rows : List Row)
        → IsMessage h e l n (said.Sync s rows)
        → (t f : List ℕ) (p : Pid)
        → listed (just h e) t f p
        ≡ cond (same t s) (cond (same p.node n) (rows_of f p rows) (listed h t f p))
        (listed h t f p) }
    ensures joined { (h : History) (e : Entry) (l : ℕ) (n s : List ℕ) (rows : List Row)
        → IsMessage h e l n (said.Join s rows)
        → (t f : List ℕ) (p : Pid)
        → listed (just h e) t f p
        ≡ cond (same t s) (listed h t f p + rows_of f p rows) (listed h t f p) }
    ensures left { (h : History) (e : Entry) (l : ℕ) (n s : List ℕ) (rows : List Row)
        → IsMessage h e l n (said.Leave s rows)
        → (t f : List ℕ) (p : Pid)
        → listed (just h e) t f p
        ≡ cond (same t s) (listed h t f p - rows_of f p rows) (listed h t f p) }
    ensures down { (h : History) (e : Entry) (l : ℕ) (n s : List ℕ)
        → IsMessage h e l n (said.Down s)
        → (t f : List ℕ) (p : Pid)
        → listed (just h e) t f p
        ≡ cond (same t s) (cond (same p.node n) 0 (listed h t f p)) (listed h t f p) }
    ensures discovered { (h : History) (e : Entry) (l : ℕ) (n s : List ℕ)
        → IsMessage h e l n (said.Discover s)
        → (t f : List ℕ) (p : Pid) → listed (just h e) t f p ≡ listed h t f p }
{}

/// What `==` finds equal has the same value, and the other way round.
pub fn equal_values()
    ensures events { (a b : Event) → IsTrue (⟦<Event as PartialEq>⟧.eq a b) ↔ (a ≡ b) }
    ensures replies { (a b : Reply) → IsTrue (⟦<Reply as PartialEq>⟧.eq a b) ↔ (a ≡ b) }
    ensures verdicts { (a b : Verdict) → IsTrue (⟦<Verdict as PartialEq>⟧.eq a b) ↔ (a ≡ b) }
{}
