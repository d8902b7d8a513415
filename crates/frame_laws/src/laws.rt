//! Laws of what a node owes to a link over its whole life. Each function does nothing; its contract
//! is the law.
ghost use Rattle.std.specs.Prelude.{◌≡◌, ℕ, ◌≤◌, ◌<◌, false, List, [], ◌++◌, ◌∷◌, Some, length};
ghost use Rattle.std.specs.Prelude.{slice_get, take, IsTrue};
ghost use Rattle.std.specs.List.{AllByRecursion};
ghost use Rattle.dist_types.specs.declared.pid.Pid.{Pid};
ghost use Rattle.dist_types.specs.Listing.{same};
ghost use Rattle.policy_audit.specs.declared.event.Event.TheVariants as events;
ghost use Rattle.policy_audit.specs.declared.entry.Entry.{Entry};
ghost use Rattle.policy_audit.specs.OutFrame.{OutFrame};
ghost use Rattle.handshake_frames.specs.Frame.{Challenge};
ghost use Rattle.link_frames.specs.declared.part.Message2.{Message2};
ghost use Rattle.link_frames.specs.Parts.{Begun, KeepsOrNot};
ghost use Rattle.handshake_frames.specs.Reading.{name_frame, challenge_frame};
ghost use Rattle.policy_audit.specs.History.{History, creation, entered, is_accepted, just};
ghost use Rattle.policy_audit.specs.Sides.{ByPeer, ByDial, Opened, opened, is_visible, is_whole};
ghost use Rattle.policy_audit.specs.Links.{is_open, is_up};
ghost use Rattle.policy_audit.specs.Own.{is_running, own};
ghost use Rattle.policy_audit.specs.declared.opening.Opening.{Opening};
ghost use Rattle.policy_audit.specs.Hearing.{begun, frame_taken, message_taken, heard, told};
ghost use Rattle.policy_audit.specs.Hearing.{stated};
ghost use Rattle.policy_audit.specs.Listed.{listed};
ghost use Rattle.policy_audit.specs.Owed.{waiting};
ghost use Rattle.policy_audit.specs.Policy.{IsPlayed, is_full, verdict};
ghost use Rattle.frame_laws.specs.Sent.{Owing, out, source_at, frames_of, bodies_of, sent, delivered};
ghost use Rattle.frame_laws.specs.Honest.{IsHonest, HasGiven, HeardIsSaid};
ghost use Rattle.frame_laws.specs.ToldRows.{told_rows, Falls};
ghost use Rattle.frame_laws.specs.MaySay.{MaySay};
ghost use Rattle.frame_laws.specs.Says.{SaysOne, is_of, scope_in};
ghost use Rattle.frame_laws.specs.Spoken.{begun_of, Speaks};
ghost use Rattle.frame_laws.specs.BegunAt.{IsBegun};
ghost use Rattle.frame_laws.specs.Given.{IsNamedFirst, IsAskedOnce};
ghost use Rattle.frame_laws.specs.HeardMoment.{HearsMoment};
ghost use Rattle.frame_laws.specs.Hellos.{own_hello, hello_in, opening_of};
ghost use Rattle.frame_laws.specs.Written.{IsNode};
ghost use Rattle.frame_laws.specs.Views.{seen_by, PassesThrough};
ghost use Rattle.frame_laws.specs.Known.{known, message_at};
ghost use Rattle.frame_laws.specs.Moments.{moment, IsProvedLink};

/// What was handed out is the beginning of what was owed, and while the link is open, what waits is
/// the rest.
pub fn handed_in_order()
    ensures order { (h : History) → IsPlayed h → (l : ℕ)
        → (rest : List OutFrame) × (sent l h.entries ++ rest ≡ frames_of (out h l)) }
    ensures waiting { (h : History) → IsPlayed h → (l : ℕ) → IsTrue (is_open l h.entries)
        → sent l h.entries ++ waiting h l ≡ frames_of (out h l) }
{}

/// The source of a frame is an entry, and a later frame has no earlier source.
pub fn sources_rise()
    ensures within { (h : History) → IsPlayed h → (l n k : ℕ) → source_at n (out h l) ≡ Some k
        → (1 ≤ k) × (k ≤ entered h.entries) }
    ensures rise { (h : History) → IsPlayed h → (l m n j k : ℕ) → m ≤ n
        → source_at m (out h l) ≡ Some j → source_at n (out h l) ≡ Some k → j ≤ k }
{}

/// A message is owed only after the link was proved, with no restart since.
pub fn said_once_up()
    ensures { (h : History) → IsPlayed h → (l n : ℕ) (x : Owing) → slice_get (out h l) n ≡ Some x
        → IsTrue x.frame.wide → IsProvedLink (moment x.source h) l }
{}

/// A link speaks one version of link messages whenever its side is whole.
pub fn one_version()
    ensures { (h : History) → IsPlayed h → (l : ℕ) → (version : ℕ) × Speaks h.opening l version
        h.entries }
{}

/// Every frame that a node owes on a link is one of the handshake, whose body spells no message, or
/// a message, or a part of one, that is read as it was meant in the version that the link speaks.
/// The rows of a message are of the node's own name, and of its creation at the opening of the
/// link.
pub fn frames_say()
    ensures one { (h : History) → IsNode h → (l version : ℕ) → Speaks h.opening l version h.entries
        → (n : ℕ) (x : Owing) → slice_get (out h l) n ≡ Some x → SaysOne version x.frame }
    ensures own { (h : History) → IsNode h → (l version : ℕ) → Speaks h.opening l version h.entries
        → (n : ℕ) (x : Owing) (m : Message2)
        → slice_get (out h l) n ≡ Some x → message_taken version x.frame.body ≡ Some m
        → IsTrue (is_of h.opening.name (creation (moment l h)) m) }
{}

/// The frames owed to a link pass through the node's own rows: behind the last part of each Sync,
/// Join and Leave of a scope the view that they make is the own rows at the moment of its source,
/// and while the peer is told, behind all of them it is the own rows of now. With the rows of a
/// message so far there are at no part more than may be, and a Leave takes away what is there.
pub fn owed_rows()
    ensures { (h : History) → IsNode h → (l version : ℕ) → Speaks h.opening l version h.entries
        → (s : List ℕ) → PassesThrough version h l s }
{}

/// What a node says of itself: its own flags, its name, its version of link messages, and its
/// creation at the opening of the link. On a link that it dialled the first frame is a Name that
/// says so, and on a link that a peer opened each Challenge says so.
pub fn hellos()
    ensures dialled { (h : History) → IsNode h → (l : ℕ) (n : List ℕ) (c : ℕ)
        → opening_of l h.entries ≡ Some (ByDial n c)
        → (x : Owing) × (slice_get (out h l) 0 ≡ Some x)
        × (name_frame x.frame.body ≡ Some (own_hello (moment l h))) }
    ensures opened { (h : History) → IsNode h → (l c : ℕ) → opening_of l h.entries ≡ Some (ByPeer c)
        → (n : ℕ) (x : Owing) (f : Challenge) → slice_get (out h l) n ≡ Some x
        → challenge_frame x.frame.body ≡ Some f → hello_in f ≡ own_hello (moment l h) }
{}

/// While a peer is heard, what is known of its rows over a link is what the messages accepted there
/// make of it.
pub fn stated_after()
    ensures { (h : History) (e : Entry) → IsPlayed (just h e) → (l : ℕ) (s g : List ℕ) (p : Pid)
        → IsTrue (heard h.opening l s (e ∷ h.entries))
        → known h.opening l s g p (e ∷ h.entries)
        ≡ seen_by s g p (message_at h.opening l h.entries e.verdict e.event)
        (known h.opening l s g p h.entries) }
{}

/// Where a peer is heard in a scope, the scope runs, and the link is up and visible.
pub fn who_is_heard()
    ensures runs { (h : History) → IsPlayed h → (l : ℕ) (s : List ℕ)
        → IsTrue (heard h.opening l s h.entries)
        → IsTrue (is_running h s) }
    ensures up { (h : History) → IsPlayed h → (l : ℕ) (s : List ℕ)
        → IsTrue (heard h.opening l s h.entries)
        → IsTrue (is_up l h.entries) }
    ensures visible { (h : History) → IsPlayed h → (l : ℕ) (s : List ℕ)
        → IsTrue (heard h.opening l s h.entries) → IsTrue (is_visible h l) }
{}

/// A message, or a part of one, of a peer that is heard in its scope is accepted while the audit
/// isn't full, if its part is the next one, its rows are from the peer, a Leave names so far no row
/// more often than the link has stated it, with a Join so far no more are stated than the peer may
/// have, nor are there more in a Sync so far; and a Discover, if the own rows can be told to who
/// asks.
pub fn heard_accepts()
    ensures { (h : History) → IsPlayed h → is_full h ≡ false
        → (l seat : ℕ) (body : List ℕ) (m : Message2)
        → frame_taken h.opening l h.entries body ≡ Some m
        → IsTrue (heard h.opening l (scope_in m) h.entries) → MaySay h l m
        → IsTrue (is_accepted (verdict h seat (events.Frame l body))) }
{}

/// The places of told rows fall, and each is the place of a frame that came.
pub fn told_in_order()
    ensures fall { (o : Opening) (l : ℕ) (s : List ℕ) (es : List Entry)
        → Falls (told_rows o l s es) }
    ensures came { (o : Opening) (l : ℕ) (s : List ℕ) (es : List Entry)
        → AllByRecursion (λ n. n < length (delivered l es)) (told_rows o l s es) }
{}

/// At each moment the history was legal, and a node's.
pub fn moments_stand()
    ensures legal { (h : History) → IsPlayed h → (k : ℕ) → IsPlayed (moment k h) }
    ensures node { (h : History) → IsNode h → (k : ℕ) → IsNode (moment k h) }
{}

/// What a node owes to a link is honest, and so is each beginning of it.
pub fn honest()
    ensures owed { (h : History) → IsNode h → (l version : ℕ) → Speaks h.opening l version h.entries
        → (s : List ℕ) → IsHonest version h.opening.name (creation (moment l h)) s (bodies_of (out
        h l)) }
    ensures first { (version : ℕ) (name : List ℕ) (creation : ℕ) (s : List ℕ) (bodies later : List
        (List ℕ))
        → IsHonest version name creation s (bodies ++ later) → IsHonest version name creation s
        bodies }
{}

/// What is begun at a place in what a node owed is the first parts of one message, and the rest of
/// them stand right behind that place.
pub fn begun_in_parts()
    ensures { (h : History) → IsNode h → (l version : ℕ) → Speaks h.opening l version h.entries
        → (n : ℕ) (b : Begun) → begun_of version (take n (bodies_of (out h l))) ≡ Some b
        → IsBegun version (bodies_of (out h l)) n b }
{}

/// What is heard is what was said: where all that came on a link is honest in the version that the
/// link speaks, and its peer has given the name and the creation of the node that said it, the view
/// of all that came is what the link has stated, while the peer is heard; and so it was behind the
/// last told rows.
pub fn heard_is_said()
    ensures { (h : History) → IsPlayed h → (l version : ℕ) → Speaks h.opening l version h.entries
        → (s name : List ℕ) (creation : ℕ)
        → IsHonest version name creation s (delivered l h.entries)
        → HasGiven l name creation h.entries → IsTrue (heard h.opening l s h.entries)
        → HeardIsSaid version h l s }
{}

/// What a link that is up keeps of a message begun is nothing, or what all that came there makes,
/// where that is honest.
pub fn kept_is_said()
    ensures { (h : History) → IsPlayed h → (l version : ℕ) → Speaks h.opening l version h.entries
        → (name : List ℕ) (creation : ℕ)
        → ((s : List ℕ) → IsHonest version name creation s (delivered l h.entries))
        → HasGiven l name creation h.entries → IsTrue (is_up l h.entries)
        → KeepsOrNot (begun h.opening l h.entries) (begun_of version (delivered l h.entries)) }
{}

/// What the peer of a whole link has given came there: in the first frame, if it opened the link,
/// and in a Challenge, if it was dialled.
pub fn given_came()
    ensures opened { (h : History) → IsPlayed h → (l c : ℕ) (before : List Entry)
        → opened l h.entries ≡ Some (record { start = ByPeer c; before = before })
        → delivered l before ≡ [] → IsTrue (is_whole l h.entries) → IsNamedFirst l h.entries }
    ensures dialled { (h : History) → IsPlayed h
        → (l : ℕ) (n : List ℕ) (c : ℕ) (before : List Entry)
        → opened l h.entries ≡ Some (record { start = ByDial n c; before = before })
        → IsTrue (is_whole l h.entries) → IsAskedOnce l n h.entries }
    ensures once { (l : ℕ) (es : List Entry) (x : Opened) → opened l es ≡ Some x
        → opening_of l es ≡ Some x.start }
{}

/// Two nodes and one wire between them, of which this alone is known: both ends spoke one version
/// of link messages, on link b of the receiver came a beginning of what the sender owes to its link
/// a, and the peer of b has given the sender's name and its creation at the opening of a. While the
/// receiver hears a scope there, it has stated the sender's own rows at one moment, and lists them
/// so; and where all that is owed came, and the sender tells, its own rows of now.
pub fn one_view()
    ensures moment { (sender receiver : History) → IsNode sender → IsPlayed receiver
        → (a b version : ℕ) → Speaks sender.opening a version sender.entries
        → Speaks receiver.opening b version receiver.entries
        → (s : List ℕ) (later : List (List ℕ))
        → delivered b receiver.entries ++ later ≡ bodies_of (out sender a)
        → HasGiven b sender.opening.name (creation (moment a sender)) receiver.entries
        → IsTrue (heard receiver.opening b s receiver.entries) → HearsMoment sender a receiver b s }
    ensures now { (sender receiver : History) → IsNode sender → IsPlayed receiver
        → (a b version : ℕ) → Speaks sender.opening a version sender.entries
        → Speaks receiver.opening b version receiver.entries → (s : List ℕ)
        → delivered b receiver.entries ≡ bodies_of (out sender a)
        → HasGiven b sender.opening.name (creation (moment a sender)) receiver.entries
        → IsTrue (heard receiver.opening b s receiver.entries)
        → IsTrue (told sender.opening a s sender.entries) → (g : List ℕ) (p : Pid)
        → stated receiver.opening b s g p receiver.entries ≡ own sender s g p }
    ensures listed_now { (sender receiver : History) → IsNode sender → IsPlayed receiver
        → (a b version : ℕ) → Speaks sender.opening a version sender.entries
        → Speaks receiver.opening b version receiver.entries → (s : List ℕ)
        → delivered b receiver.entries ≡ bodies_of (out sender a)
        → HasGiven b sender.opening.name (creation (moment a sender)) receiver.entries
        → IsTrue (heard receiver.opening b s receiver.entries)
        → IsTrue (told sender.opening a s sender.entries) → (g : List ℕ) (p : Pid)
        → IsTrue (same p.node sender.opening.name)
        → listed receiver s g p ≡ own sender s g p }
{}
