//! Laws of the handshake. Each function does nothing; its contract is the law.
ghost use Rattle.std.specs.Prelude.{◌≡◌, ◌<◌, ◌^◌, ◌∷◌, [], ℕ, List, Some, false};
ghost use Rattle.handshake_frames.specs.Frame.{Name, Challenge};
ghost use Rattle.handshake_frames.specs.Reading.{name_frame, challenge_frame, reply_frame, ack_frame};
ghost use Rattle.admission_rules.specs.Admission.{AdmissionRules};
ghost use Rattle.link_states.specs.declared.pending.Pending.{Pending};
ghost use Rattle.link_states.specs.Checks.{PassesAll, name_checks, challenge_checks, reply_checks, ack_checks, outranks};
ghost use Rattle.link_states.specs.Frames.{own_name, own_challenge, reply_owed, ack_owed};
ghost use Rattle.link_states.specs.Meeting.{MayDial};
ghost use Rattle.link_states.specs.Peer.{link_version};

/// The frames of one end but for the status break no rule at the other, where both have the same
/// cookie, the acceptor allows the dialler and no own dial of it goes on in place of the other; and
/// both take the same version from them.
pub fn ends_agree()
    ensures name { (a b : AdmissionRules) (pending : Pending) → MayDial a b
        → outranks b pending a.own ≡ false →
        PassesAll (name_checks b pending (name_frame (own_name a))) }
    ensures challenge { (a b : AdmissionRules) (number : ℕ) → MayDial a b → number < 2 ^ 32 →
        PassesAll (challenge_checks b.own (challenge_frame (own_challenge b number))) }
    ensures reply { (a b : AdmissionRules) (own peers : ℕ) (body : List ℕ) → MayDial a b
        → own < 2 ^ 32 →
        reply_owed a b.own own peers ≡ body ∷ []
        → PassesAll (reply_checks b a.own peers (reply_frame body)) }
    ensures ack { (a b : AdmissionRules) (peers : ℕ) (body : List ℕ) → MayDial a b →
        ack_owed b a.own peers ≡ body ∷ [] → PassesAll (ack_checks a b.own peers (ack_frame body)) }
    ensures version { (a b : AdmissionRules) (number : ℕ) (name : Name) (challenge : Challenge)
        → MayDial a b → number < 2 ^ 32 →
        name_frame (own_name a) ≡ Some name → challenge_frame (own_challenge b number)
        ≡ Some challenge →
        link_version a challenge.version ≡ link_version b name.version }
{}
