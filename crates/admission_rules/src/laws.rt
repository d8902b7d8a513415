//! Laws of the rules after a change. Each function does nothing; its contract is the law.
ghost use Rattle.std.specs.Prelude.{◌≡◌, ◌≢◌, ◌↔◌, ◌⊎◌, List, ℕ, Contains, length, take};
ghost use Rattle.admission_rules.specs.Admission.{AdmissionRules, cookie_of, peer_cookie, with_cookie_for, with_allowed};

/// A cookie for a peer is that of this peer alone, and a cookie for the own name leaves those of
/// the peers.
#[tactic(auto, using(crate::proofs::Peers::cookie_set, crate::proofs::Peers::cookie_kept, crate::proofs::Peers::peers_kept))]
pub fn cookies_after()
    ensures set { (rules : AdmissionRules) (node cookie : List ℕ)
        → cookie_of (with_cookie_for rules node cookie) node ≡ cookie }
    ensures peer { (rules : AdmissionRules) (node cookie other : List ℕ) → node ≢ rules.own
        → other ≢ node →
        cookie_of (with_cookie_for rules node cookie) other ≡ cookie_of rules other }
    ensures own { (rules : AdmissionRules) (cookie other : List ℕ) →
        peer_cookie (with_cookie_for rules rules.own cookie) other ≡ peer_cookie rules other }
{}

/// Allowed names stay, in their order, and only those of the list come behind them.
#[tactic(auto, using(crate::proofs::NameLists::front_stays))]
pub fn names_after()
    ensures names { (rules : AdmissionRules) (names : List (List ℕ)) (name : List ℕ) →
        Contains (with_allowed rules names).allowed name
        ↔ (Contains rules.allowed name ⊎ Contains names name) }
    ensures order { (rules : AdmissionRules) (names : List (List ℕ)) →
        take (length rules.allowed) (with_allowed rules names).allowed ≡ rules.allowed }
{}
