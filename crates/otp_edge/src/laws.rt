//! Laws of what is carried. Each function does nothing; its contract is the law.
ghost use Rattle.std.specs.Prelude.{◌≡◌, ℕ, List, IfSome};
ghost use Rattle.otp_edge.specs.Groups.{IsTermOf};
ghost use Rattle.otp_edge.specs.HeardWords.{heard_said, IsWordOf};
ghost use Rattle.otp_edge.specs.ScopeEdges.{Seen};
ghost use Rattle.otp_edge.specs.declared.meaning.Said.{Said};
ghost use Rattle.otp_edge.specs.declared.scope_edge.Run.{Run};

/// A text names one term, and a term has one text.
pub fn one_term_of_a_text()
    ensures terms { (group s t : List ℕ) → IsTermOf s group → IsTermOf t group → s ≡ t }
    ensures texts { (term g h : List ℕ) → IsTermOf term g → IsTermOf term h → g ≡ h }
{}

/// What is handed in is what was said, with all its rows: a leave is cut to what is listed then.
pub fn only_what_was_said()
    ensures { (run : Run) (said : Said) (seen : Seen) →
        IfSome (heard_said run said seen).word (IsWordOf said) }
{}
