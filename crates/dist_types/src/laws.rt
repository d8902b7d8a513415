//! Laws of faults, orders, equality and listings. Each function does nothing; its contract is the
//! law.
ghost use Rattle.std.specs.Prelude.{◌≡◌, ◌↔◌, ◌<◌, List, ℕ, IsTrue};
ghost use Rattle.dist_types.specs.declared.fault.TextFault.{TextFault};
ghost use Rattle.dist_types.specs.declared.flags.Flags.{Flags};
ghost use Rattle.dist_types.specs.declared.pid.Pid.{Pid};
ghost use Rattle.dist_types.specs.declared.row.Row.{Row};
ghost use Rattle.dist_types.specs.declared.change.GroupChange.{GroupChange};
ghost use Rattle.dist_types.specs.Text.{IsText, IsNodeName, is_text, is_node_name};
ghost use Rattle.dist_types.specs.Fault.{IsTextFault, IsNameFault};
ghost use Rattle.dist_types.specs.Order.{text_cmp, pid_cmp, row_cmp};
ghost use Rattle.dist_types.specs.Listing.{same_pid, same_row, stands_in, listing, IsPidListing, IsRowListing, IsGroupListing};

use crate::change::GroupChange;
use crate::cookie::Cookie;
use crate::flags::Flags;
use crate::group::Group;
use crate::node_name::NodeName;
use crate::pid::Pid;
use crate::row::Row;
use crate::scope::Scope;

/// Bytes have at most one fault as a name, and at most one as another text.
pub fn one_fault()
    ensures names { (f g : TextFault) (bytes : List ℕ) → IsNameFault f bytes → IsNameFault g bytes
        → f ≡ g }
    ensures texts { (f g : TextFault) (bytes : List ℕ) → IsTextFault f bytes → IsTextFault g bytes
        → f ≡ g }
{}

/// The limits of the texts are tests that compute.
pub fn limits_compute()
    ensures texts { (bytes : List ℕ) → IsTrue (is_text bytes) ↔ IsText bytes }
    ensures names { (bytes : List ℕ) → IsTrue (is_node_name bytes) ↔ IsNodeName bytes }
{}

/// Texts are ordered by their bytes.
pub fn order_of_texts()
    ensures names { (a b : List ℕ) → ⟦<NodeName as Ord>⟧.cmp a b ≡ text_cmp a b }
    ensures scopes { (a b : List ℕ) → ⟦<Scope as Ord>⟧.cmp a b ≡ text_cmp a b }
    ensures groups { (a b : List ℕ) → ⟦<Group as Ord>⟧.cmp a b ≡ text_cmp a b }
    ensures cookies { (a b : List ℕ) → ⟦<Cookie as Ord>⟧.cmp a b ≡ text_cmp a b }
{}

/// Processes are ordered by the bytes of the name, the creation and the number.
pub fn order_of_pids()
    ensures { (a b : Pid) → ⟦<Pid as Ord>⟧.cmp a b ≡ pid_cmp a b }
{}

/// Rows are ordered by the bytes of the group, and then by the process.
pub fn order_of_rows()
    ensures { (a b : Row) → ⟦<Row as Ord>⟧.cmp a b ≡ row_cmp a b }
{}

/// What `==` finds equal has the same value, and the other way round.
#[tactic(auto, using(crate::proofs::Exact::exact))]
pub fn equal_values()
    ensures names { (a b : List ℕ) → IsTrue (⟦<NodeName as PartialEq>⟧.eq a b) ↔ (a ≡ b) }
    ensures scopes { (a b : List ℕ) → IsTrue (⟦<Scope as PartialEq>⟧.eq a b) ↔ (a ≡ b) }
    ensures groups { (a b : List ℕ) → IsTrue (⟦<Group as PartialEq>⟧.eq a b) ↔ (a ≡ b) }
    ensures cookies { (a b : List ℕ) → IsTrue (⟦<Cookie as PartialEq>⟧.eq a b) ↔ (a ≡ b) }
    ensures flags { (a b : Flags) → IsTrue (⟦<Flags as PartialEq>⟧.eq a b) ↔ (a ≡ b) }
    ensures pids { (a b : Pid) → IsTrue (⟦<Pid as PartialEq>⟧.eq a b) ↔ (a ≡ b) }
    ensures rows { (a b : Row) → IsTrue (⟦<Row as PartialEq>⟧.eq a b) ↔ (a ≡ b) }
    ensures changes { (a b : GroupChange) → IsTrue (⟦<GroupChange as PartialEq>⟧.eq a b) ↔ (a ≡ b) }
{}

/// A count has one listing.
pub fn one_listing()
    ensures pids { (count : Pid → ℕ) (ps qs : List Pid) → IsPidListing count ps
        → IsPidListing count qs → ps ≡ qs }
    ensures rows { (count : List ℕ → Pid → ℕ) (rs ss : List Row) → IsRowListing count rs
        → IsRowListing count ss → rs ≡ ss }
    ensures groups { (count : List ℕ → Pid → ℕ) (gs hs : List (List ℕ)) → IsGroupListing count gs
        → IsGroupListing count hs → gs ≡ hs }
{}

/// A listing is computed from its count and a list that names all that are counted.
pub fn listing_of_named()
    ensures pids { (count : Pid → ℕ) (ps named : List Pid) → IsPidListing count ps
        → ((p : Pid) → 0 < count p → IsTrue (stands_in same_pid p named))
        → ps ≡ listing pid_cmp count named }
    ensures rows { (count : List ℕ → Pid → ℕ) (rs named : List Row) → IsRowListing count rs
        → ((r : Row) → 0 < count r.group r.pid → IsTrue (stands_in same_row r named))
        → rs ≡ listing row_cmp (λ r. count r.group r.pid) named }
{}
