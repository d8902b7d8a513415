//! What a list of further names makes of the names that are allowed.
ghost use Rattle.std.specs.Prelude.{◌≡◌, ◌↔◌, ◌<◌, ◌≤◌, length, take, not, IsTrue, OnOk, OnErr};
ghost use Rattle.std.specs.List.{list_any};
ghost use Rattle.std.specs.Str.{bytes_eq};
ghost use Rattle.indexmap.specs.IndexSet.{insert_all};
ghost use Rattle.admission_rules.specs.Admission.{max_allowed};

use dist_types::{NodeName, OutOfMemory, TryClone};
use indexmap::IndexSet;

const MAX_ALLOWED: usize = 1024;

/// Whether more names than the limit would be allowed.
#[tactic(auto, using(crate::proofs::NameLists::insert_all_more, crate::proofs::NameLists::length_inserted))]
pub fn is_past_limit(allowed: &IndexSet<NodeName>, names: &[NodeName]) -> bool
    requires { length allowed.now.keys ≤ max_allowed }
    ensures { IsTrue result
        ↔ (max_allowed < length (insert_all bytes_eq allowed.now.keys names.now)) }
{
    let mut room = MAX_ALLOWED - allowed.len();
    if names.len() <= room {
        return false;
    }
    for (i, name) in names.iter().enumerate() {
        if is_new(allowed, &names[..i], name) {
            if room == 0 {
                return true;
            }
            room -= 1;
        }
    }
    false
}

/// Whether a name is neither allowed nor among those before it.
#[tactic(auto, using(crate::proofs::NameLists::has_inserted))]
fn is_new(allowed: &IndexSet<NodeName>, before: &[NodeName], name: &NodeName) -> bool
    ensures { result
        ≡ not (list_any (bytes_eq name.now) (insert_all bytes_eq allowed.now.keys before.now)) }
{
    !allowed.contains(name) && !before.contains(name)
}

/// Adds the names that aren't there yet, up to the first for which there is no memory.
#[tactic(auto, using(crate::proofs::NameLists::front_stays))]
pub fn add_all(allowed: &mut IndexSet<NodeName>, names: &[NodeName]) -> Result<(), OutOfMemory>
    ensures ok { OnOk result (allowed.new.keys ≡ insert_all bytes_eq allowed.old.keys names.now) }
    ensures front { OnErr result (take (length allowed.old.keys) allowed.new.keys
        ≡ allowed.old.keys) }
{
    let alloc = *allowed.allocator();
    for name in names {
        allowed.insert(name.try_clone(alloc)?)?;
    }
    Ok(())
}
