//! The bytes of a name, by which an allowed name is looked up.
ghost use Rattle.std.specs.Prelude.{◌∷◌, []};
ghost use Rattle.std.specs.Str.{bytes_eq};
ghost use Rattle.std.specs.Cmp.Lexicographic.{nat_list_eq_equiv};
ghost use Rattle.std.specs.Cmp.Rules.{hashing};
ghost use Rattle.std.proofs.Common.{rules};

use dist_types::NodeName;
use indexmap::Equivalent;
use std::hash::{Hash, Hasher};

#[derive(Clone, Copy, PartialEq, Eq)]
pub struct NameBytes<'a>(pub &'a [u8]);

impl Hash for NameBytes<'_> {
    ghost hash_input = { λ name. name.0.now ∷ [] };

    ghost respects_eq = { Prim.search (hashing, rules) };

    // A name of a node is hashed so.
    fn hash<H: Hasher>(&self, state: &mut H) {
        state.write(self.0);
    }
}

impl Equivalent<NodeName> for NameBytes<'_> {
    ghost equivalent = { λ name key. bytes_eq name.0.now key };

    ghost respects_hash = { Prim.search (hashing, rules) };

    ghost respects_eq = { λ name. nat_list_eq_equiv.congr name.0.now };

    fn equivalent(&self, key: &NodeName) -> bool {
        *self.0 == *key.as_bytes()
    }
}
