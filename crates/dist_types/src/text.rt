//! The bytes inside each kind of text, with their limits, copies and comparisons.
ghost use Rattle.std.specs.Prelude.{◌≡◌, ◌∷◌, [], List, ℕ, refl, Some, nat_eq, IfOk, IfErr, OnOk};
ghost use Rattle.std.specs.Arc.{arc_str_bytes};
ghost use Rattle.std.specs.Cmp as laws_of;
ghost use Rattle.std.specs.Cmp.Lexicographic.{pointwise, slice_cmp, nat_list_eq_equiv, nat_list_cmp_total, texts_ties, texts_po};
ghost use Rattle.std.specs.Ordering.{nat_cmp};
ghost use Rattle.std.specs.Cmp.Rules.{hashing};
ghost use Rattle.std.proofs.Common.{rules};
ghost use Rattle.dist_types.specs.Text.{IsText};
ghost use Rattle.dist_types.specs.Fault.{IsByteFault, IsTextFault};

use crate::fault::{OutOfMemory, TextFault};
use crate::items::TryClone;
use std::alloc::Global;
use std::cmp::Ordering;
use std::hash::{Hash, Hasher};
use std::marker::Model;
use std::str;
use std::sync::ArcStr;

/// 1 to 255 visible bytes of ASCII, shared by all copies.
#[derive(Debug)]
pub struct Text {
    text: ArcStr,
}

impl Drop for Text {
    fn drop(self) {
        let Text { text: _ } = self;
    }
}

impl Model for Text {
    ghost Value = { List ℕ };

    ghost view = { λ text. arc_str_bytes text.text };

    ghost invariant = { λ text. IsText (arc_str_bytes text.text) };
}

impl Text {
    pub const MAX_LEN: usize = 255;

    /// Copies 1 to 255 bytes of 0x21 to 0x7E, or answers the first of `Empty`, `TooLong`, `BadByte`
    /// and `OutOfMemory`.
    pub fn parse(alloc: Global, bytes: &[u8]) -> Result<Text, TextFault>
        ensures ok { IfOk result (λ text. (text ≡ bytes.now) × IsText bytes.now) }
        ensures refused { IfErr result (λ fault. IsTextFault fault bytes.now) }
    {
        check_bytes(bytes)?;
        Ok(Text::copied(alloc, bytes)?)
    }

    /// Copies bytes that are known to be within the limits.
    pub fn copied(alloc: Global, bytes: &[u8]) -> Result<Text, OutOfMemory>
        requires { IsText bytes.now }
        ensures { IfOk result (λ text. text ≡ bytes.now) }
    {
        let text = match str::from_utf8(bytes) {
            Ok(text) => ArcStr::from_str(alloc, text)?,
            // It is ASCII.
            Err(_) => unreachable!(),
        };
        Ok(Text { text })
    }

    /// The bytes, as they were read.
    pub fn as_bytes(&self) -> &[u8]
        ensures value { result.now ≡ self.now }
        ensures limits { IsText self.now }
    {
        self.text.as_str().as_bytes()
    }

    /// The same as text: it is ASCII.
    pub fn as_str(&self) -> &str
        ensures { result.now ≡ self.now }
    {
        self.text.as_str()
    }
}

impl TryClone for Text {
    fn try_clone(&self, _alloc: Global) -> Result<Text, OutOfMemory> {
        let text = self.text.clone()?;
        Ok(Text { text })
    }
}

/// Tests the length and then each byte.
pub fn check_bytes(bytes: &[u8]) -> Result<(), TextFault>
    ensures ok { OnOk result (IsText bytes.now) }
    ensures refused { IfErr result (λ fault. IsByteFault fault bytes.now) }
{
    if bytes.is_empty() {
        return Err(TextFault::Empty);
    }
    if bytes.len() > Text::MAX_LEN {
        return Err(TextFault::TooLong);
    }
    if !bytes.iter().all(|byte| byte.is_ascii_graphic()) {
        return Err(TextFault::BadByte);
    }
    Ok(())
}

impl PartialEq for Text {
    ghost eq = { pointwise nat_eq };

    ghost laws = { laws_of.partial_equiv_from_equiv nat_list_eq_equiv };

    fn eq(&self, other: &Text) -> bool {
        self.text == other.text
    }
}

impl Eq for Text {
    ghost laws = { nat_list_eq_equiv };
}

impl PartialOrd for Text {
    ghost partial_cmp = { λ x y. Some (slice_cmp nat_cmp x y) };

    ghost laws = { texts_po };

    fn partial_cmp(&self, other: &Text) -> Option<Ordering> {
        Some(self.cmp(other))
    }
}

impl Ord for Text {
    ghost cmp = { slice_cmp nat_cmp };

    ghost total = { nat_list_cmp_total };

    ghost matches_partial_cmp = { λ x y. refl };

    ghost matches_eq = { λ x y. texts_ties x y };

    fn cmp(&self, other: &Text) -> Ordering {
        self.text.cmp(&other.text)
    }
}

impl Hash for Text {
    ghost hash_input = { λ text. text ∷ [] };

    ghost respects_eq = { Prim.search (hashing, rules) };

    fn hash<H: Hasher>(&self, state: &mut H) {
        // (as a slice it would be hashed byte by byte)
        state.write(self.as_bytes());
    }
}
