//! What each answer of EPMD begins with.
ghost use Rattle.std.specs.Prelude.{◌≡◌, ◌∷◌, IfOk, IfErr};
ghost use Rattle.epmd.specs.Head.{IsHeadFault};

use crate::fault::EpmdFault;

/// What stands behind the code 0 of an answer of this kind.
pub fn behind_code(kind: u8, bytes: &[u8]) -> Result<&[u8], EpmdFault>
    ensures found { IfOk result (λ rest. bytes.now ≡ kind ∷ 0 ∷ rest.now) }
    ensures refused { IfErr result (λ fault. IsHeadFault fault kind bytes.now) }
{
    let Some((first, rest)) = bytes.split_first() else {
        return Err(EpmdFault::Short);
    };
    if *first != kind {
        return Err(EpmdFault::NoAnswer);
    }
    let Some((code, rest)) = rest.split_first() else {
        return Err(EpmdFault::Short);
    };
    if *code != 0 {
        return Err(EpmdFault::Refused);
    }
    Ok(rest)
}
