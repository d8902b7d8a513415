//! The halves of a node's name: EPMD knows the first one, at the host of the second.
ghost use Rattle.std.specs.Prelude.{◌≡◌, ◌≢◌, ◌∷◌, ◌++◌, All, IfSome, IfNone};

/// What stands before the first `@`, and behind it; none where there is no `@`.
pub fn halves(name: &[u8]) -> Option<(&[u8], &[u8])>
    ensures found { IfSome result (λ read. name.now ≡ read.0.now ++ 64 ∷ read.1.now) }
    ensures first { IfSome result (λ read. All (λ b. b ≢ 64) read.0.now) }
    ensures none { IfNone result (All (λ b. b ≢ 64) name.now) }
{
    let at = name.iter().position(|byte| *byte == b'@')?;
    let (alive, rest) = name.split_at_checked(at)?;
    let (first, host) = rest.split_first()?;
    if *first == b'@' {
        Some((alive, host))
    } else {
        None
    }
}
