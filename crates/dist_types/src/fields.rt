//! Big-endian numbers and counted bytes at the front of a body. Each reader gives what it read and
//! what stands behind it.
ghost use Rattle.std.specs.Prelude.{◌≡◌, ◌<◌, ◌^◌, ◌∷◌, ◌++◌, length, ℕ, List, IfSome, IsSomeAnd};
ghost use Rattle.std.specs.Int.{w16, w32, w64, to_be_bytes};

/// The number in the first 2 bytes, the highest first, and what stands behind them; none where
/// fewer stand there. Lengths of frames and of names are written so (Distribution Protocol,
/// Distribution Handshake).
pub fn u16_at(bytes: &[u8]) -> Option<(u16, &[u8])>
    ensures found { IfSome result (λ read. bytes.now ≡ to_be_bytes w16 read.0 ++ read.1.now) }
    ensures only { (n : ℕ) (rest : List ℕ) → n < 2 ^ 16 → bytes.now ≡ to_be_bytes w16 n ++ rest →
        IsSomeAnd result (λ read. (read.0 ≡ n) × (read.1.now ≡ rest)) }
{
    let (front, rest) = bytes.split_first_chunk::<2>()?;
    Some((u16::from_be_bytes(*front), rest))
}

/// The number in the first 4 bytes, the highest first, and what stands behind them; none where
/// fewer stand there. Creations and challenges are written so.
pub fn u32_at(bytes: &[u8]) -> Option<(u32, &[u8])>
    ensures found { IfSome result (λ read. bytes.now ≡ to_be_bytes w32 read.0 ++ read.1.now) }
    ensures only { (n : ℕ) (rest : List ℕ) → n < 2 ^ 32 → bytes.now ≡ to_be_bytes w32 n ++ rest →
        IsSomeAnd result (λ read. (read.0 ≡ n) × (read.1.now ≡ rest)) }
{
    let (front, rest) = bytes.split_first_chunk::<4>()?;
    Some((u32::from_be_bytes(*front), rest))
}

/// The number in the first 8 bytes, the highest first, and what stands behind them; none where
/// fewer stand there. Flags are written so.
pub fn u64_at(bytes: &[u8]) -> Option<(u64, &[u8])>
    ensures found { IfSome result (λ read. bytes.now ≡ to_be_bytes w64 read.0 ++ read.1.now) }
    ensures only { (n : ℕ) (rest : List ℕ) → n < 2 ^ 64 → bytes.now ≡ to_be_bytes w64 n ++ rest →
        IsSomeAnd result (λ read. (read.0 ≡ n) × (read.1.now ≡ rest)) }
{
    let (front, rest) = bytes.split_first_chunk::<8>()?;
    Some((u64::from_be_bytes(*front), rest))
}

/// What stands behind the byte of a frame's kind.
pub fn after_kind(kind: u8, body: &[u8]) -> Option<&[u8]>
    ensures found { IfSome result (λ rest. body.now ≡ kind ∷ rest.now) }
    ensures only { (rest : List ℕ) → body.now ≡ kind ∷ rest
        → IsSomeAnd result (λ read. read.now ≡ rest) }
{
    let (first, rest) = body.split_first()?;
    if *first == kind { Some(rest) } else { None }
}

/// The first `len` bytes.
pub fn bytes_at(len: usize, bytes: &[u8]) -> Option<(&[u8], &[u8])>
    ensures found { IfSome result (λ read. (length read.0.now ≡ len)
        × (bytes.now ≡ read.0.now ++ read.1.now)) }
    ensures only { (front rest : List ℕ) → length front ≡ len → bytes.now ≡ front ++ rest →
        IsSomeAnd result (λ read. (read.0.now ≡ front) × (read.1.now ≡ rest)) }
{
    bytes.split_at_checked(len)
}
