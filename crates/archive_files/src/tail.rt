//! The end of a file, where a line may have been torn.
ghost use Rattle.std.specs.Prelude.{◌≡◌, ◌≢◌, ◌-◌, ◌<◌, ◌≤◌, length, drop, slice_index, All};

/// How many of these bytes stand behind the last line feed; all, if there is none.
pub fn torn(bytes: &[u8]) -> usize
    ensures within { result ≤ length bytes.now }
    ensures behind { All (λ byte. byte ≢ 10) (drop (length bytes.now - result) bytes.now) }
    ensures at { result < length bytes.now → slice_index bytes.now (length bytes.now - result - 1)
        ≡ 10 }
{
    match bytes.iter().rposition(|byte| *byte == b'\n') {
        Some(place) => bytes.len() - place - 1,
        None => bytes.len(),
    }
}
