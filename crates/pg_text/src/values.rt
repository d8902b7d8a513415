//! The numbers, processes and bytes that a word says.
ghost use Rattle.std.specs.Prelude.{◌≡◌, IfSome, IsNone, Some, None};
ghost use Rattle.pg_text.specs.Words.{long_number_of, number_of, cut_of};

use itoa::Buffer;

/// The number of 64 bits that a word says in decimal, with no sign and no needless zero.
pub fn long_number(word: &[u8]) -> Option<u64>
    ensures { result ≡ long_number_of word.now }
{
    let Ok(text) = str::from_utf8(word) else {
        return None;
    };
    let Ok(number) = text.parse::<u64>() else {
        return None;
    };
    let mut digits = Buffer::new();
    if digits.format(number).as_bytes() == word {
        Some(number)
    } else {
        None
    }
}

/// The same with 32 bits.
pub fn number(word: &[u8]) -> Option<u32>
    ensures { result ≡ number_of word.now }
{
    let number = long_number(word)?;
    u32::try_from(number).ok()
}

/// What stands before the last slash, and what stands behind it.
pub fn cut(word: &[u8]) -> Option<(&[u8], &[u8])>
    ensures found { IfSome result (λ parts. cut_of word.now ≡ Some (parts.0.now, parts.1.now)) }
    ensures none { IsNone result → cut_of word.now ≡ None }
{
    for past in 0..word.len() {
        let i = word.len() - 1 - past;
        if word[i] == b'/' {
            return Some((&word[..i], &word[i + 1..]));
        }
    }
    None
}
