//! The lines of a script, and the words of a line.
ghost use Rattle.std.specs.Prelude.{◌≡◌, ◌∷◌, [], IfSome, IsNone, Some, None};
ghost use Rattle.std.specs.Io.BufRead.{strip_last};
ghost use Rattle.std.specs.Str.{bytes_eq};
ghost use Rattle.pg_text.specs.Lines.{words_of, is_quiet, only_of};
ghost use Rattle.pg_text.specs.WordsLeft.{words_left};

/// A line without the line feed at its end.
pub fn without_feed(line: &[u8]) -> &[u8]
    ensures { result.now ≡ strip_last 10 line.now }
{
    match line.split_last() {
        Some((last, front)) if *last == b'\n' => front,
        _ => line,
    }
}

/// Whether a line gives no answer.
pub fn is_quiet(line: &[u8]) -> bool
    ensures { result ≡ is_quiet line.now }
{
    match line.first() {
        Some(first) => *first == b'#',
        None => true,
    }
}

/// Whether a word is this one.
pub fn is(word: &[u8], text: &str) -> bool
    ensures { result ≡ bytes_eq word.now text.now }
{
    word == text.as_bytes()
}

/// The first word, and what stands behind the space after it.
pub fn first_word(line: &[u8]) -> (&[u8], Option<&[u8]>)
    ensures { words_of line.now ≡ result.0.now ∷ words_left result.1 }
{
    for (i, byte) in line.iter().enumerate() {
        if *byte == b' ' {
            return (&line[..i], Some(&line[i + 1..]));
        }
    }
    (line, None)
}

/// The next word, where there is one.
pub fn next_word(rest: Option<&[u8]>) -> Option<(&[u8], Option<&[u8]>)>
    ensures found { IfSome result (λ read. words_left rest.entry ≡ read.0.now ∷ words_left read.1) }
    ensures ended { IsNone result → words_left rest.entry ≡ [] }
{
    let line = rest?;
    Some(first_word(line))
}

/// The only word that is left.
#[tactic(auto, using(crate::proofs::LineLemmas::only_words))]
pub fn only_word(rest: Option<&[u8]>) -> Option<&[u8]>
    ensures found { IfSome result (λ word. only_of (words_left rest.entry) ≡ Some word.now) }
    ensures none { IsNone result → only_of (words_left rest.entry) ≡ None }
{
    let word = rest?;
    if word.contains(&b' ') {
        return None;
    }
    Some(word)
}
