//! The seven words of a status frame.
ghost use Rattle.std.specs.Prelude.{◌≡◌};
ghost use Rattle.handshake_frames.specs.Spelling.{status_bytes};

use crate::frame::StatusWord;

pub const WORDS: [StatusWord; 7] = [
    StatusWord::Ok,
    StatusWord::OkSimultaneous,
    StatusWord::Nok,
    StatusWord::NotAllowed,
    StatusWord::Alive,
    StatusWord::True,
    StatusWord::False,
];

/// The body of the word's frame: the kind byte `s` and the word.
pub fn status_body(word: StatusWord) -> &'static [u8]
    ensures { result.now ≡ status_bytes word }
{
    match word {
        StatusWord::Ok => b"sok",
        StatusWord::OkSimultaneous => b"sok_simultaneous",
        StatusWord::Nok => b"snok",
        StatusWord::NotAllowed => b"snot_allowed",
        StatusWord::Alive => b"salive",
        StatusWord::True => b"strue",
        StatusWord::False => b"sfalse",
    }
}
