use cookie_digest::*;
use dist_types::Cookie;
use rand_chacha::ChaCha20Rng;
use rand_core::SeedableRng;
use std::alloc::Global;

/// A cookie, the number of a challenge, and the digest that answers it.
struct Answered {
    cookie: &'static [u8],
    number: u32,
    answer: u128,
}

static ANSWERED: [Answered; 5] = [
    Answered {
        cookie: b"1234567890123456789012345678901234567890123456789012345678901234567890",
        number: 1234567890,
        answer: 0x57edf4a22be3c955ac49da2e2107b67a,
    },
    Answered {
        cookie: b"abc",
        number: 123,
        answer: 0xe99a18c428cb38d5f260853678922e03,
    },
    Answered {
        cookie: b"password",
        number: 123,
        answer: 0x482c811da5d5b4bc6d497ffa98491e38,
    },
    Answered {
        cookie: b"abc",
        number: 0,
        answer: 0x577571be4de9dcce85a041ba0410f29f,
    },
    Answered {
        cookie: b"abc",
        number: 4294967295,
        answer: 0xbeec35cc2e8e170d9c45291c5c1eb475,
    },
];

fn accepts(cookie: &Cookie, number: u32, answer: [u8; 16]) -> bool {
    match Challenge::new(number).check(cookie, answer) {
        Ok(proof) => proof.number() == number,
        Err(_) => false,
    }
}

fn refuses(cookie: &Cookie, number: u32, answer: [u8; 16]) -> bool {
    let challenge = Challenge::new(number);
    let is_numbered = challenge.number() == number;
    is_numbered & challenge.check(cookie, answer).is_err()
}

/// Whether the answer is that to the number, and not to another.
fn is_answer(cookie: &Cookie, number: u32, answer: [u8; 16]) -> bool {
    digest(cookie, number) == answer
        && accepts(cookie, number, answer)
        && refuses(cookie, number ^ 1, answer)
}

fn is_answered(alloc: Global, row: &Answered) -> bool {
    match Cookie::parse(alloc, row.cookie) {
        Ok(cookie) => is_answer(&cookie, row.number, row.answer.to_be_bytes()),
        Err(_) => false,
    }
}

#[test]
fn answers_as_other_nodes_do(rt: HostRuntime) {
    for row in &ANSWERED {
        assert!(rt; is_answered(rt.alloc(), row), "at {}", row.number);
        Challenge::new(row.number).discard();
    }
}

/// The first words of ChaCha20's key stream with a key and a nonce of zeros (RFC 8439, appendix
/// A.1).
static WORDS: [u32; 4] = [0xade0b876, 0x903df1a0, 0xe56a5d40, 0x28bd8653];

fn draws(source: &mut ChallengeSource<ChaCha20Rng>, words: &[u32]) -> bool {
    for word in words {
        if source.draw() != *word {
            return false;
        }
    }
    true
}

#[test]
fn draws_the_words_of_its_generator(rt: HostRuntime) {
    let mut source = ChallengeSource::new(ChaCha20Rng::from_seed([0; 32]));
    assert!(rt; draws(&mut source, &WORDS));
}
