//! The faults of each text, and what is printed. What can't be made for want of memory is None; the
//! assertions stand in the tests.
use crate::made::cookie_of;
use dist_types::*;
use std::alloc::Global;

/// Bytes, and their faults as a name, and as a scope, a group or a cookie.
struct Text {
    what: &'static str,
    bytes: &'static [u8],
    of_name: Option<TextFault>,
    of_others: Option<TextFault>,
}

const EMPTY: Option<TextFault> = Some(TextFault::Empty);

const TOO_LONG: Option<TextFault> = Some(TextFault::TooLong);

const BAD_BYTE: Option<TextFault> = Some(TextFault::BadByte);

const BAD_AT: Option<TextFault> = Some(TextFault::BadAt);

/// A name of 255 bytes.
const LONGEST: &[u8] = b"\
      ~@~~~~~~~~~~~~~~~~~~~~~~~~~~~~~~~~~~~~~~~~~~~~~~~~~~~~~~~~~~~~~~~~~~~~~~~~~~~~~~\
      ~~~~~~~~~~~~~~~~~~~~~~~~~~~~~~~~~~~~~~~~~~~~~~~~~~~~~~~~~~~~~~~~~~~~~~~~~~~~~~~~\
      ~~~~~~~~~~~~~~~~~~~~~~~~~~~~~~~~~~~~~~~~~~~~~~~~~~~~~~~~~~~~~~~~~~~~~~~~~~~~~~~~\
      ~~~~~~~~~~~~~~~";

static TEXTS: [Text; 11] = [
    Text {
        what: "no byte",
        bytes: b"",
        of_name: EMPTY,
        of_others: EMPTY,
    },
    Text {
        what: "256 letters",
        bytes: &[b'a'; 256],
        of_name: TOO_LONG,
        of_others: TOO_LONG,
    },
    Text {
        what: "256 spaces",
        bytes: &[b' '; 256],
        of_name: TOO_LONG,
        of_others: TOO_LONG,
    },
    Text {
        what: "a space inside",
        bytes: b"a b",
        of_name: BAD_BYTE,
        of_others: BAD_BYTE,
    },
    Text {
        what: "a byte of 7f",
        bytes: b"a@\x7f",
        of_name: BAD_BYTE,
        of_others: BAD_BYTE,
    },
    Text {
        what: "no at",
        bytes: b"ab",
        of_name: BAD_AT,
        of_others: None,
    },
    Text {
        what: "an at in front",
        bytes: b"@h",
        of_name: BAD_AT,
        of_others: None,
    },
    Text {
        what: "an at behind",
        bytes: b"a@",
        of_name: BAD_AT,
        of_others: None,
    },
    Text {
        what: "two",
        bytes: b"a@b@c",
        of_name: BAD_AT,
        of_others: None,
    },
    Text {
        what: "the shortest name",
        bytes: b"!@~",
        of_name: None,
        of_others: None,
    },
    Text {
        what: "a name of 255 bytes",
        bytes: LONGEST,
        of_name: None,
        of_others: None,
    },
];

fn has_fault<T: Drop>(parsed: Result<T, TextFault>, fault: Option<TextFault>) -> bool {
    parsed.err() == fault
}

fn has_faults(alloc: Global, text: &Text) -> bool {
    has_fault(NodeName::parse(alloc, text.bytes), text.of_name)
        && has_fault(Scope::parse(alloc, text.bytes), text.of_others)
        && has_fault(Group::parse(alloc, text.bytes), text.of_others)
        && has_fault(Cookie::parse(alloc, text.bytes), text.of_others)
}

#[test]
fn names_the_faults_of_a_text(rt: HostRuntime) {
    for text in &TEXTS {
        assert!(rt; has_faults(rt.alloc(), text), "{}", text.what);
    }
    assert!(rt; LONGEST.len() == 255);
}

fn is_hidden(alloc: Global, cookie: &Cookie) -> bool {
    match format!(in alloc; "{cookie:?}") {
        Ok(text) => text.as_str() == "Cookie(..)",
        Err(_) => false,
    }
}

fn hides_cookies(alloc: Global) -> bool {
    match cookie_of(alloc, b"password") {
        Some(cookie) => is_hidden(alloc, &cookie),
        None => false,
    }
}

#[test]
fn prints_no_byte_of_a_cookie(rt: HostRuntime) {
    assert!(rt; hides_cookies(rt.alloc()));
}
