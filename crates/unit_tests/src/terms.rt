//! Terms that a running node of Erlang/OTP 25.2.3 said, and a term of each tag.
use crate::digits::{bytes_of, changes_of, exchange, front};
use external_terms::*;
use std::alloc::Global;

/// A term, and how many of its changes end how: each byte in turn is 00, ff, one more and one less.
struct Worked {
    /// The call that made the node say it, and the operation.
    said: &'static str,
    term: &'static str,
    ends: u32,
    cut: u32,
    no_tag: u32,
}

/// Without 131 before them. The counts are of a reader in Python, written after the public page.
static WORKED: [Worked; 20] = [
    Worked {
        said: "the link comes up: REG_SEND",
        term: "\
         6804610658770b61403132372e302e302e3100000036000000006b0841b077007703726578",
        ends: 113,
        cut: 11,
        no_tag: 24,
    },
    Worked {
        said: "the link comes up: REG_SEND message",
        term: "\
         680258770b61403132372e302e302e3100000036000000006b0841b0771066656174757265735f72\
         657175657374",
        ends: 160,
        cut: 8,
        no_tag: 16,
    },
    Worked {
        said: "the link comes up: REG_SEND",
        term: "\
         6804610658770b61403132372e302e302e3100000037000000006b0841b077007712676c6f62616c\
         5f6e616d655f736572766572",
        ends: 173,
        cut: 11,
        no_tag: 24,
    },
    Worked {
        said: "the link comes up: REG_SEND message",
        term: "\
         680277092467656e5f636173746804770c696e69745f636f6e6e656374680261086e080100000000\
         00000008770b61403132372e302e302e31680477066c6f636b6572770f6e6f5f6c6f6e6765725f61\
         5f70696474000000016802770d636f6e6e656374696f6e5f6964770b77403132372e302e302e3162\
         00b41c9458770b61403132372e302e302e3100000038000000006b0841b0",
        ends: 475,
        cut: 48,
        no_tag: 77,
    },
    Worked {
        said: "the link comes up: REG_SEND",
        term: "\
         6804610658770b61403132372e302e302e3100000057000000006b0841b0770077046a6f6273",
        ends: 117,
        cut: 11,
        no_tag: 24,
    },
    Worked {
        said: "the link comes up: REG_SEND message",
        term: "\
         68027708646973636f76657258770b61403132372e302e302e3100000057000000006b0841b0",
        ends: 130,
        cut: 8,
        no_tag: 14,
    },
    Worked {
        said: "the link comes up: SEND",
        term: "\
         68036102770058770b77403132372e302e302e3100000001000000000000004d",
        ends: 103,
        cut: 8,
        no_tag: 17,
    },
    Worked {
        said: "the link comes up: SEND message",
        term: "\
         680277092467656e5f636173746803770473796e6358770b61403132372e302e302e310000005700\
         0000006b0841b06c0000000168027701676c0000000258770b61403132372e302e302e3100000058\
         000000006b0841b058770b61403132372e302e302e3100000058000000006b0841b06a6a",
        ends: 350,
        cut: 49,
        no_tag: 65,
    },
    Worked {
        said: "the link comes up: MONITOR_P",
        term: "\
         6804611358770b61403132372e302e302e3100000057000000006b0841b058770b77403132372e30\
         2e302e3100000001000000000000004d5a0003770b61403132372e302e302e316b0841b000016712\
         e05800038241a5b9",
        ends: 303,
        cut: 16,
        no_tag: 33,
    },
    Worked {
        said: "join(jobs, g, [P, Q]): SEND message",
        term: "\
         680477046a6f696e58770b61403132372e302e302e3100000057000000006b0841b07701676c0000\
         000258770b61403132372e302e302e3100000058000000006b0841b058770b61403132372e302e30\
         2e3100000059000000006b0841b06a",
        ends: 305,
        cut: 32,
        no_tag: 43,
    },
    Worked {
        said: "leave(jobs, 7, Q): SEND message",
        term: "\
         680477056c6561766558770b61403132372e302e302e3100000057000000006b0841b058770b6140\
         3132372e302e302e3100000059000000006b0841b06b000107",
        ends: 214,
        cut: 17,
        no_tag: 29,
    },
    Worked {
        said: "join(jobs, <<'g'>>, Q): SEND message",
        term: "\
         680477046a6f696e58770b61403132372e302e302e3100000057000000006b0841b06d0000000167\
         58770b61403132372e302e302e3100000059000000006b0841b0",
        ends: 213,
        cut: 23,
        no_tag: 28,
    },
    Worked {
        said: "leave(jobs, g, [P, P]): SEND message",
        term: "\
         680477056c6561766558770b61403132372e302e302e3100000057000000006b0841b06c00000002\
         58770b61403132372e302e302e3100000058000000006b0841b058770b61403132372e302e302e31\
         00000058000000006b0841b06a6c000000017701676a",
        ends: 314,
        cut: 43,
        no_tag: 51,
    },
    Worked {
        said: "W ! {job, 1}: SEND",
        term: "\
         68036102770058770b77403132372e302e302e3100000002000000000000004d",
        ends: 103,
        cut: 8,
        no_tag: 17,
    },
    Worked {
        said: "W ! {job, 1}: SEND message",
        term: "\
         680277036a6f626101",
        ends: 19,
        cut: 7,
        no_tag: 10,
    },
    Worked {
        said: "monitor(process, W): MONITOR_P",
        term: "\
         6804611358770b61403132372e302e302e3100000055000000006b0841b058770b77403132372e30\
         2e302e3100000002000000000000004d5a0003770b61403132372e302e302e316b0841b00001673a\
         e05800038241a5b9",
        ends: 303,
        cut: 16,
        no_tag: 33,
    },
    Worked {
        said: "gen_server:call(W, hi, 50): SEND message",
        term: "\
         680377092467656e5f63616c6c680258770b61403132372e302e302e3100000055000000006b0841\
         b06c000000017705616c6961735a0003770b61403132372e302e302e316b0841b000016741e05900\
         038241a5b977026869",
        ends: 276,
        cut: 32,
        no_tag: 48,
    },
    Worked {
        said: "net_adm:ping: MONITOR_P",
        term: "\
         6804611358770b61403132372e302e302e3100000055000000006b0841b0770a6e65745f6b65726e\
         656c5a0003770b61403132372e302e302e316b0841b00001674de05900038241a5b9",
        ends: 251,
        cut: 16,
        no_tag: 29,
    },
    Worked {
        said: "the scope ends, and starts again: MONITOR_P_EXIT",
        term: "\
         6805611558770b61403132372e302e302e3100000057000000006b0841b058770b77403132372e30\
         2e302e3100000001000000000000004d5a0003770b77403132372e302e302e310000004d0000eaaf\
         000000010000000277066b696c6c6564",
        ends: 325,
        cut: 18,
        no_tag: 41,
    },
    Worked {
        said: "the scope ends, and starts again: DEMONITOR_P",
        term: "\
         6804611458770b61403132372e302e302e3100000057000000006b0841b058770b77403132372e30\
         2e302e3100000001000000000000004d5a0003770b61403132372e302e302e316b0841b000016712\
         e05800038241a5b9",
        ends: 303,
        cut: 16,
        no_tag: 33,
    },
];

/// A term of each tag, spelled by hand after the public page.
static TAGS: [&str; 27] = [
    "463ff8000000000000",
    "4d0000000205ffe0",
    "587703614068000000010000000200000003",
    "5977036140680000000100000003",
    "5a0003770361406800000003000000010000000200000003",
    "5a000076000361406800000003",
    "6107",
    "62fffffff9",
    "64000161",
    "68026a6107",
    "6800",
    "69000000016a",
    "6a",
    "6b00020708",
    "6c0000000161076a",
    "6c00000001770161770162",
    "6d0000000161",
    "6e010005",
    "6e0001",
    "6f000000010005",
    "\
         70000000000100000000000000000000000000000000000000010000000177016161016102587703\
         6140680000000100000002000000036109",
    "717701617701626101",
    "740000000161016a",
    "7400000000",
    "760002c3a9",
    "7702c3a9",
    "787703614068000000000000000100000003",
];

/// Whether the term of these digits is skipped, with and without a byte behind it, and is cut at
/// each of its beginnings.
fn skips(alloc: Global, digits: &str) -> bool {
    match bytes_of(alloc, digits) {
        Some(mut term) => {
            let len = term.len();
            term.push(0x83).is_ok() && is_cut_before(&term, len) && ends_at(&term, len)
        }
        None => false,
    }
}

fn is_cut_before(bytes: &[u8], len: usize) -> bool {
    for end in 0..len {
        if skip(front(bytes, end)) != Err(TermFault::Truncated) {
            return false;
        }
    }
    true
}

fn ends_at(longer: &[u8], len: usize) -> bool {
    let term = front(longer, len);
    is_skipped(term, term, b"") && is_skipped(longer, term, b"\x83")
}

/// Whether this is the term at the front, with that behind it.
fn is_skipped(bytes: &[u8], term: &[u8], rest: &[u8]) -> bool {
    match skip(bytes) {
        Ok((skipped, behind)) => skipped == term && behind == rest,
        Err(_) => false,
    }
}

#[test]
fn skips_a_term_of_each_tag(rt: HostRuntime) {
    for term in &TAGS {
        assert!(rt; skips(rt.alloc(), term), "{term}");
    }
}

/// How many of the changes of that byte end so: with no fault, where the term still ends.
fn changes_at(term: &mut [u8], at: usize, fault: Option<TermFault>) -> u32 {
    let old = exchange(term, at, 0);
    let mut count = 0_u32;
    for new in changes_of(old) {
        exchange(term, at, new);
        count = count.wrapping_add(u32::from(skip(term).err() == fault));
    }
    exchange(term, at, old);
    count
}

fn changes(term: &mut [u8], fault: Option<TermFault>) -> u32 {
    let mut count = 0_u32;
    for at in 0..term.len() {
        count = count.wrapping_add(changes_at(term, at, fault));
    }
    count
}

/// Whether so many of all changes end, are cut and have no tag.
fn has_counts(term: &mut [u8], row: &Worked) -> bool {
    changes(term, None) == row.ends
        && changes(term, Some(TermFault::Truncated)) == row.cut
        && changes(term, Some(TermFault::UnknownTag)) == row.no_tag
}

fn is_judged(alloc: Global, row: &Worked) -> bool {
    match bytes_of(alloc, row.term) {
        Some(mut term) => has_counts(&mut term, row),
        None => false,
    }
}

/// The first term that isn't skipped, or whose changes end otherwise.
fn first_wrong(alloc: Global) -> Option<&'static str> {
    for row in &WORKED {
        if !skips(alloc, row.term) || !is_judged(alloc, row) {
            return Some(row.said);
        }
    }
    None
}

#[test]
fn skips_what_a_node_said_and_judges_each_change_of_a_byte(rt: HostRuntime) {
    let wrong = first_wrong(rt.alloc());
    assert!(rt; wrong.is_none(), "{}", wrong.unwrap_or(""));
}

fn is_known(tag: u8) -> bool {
    matches!(tag, 70 | 77 | 88..=90 | 97 | 98 | 100 | 104..=113 | 116 | 118..=120)
}

fn is_unknown(tag: u8) -> bool {
    skip(&[tag]) == Err(TermFault::UnknownTag)
}

#[test]
fn refuses_unknown_tags(rt: HostRuntime) {
    for tag in 0..=255_u8 {
        assert!(rt; is_unknown(tag) != is_known(tag), "{tag}");
    }
}
