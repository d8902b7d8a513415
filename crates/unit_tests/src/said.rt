//! What the processes of a scope of a running node of Erlang/OTP 25.2.3 said.
use crate::digits::{bytes_of, front};
use crate::made::{Process, pid_of, row_of};
use dist_types::{Items, Pid, Row};
use otp_edge::{HearFault, Said, hear};
use std::alloc::Global;

/// A term, without 131 before it, and what it means: the kind, and its rows by group and id.
struct Heard {
    /// The call that made the node say it.
    call: &'static str,
    term: &'static str,
    kind: u8,
    rows: &'static [Listed],
}

/// A group, and the number of a process in it.
struct Listed(&'static str, u64);

/// The scope's process is 57 hex; P is 58, Q is 59.
static HEARD: [Heard; 10] = [
    Heard {
        call: "the link comes up",
        term: "68027708646973636f76657258770b61403132372e302e302e3100000057000000006b0841b0",
        kind: b'D',
        rows: &[],
    },
    Heard {
        call: "the link comes up",
        term: "\
         680277092467656e5f636173746803770473796e6358770b61403132372e302e302e310000005700\
         0000006b0841b06c0000000168027701676c0000000258770b61403132372e302e302e3100000058\
         000000006b0841b058770b61403132372e302e302e3100000058000000006b0841b06a6a",
        kind: b'S',
        rows: &[Listed("g", 0x58), Listed("g", 0x58)],
    },
    Heard {
        call: "the scope starts again",
        term: "\
         680277092467656e5f636173746803770473796e6358770b61403132372e302e302e310000005700\
         0000006b0841b06a",
        kind: b'S',
        rows: &[],
    },
    Heard {
        call: "join(jobs, g, P)",
        term: "\
         680477046a6f696e58770b61403132372e302e302e3100000057000000006b0841b077016758770b\
         61403132372e302e302e3100000058000000006b0841b0",
        kind: b'J',
        rows: &[Listed("g", 0x58)],
    },
    Heard {
        call: "join(jobs, g, [P, Q])",
        term: "\
         680477046a6f696e58770b61403132372e302e302e3100000057000000006b0841b07701676c0000\
         000258770b61403132372e302e302e3100000058000000006b0841b058770b61403132372e302e30\
         2e3100000059000000006b0841b06a",
        kind: b'J',
        rows: &[Listed("g", 0x58), Listed("g", 0x59)],
    },
    Heard {
        call: "join(jobs, g, [])",
        term: "\
         680477046a6f696e58770b61403132372e302e302e3100000057000000006b0841b07701676a",
        kind: b'J',
        rows: &[],
    },
    Heard {
        call: "join(jobs, 7, Q)",
        term: "\
         680477046a6f696e58770b61403132372e302e302e3100000057000000006b0841b0610758770b61\
         403132372e302e302e3100000059000000006b0841b0",
        kind: b'J',
        rows: &[Listed("#x:6107", 0x59)],
    },
    Heard {
        call: "leave(jobs, 7, Q)",
        term: "\
         680477056c6561766558770b61403132372e302e302e3100000057000000006b0841b058770b6140\
         3132372e302e302e3100000059000000006b0841b06b000107",
        kind: b'L',
        rows: &[Listed("#x:6107", 0x59)],
    },
    Heard {
        call: "join(jobs, <<\"g\">>, Q)",
        term: "\
         680477046a6f696e58770b61403132372e302e302e3100000057000000006b0841b06d0000000167\
         58770b61403132372e302e302e3100000059000000006b0841b0",
        kind: b'J',
        rows: &[Listed("#b:g", 0x59)],
    },
    Heard {
        call: "P ends: twice in g",
        term: "\
         680477056c6561766558770b61403132372e302e302e3100000057000000006b0841b058770b6140\
         3132372e302e302e3100000058000000006b0841b06c000000027701677701676a",
        kind: b'L',
        rows: &[Listed("g", 0x58), Listed("g", 0x58)],
    },
];

/// The process of that id.
fn process(id: u64) -> Process {
    Process {
        node: b"a@127.0.0.1",
        creation: 0x6b08_41b0,
        number: id,
    }
}

fn rows_of(alloc: Global, listed: &[Listed]) -> Option<Vec<Row>> {
    let mut rows = Vec::new(alloc);
    for row in listed {
        rows.push(row_of(alloc, row.0.as_bytes(), &process(row.1))?)
            .ok()?;
    }
    Some(rows)
}

fn said_by(kind: u8, scope: Pid, rows: Vec<Row>) -> Said {
    let rows = Items::of(rows);
    match kind {
        b'D' => Said::Discover(scope),
        b'S' => Said::Sync(scope, rows),
        b'J' => Said::Join(scope, rows),
        _ => Said::Leave(scope, rows),
    }
}

fn meaning(alloc: Global, heard: &Heard) -> Option<Said> {
    let rows = rows_of(alloc, heard.rows)?;
    match pid_of(alloc, &process(0x57)) {
        Some(scope) => Some(said_by(heard.kind, scope, rows)),
        None => None,
    }
}

/// Whether just this is heard.
fn says(alloc: Global, term: &[u8], meant: &Said) -> bool {
    match hear(alloc, term) {
        Ok(said) => said == *meant,
        Err(_) => false,
    }
}

fn is_meant(alloc: Global, term: &[u8], row: &Heard) -> bool {
    match meaning(alloc, row) {
        Some(meant) => says(alloc, term, &meant),
        None => false,
    }
}

fn is_nothing(alloc: Global, bytes: &[u8]) -> bool {
    hear(alloc, bytes).err() == Some(HearFault::NoMessage)
}

/// Whether each beginning of what was said is no message.
fn are_fronts_nothing(alloc: Global, term: &[u8]) -> bool {
    for end in 0..term.len() {
        if !is_nothing(alloc, front(term, end)) {
            return false;
        }
    }
    true
}

/// Whether what was said is no message with a byte behind it.
fn is_nothing_longer(alloc: Global, term: &mut Vec<u8>) -> bool {
    term.push(0x6a).is_ok() && is_nothing(alloc, term)
}

fn is_heard(alloc: Global, row: &Heard) -> bool {
    match bytes_of(alloc, row.term) {
        Some(mut term) => {
            is_meant(alloc, &term, row)
                && are_fronts_nothing(alloc, &term)
                && is_nothing_longer(alloc, &mut term)
        }
        None => false,
    }
}

/// The call behind the first term that is heard otherwise, or near which something is heard.
fn first_wrong(alloc: Global) -> Option<&'static str> {
    for row in &HEARD {
        if !is_heard(alloc, row) {
            return Some(row.call);
        }
    }
    None
}

#[test]
fn hears_what_a_node_said_and_nothing_else(rt: HostRuntime) {
    let wrong = first_wrong(rt.alloc());
    assert!(rt; wrong.is_none(), "{}", wrong.unwrap_or(""));
}
