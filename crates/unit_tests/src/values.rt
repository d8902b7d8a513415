//! Values that a node said, read one behind the other.
use crate::digits::bytes_of;
use external_terms::*;
use std::alloc::Global;

/// A `MONITOR_P` of a process.
static MONITOR: &str = "\
         6804611358770b61403132372e302e302e3100000057000000006b0841b058770b77403132372e30\
         2e302e3100000001000000000000004d5a0003770b61403132372e302e302e316b0841b000016712\
         e05800038241a5b9";

/// `{leave, [7]}`, `[jobs]` and `<<"g">>`.
static GROUPS: &str = "680277056c656176656b0001076c0000000177046a6f62736a6d0000000167";

const WATCHES: PidTerm<'static> = PidTerm {
    node: b"a@127.0.0.1",
    id: 0x57,
    serial: 0,
    creation: 0x6b08_41b0,
};

const WATCHED: PidTerm<'static> = PidTerm {
    node: b"w@127.0.0.1",
    id: 1,
    serial: 0,
    creation: 0x4d,
};

const REFERENCE: ReferenceTerm<'static> = ReferenceTerm {
    count: 3,
    node: b"a@127.0.0.1",
    creation: 0x6b08_41b0,
    words: b"\0\x01\x67\x12\xe0\x58\0\x03\x82\x41\xa5\xb9",
};

/// A value.
enum Value {
    Tuple(u8),
    List(u32),
    Nil,
    Integer(u8),
    Atom(&'static [u8]),
    /// Numbers, which are no binary.
    Numbers(&'static [u8]),
    /// A binary, which is no numbers.
    Binary(&'static [u8]),
    Pid(PidTerm<'static>),
    Reference(ReferenceTerm<'static>),
}

/// The operation 19, two processes and a reference.
static MONITORS: [Value; 5] = [
    Value::Tuple(4),
    Value::Integer(19),
    Value::Pid(WATCHES),
    Value::Pid(WATCHED),
    Value::Reference(REFERENCE),
];

/// `{leave, [7]}` as a node says it, `[jobs]` and `<<"g">>`.
static LEAVES: [Value; 7] = [
    Value::Tuple(2),
    Value::Atom(b"leave"),
    Value::Numbers(b"\x07"),
    Value::List(1),
    Value::Atom(b"jobs"),
    Value::Nil,
    Value::Binary(b"g"),
];

/// What stands behind the value, where it was read as wanted.
fn behind<'a, T: Copy + PartialEq>(wanted: &T, read: Option<(T, &'a [u8])>) -> Option<&'a [u8]> {
    match read {
        Some((value, rest)) if value == *wanted => Some(rest),
        _ => None,
    }
}

fn after<'a>(wanted: &Value, bytes: &'a [u8]) -> Option<&'a [u8]> {
    match wanted {
        Value::Tuple(arity) => behind(arity, tuple_at(bytes)),
        Value::List(count) => behind(count, list_at(bytes)),
        Value::Nil => after_nil(bytes),
        Value::Integer(number) => behind(number, small_integer_at(bytes)),
        Value::Atom(text) => behind(text, atom_at(bytes)),
        Value::Numbers(numbers) if binary_at(bytes).is_none() => behind(numbers, numbers_at(bytes)),
        Value::Binary(binary) if numbers_at(bytes).is_none() => behind(binary, binary_at(bytes)),
        Value::Pid(pid) => behind(pid, pid_at(bytes)),
        Value::Reference(reference) => behind(reference, reference_at(bytes)),
        _ => None,
    }
}

/// Whether these values are all that there is.
fn are_values(bytes: &[u8], values: &[Value]) -> bool {
    let mut rest = bytes;
    for value in values {
        match after(value, rest) {
            Some(behind) => rest = behind,
            None => return false,
        }
    }
    rest.is_empty()
}

fn reads(alloc: Global, digits: &str, values: &[Value]) -> bool {
    match bytes_of(alloc, digits) {
        Some(bytes) => are_values(&bytes, values),
        None => false,
    }
}

#[test]
fn reads_values_behind_each_other(rt: HostRuntime) {
    assert!(rt; reads(rt.alloc(), MONITOR, &MONITORS));
    assert!(rt; reads(rt.alloc(), GROUPS, &LEAVES));
}

/// Whether the bytes are numbers, and these are written so. The other writers are called by what is
/// sent in `edges`.
fn are_written_so(alloc: Global, bytes: &[u8]) -> bool {
    let mut out = Vec::new(alloc);
    let is_written = match numbers_at(bytes) {
        Some((numbers, _)) => put_numbers(numbers, &mut out).is_ok(),
        None => false,
    };
    is_written && out.as_slice() == bytes
}

#[test]
fn writes_numbers(rt: HostRuntime) {
    assert!(rt; are_written_so(rt.alloc(), b"\x6b\0\x01\x07"));
}
