//! The terms that a link is made of, appended to bytes. Where there is no memory, nothing is
//! appended.
ghost use Rattle.std.specs.Prelude.{◌≡◌, ◌<◌, ◌^◌, ◌++◌, length, OnOk, OnErr};
ghost use Rattle.external_terms.specs.Values.{small_integer_bytes, atom_bytes, process_said};
ghost use Rattle.external_terms.specs.Values.{process_bytes, reference_said, reference_bytes};
ghost use Rattle.external_terms.specs.Values.{tuple_head, list_head, nil_bytes, numbers_bytes};
ghost use Rattle.external_terms.specs.Values.{binary_bytes};

use crate::values::{PidTerm, ReferenceTerm};
use dist_types::OutOfMemory;

/// The bytes of a process beside its node: two tags, length 1, id 4, serial 4, creation 4.
const PID_LEN: usize = 15;
/// The bytes of a reference beside node and words: tag, count 2, tag, length 1, creation 4.
const REFERENCE_LEN: usize = 9;

/// Appends an integer from 0 to 255: `SMALL_INTEGER_EXT`.
pub fn put_small_integer(n: u8, out: &mut Vec<u8>) -> Result<(), OutOfMemory>
    ensures ok { OnOk result (out.new.items ≡ out.old.items ++ small_integer_bytes n) }
    ensures same { OnErr result (out.new.items ≡ out.old.items) }
{
    out.extend_from_slice(&[97, n])?;
    Ok(())
}

/// Appends an atom, by its text in UTF-8: `SMALL_ATOM_UTF8_EXT`.
pub fn put_atom(text: &[u8], out: &mut Vec<u8>) -> Result<(), OutOfMemory>
    requires { length text.now < 2 ^ 8 }
    ensures ok { OnOk result (out.new.items ≡ out.old.items ++ atom_bytes text.now) }
    ensures same { OnErr result (out.new.items ≡ out.old.items) }
{
    out.reserve(2 + text.len())?;
    out.push(119)?;
    out.push(text.len() as u8)?;
    out.extend_from_slice(text)?;
    Ok(())
}

/// Appends a process: `NEW_PID_EXT`.
pub fn put_pid(pid: &PidTerm<'_>, out: &mut Vec<u8>) -> Result<(), OutOfMemory>
    requires { length pid.now.node.now < 2 ^ 8 }
    ensures ok { OnOk result (out.new.items ≡ out.old.items ++
        process_bytes (process_said pid.now)) }
    ensures same { OnErr result (out.new.items ≡ out.old.items) }
{
    out.reserve(PID_LEN + pid.node.len())?;
    out.push(88)?;
    out.push(119)?;
    out.push(pid.node.len() as u8)?;
    out.extend_from_slice(pid.node)?;
    out.extend_from_slice(&pid.id.to_be_bytes())?;
    out.extend_from_slice(&pid.serial.to_be_bytes())?;
    out.extend_from_slice(&pid.creation.to_be_bytes())?;
    Ok(())
}

/// Appends a reference: `NEWER_REFERENCE_EXT`.
pub fn put_reference(reference: &ReferenceTerm<'_>, out: &mut Vec<u8>) -> Result<(), OutOfMemory>
    requires { length reference.now.node.now < 2 ^ 8 }
    ensures ok { OnOk result (out.new.items ≡ out.old.items ++
        reference_bytes (reference_said reference.now)) }
    ensures same { OnErr result (out.new.items ≡ out.old.items) }
{
    out.reserve(REFERENCE_LEN + reference.node.len() + reference.words.len())?;
    out.push(90)?;
    out.extend_from_slice(&reference.count.to_be_bytes())?;
    out.push(119)?;
    out.push(reference.node.len() as u8)?;
    out.extend_from_slice(reference.node)?;
    out.extend_from_slice(&reference.creation.to_be_bytes())?;
    out.extend_from_slice(reference.words)?;
    Ok(())
}

/// Appends the head of a tuple of that many terms: `SMALL_TUPLE_EXT`.
pub fn put_tuple(arity: u8, out: &mut Vec<u8>) -> Result<(), OutOfMemory>
    ensures ok { OnOk result (out.new.items ≡ out.old.items ++ tuple_head arity) }
    ensures same { OnErr result (out.new.items ≡ out.old.items) }
{
    out.extend_from_slice(&[104, arity])?;
    Ok(())
}

/// Appends the head of a list of that many terms, which an end has to follow: `LIST_EXT`.
pub fn put_list(count: u32, out: &mut Vec<u8>) -> Result<(), OutOfMemory>
    ensures ok { OnOk result (out.new.items ≡ out.old.items ++ list_head count) }
    ensures same { OnErr result (out.new.items ≡ out.old.items) }
{
    out.reserve(5)?;
    out.push(108)?;
    out.extend_from_slice(&count.to_be_bytes())?;
    Ok(())
}

/// Appends the empty list, which is the end of a proper one, too: `NIL_EXT`.
pub fn put_nil(out: &mut Vec<u8>) -> Result<(), OutOfMemory>
    ensures ok { OnOk result (out.new.items ≡ out.old.items ++ nil_bytes) }
    ensures same { OnErr result (out.new.items ≡ out.old.items) }
{
    out.push(106)?;
    Ok(())
}

/// Appends a list of numbers from 0 to 255: `STRING_EXT`.
pub fn put_numbers(numbers: &[u8], out: &mut Vec<u8>) -> Result<(), OutOfMemory>
    requires { length numbers.now < 2 ^ 16 }
    ensures ok { OnOk result (out.new.items ≡ out.old.items ++ numbers_bytes numbers.now) }
    ensures same { OnErr result (out.new.items ≡ out.old.items) }
{
    out.reserve(3 + numbers.len())?;
    out.push(107)?;
    out.extend_from_slice(&(numbers.len() as u16).to_be_bytes())?;
    out.extend_from_slice(numbers)?;
    Ok(())
}

/// Appends a binary: `BINARY_EXT`.
pub fn put_binary(binary: &[u8], out: &mut Vec<u8>) -> Result<(), OutOfMemory>
    requires { length binary.now < 2 ^ 32 }
    ensures ok { OnOk result (out.new.items ≡ out.old.items ++ binary_bytes binary.now) }
    ensures same { OnErr result (out.new.items ≡ out.old.items) }
{
    out.reserve(5 + binary.len())?;
    out.push(109)?;
    out.extend_from_slice(&(binary.len() as u32).to_be_bytes())?;
    out.extend_from_slice(binary)?;
    Ok(())
}
