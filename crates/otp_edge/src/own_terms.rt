//! Terms and bodies of a node's own.
ghost use Rattle.std.specs.Prelude.{◌≡◌, ◌++◌, ◌∷◌, [], IfOk, OnOk};
ghost use Rattle.otp_edge.specs.Bodies.{control_bytes, framed, pass_through, version};
ghost use Rattle.otp_edge.specs.Endings.{watch_bytes};
ghost use Rattle.otp_edge.specs.Processes.{pid_bytes};

use crate::body::{Control, VERSION};
use crate::process::pid_term;
use crate::scope_edge::Run;
use crate::told_body::{put_control, put_framed};
use dist_types::{OutOfMemory, Pid};
use external_terms::{ReferenceTerm, put_pid, put_reference};
use std::alloc::Global;

/// The most bytes of a body: its length has to be spelled in 4 bytes.
const MAX_BODY: usize = 0xFFFF_FFFF;

/// A word of a reference has 18 bits.
const WORD: u32 = 0x4_0000;

/// The atom without a letter: a cookie that isn't asked for.
pub const NO_COOKIE: [u8; 2] = [119, 0];
/// The atom `noproc`: there is no such process.
pub const NO_PROCESS: [u8; 8] = *b"\x77\x06noproc";
/// The atom `normal`: a process ended in the ordinary way.
pub const NORMAL: [u8; 8] = *b"\x77\x06normal";

/// The bytes of a process.
pub fn member_term(alloc: Global, pid: &Pid) -> Result<Vec<u8>, OutOfMemory>
    ensures { IfOk result (λ term. term.items ≡ pid_bytes pid.now) }
{
    let mut term = Vec::new(alloc);
    put_pid(&pid_term(pid), &mut term)?;
    Ok(term)
}

/// The bytes of a reference of that number: words of 18 bits at most, as a node makes them.
pub fn reference_term(alloc: Global, run: &Run, number: u32) -> Result<Vec<u8>, OutOfMemory>
    ensures { IfOk result (λ term. term.items ≡ watch_bytes run.now number) }
{
    let mut words = Vec::new(alloc);
    words.extend_from_slice(&(number % WORD).to_be_bytes())?;
    words.extend_from_slice(&(number / WORD).to_be_bytes())?;
    words.extend_from_slice(&1_u32.to_be_bytes())?;
    let reference = ReferenceTerm {
        count: 3,
        node: run.node.as_bytes(),
        creation: run.creation,
        words: &words,
    };
    let mut term = Vec::new(alloc);
    put_reference(&reference, &mut term)?;
    Ok(term)
}

/// Appends a body of a control message alone, behind its length.
pub fn put_alone(alloc: Global, control: &Control<'_>, out: &mut Vec<u8>) -> Result<(), OutOfMemory>
    ensures { OnOk result (out.new.items ≡ out.old.items ++ framed (pass_through ∷ version ∷ []
        ++ control_bytes control.now.arity control.now.operation control.now.first.now
        control.now.second.now control.now.rest.now)) }
{
    let mut body = Vec::new(alloc);
    put_control(control, &mut body)?;
    put_whole(&body, out)
}

/// The beginning of a body whose message comes next.
pub fn before_message(alloc: Global, control: &Control<'_>) -> Result<Vec<u8>, OutOfMemory>
    ensures { IfOk result (λ body. body.items ≡ pass_through ∷ version ∷ [] ++ control_bytes
        control.now.arity control.now.operation control.now.first.now control.now.second.now
        control.now.rest.now ++ version ∷ []) }
{
    let mut body = Vec::new(alloc);
    put_control(control, &mut body)?;
    body.push(VERSION)?;
    Ok(body)
}

/// Appends a body behind its length.
pub fn put_whole(body: &[u8], out: &mut Vec<u8>) -> Result<(), OutOfMemory>
    ensures { OnOk result (out.new.items ≡ out.old.items ++ framed body.now) }
{
    if body.len() > MAX_BODY {
        return Err(OutOfMemory);
    }
    put_framed(body, out)
}
