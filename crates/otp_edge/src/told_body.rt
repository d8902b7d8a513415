//! Bodies that a node is sent, behind their lengths.
ghost use Rattle.std.specs.Prelude.{◌≡◌, ◌<◌, ◌^◌, ◌∷◌, ◌++◌, [], length, OnOk};
ghost use Rattle.otp_edge.specs.Bodies.{pass_through, version, control_bytes, framed};

use crate::body::{Control, PASS_THROUGH, VERSION};
use dist_types::OutOfMemory;
use external_terms::{put_small_integer, put_tuple};

/// Appends a control message, with the bytes before it. Where memory lacks, it may have appended a
/// part.
pub fn put_control(control: &Control<'_>, out: &mut Vec<u8>) -> Result<(), OutOfMemory>
    ensures { OnOk result (out.new.items ≡ out.old.items ++ (pass_through ∷ version ∷ [] ++
        control_bytes control.now.arity control.now.operation control.now.first.now
        control.now.second.now control.now.rest.now)) }
{
    out.extend_from_slice(&[PASS_THROUGH, VERSION])?;
    put_tuple(control.arity, out)?;
    put_small_integer(control.operation, out)?;
    out.extend_from_slice(control.first)?;
    out.extend_from_slice(control.second)?;
    out.extend_from_slice(control.rest)?;
    Ok(())
}

/// Appends a body behind its length.
pub fn put_framed(body: &[u8], out: &mut Vec<u8>) -> Result<(), OutOfMemory>
    requires { length body.now < 2 ^ 32 }
    ensures { OnOk result (out.new.items ≡ out.old.items ++ framed body.now) }
{
    out.extend_from_slice(&(body.len() as u32).to_be_bytes())?;
    out.extend_from_slice(body)?;
    Ok(())
}
