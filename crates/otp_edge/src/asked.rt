//! What else a node asks over a link: whether we are there, and to share names (`net_kernel` and
//! `global` of its kernel).
ghost use Rattle.std.specs.Prelude.{◌≡◌, ◌<◌, ◌^◌, ◌++◌, length, ℕ, List, IfSome, IsSomeAnd, OnOk};
ghost use Rattle.otp_edge.specs.Asked.{IsPing, pong_bytes, connect_bytes, in_sync_bytes};

use crate::body::first_term;
use crate::group_term::is_term;
use crate::list::{after_head, after_tuple, after_word};
use crate::spelling::put_head;
use dist_types::OutOfMemory;
use external_terms::{put_atom, put_tuple, tuple_at};

/// Who asks whether we are there.
#[derive(Clone, Copy, Debug)]
pub struct Ping<'a> {
    /// The term of the process that is answered.
    pub from: &'a [u8],
    /// The term by which it knows the answer.
    pub tag: &'a [u8],
}

/// Reads the question of `net_adm:ping`.
pub fn ping_in(message: &[u8]) -> Option<Ping<'_>>
    ensures found { IfSome result (λ ping. (node : List ℕ) ×
        IsPing ping.from.now ping.tag.now node message.now) }
    ensures only { (from tag node : List ℕ) → IsPing from tag node message.now →
        IsSomeAnd result (λ ping. (ping.from.now ≡ from) × (ping.tag.now ≡ tag)) }
{
    let rest = after_head(3, b"$gen_call", message)?;
    let rest = after_tuple(2, rest)?;
    let (from, rest) = first_term(rest)?;
    let (tag, rest) = first_term(rest)?;
    let node = after_head(2, b"is_auth", rest)?;
    if is_term(node) {
        Some(Ping { from, tag })
    } else {
        None
    }
}

/// Appends the answer to a ping, by its tag.
pub fn put_pong(tag: &[u8], out: &mut Vec<u8>) -> Result<(), OutOfMemory>
    ensures { OnOk result (out.new.items ≡ out.old.items ++ pong_bytes tag.now) }
{
    put_tuple(2, out)?;
    out.extend_from_slice(tag)?;
    put_atom(b"yes", out)
}

/// What stands behind the first word of a cast by which `global` asks to share names.
pub fn connect_in(message: &[u8]) -> Option<&[u8]>
    ensures found { IfSome result (λ rest. (arity : ℕ) ×
        (message.now ≡ connect_bytes arity rest.now)) }
    ensures only { (arity : ℕ) (rest : List ℕ) → message.now ≡ connect_bytes arity rest →
        IsSomeAnd result (λ read. read.now ≡ rest) }
{
    let rest = after_head(2, b"$gen_cast", message)?;
    let (_, rest) = tuple_at(rest)?;
    after_word(b"init_connect", rest)
}

/// Appends the answer to `global`: that node has no more names to share.
pub fn put_in_sync(node: &[u8], out: &mut Vec<u8>) -> Result<(), OutOfMemory>
    requires { length node.now < 2 ^ 8 }
    ensures { OnOk result (out.new.items ≡ out.old.items ++ in_sync_bytes node.now) }
{
    put_head(2, b"$gen_cast", out)?;
    put_head(3, b"in_sync", out)?;
    put_atom(node, out)?;
    put_atom(b"true", out)?;
    Ok(())
}
