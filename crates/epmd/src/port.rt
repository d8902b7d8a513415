//! How the port of a node is asked for: PORT_PLEASE2_REQ, and its answer.
ghost use Rattle.std.specs.Prelude.{◌≡◌, ◌≤◌, ◌<◌, ◌^◌, ◌∷◌, ◌++◌, ℕ, List, length};
ghost use Rattle.std.specs.Prelude.{IfOk, IfErr, IsOkAnd, IfSome, IsSomeAnd, OnOk};
ghost use Rattle.std.specs.Int.{w16, to_be_bytes};
ghost use Rattle.epmd.specs.Head.{IsNameFault};
ghost use Rattle.epmd.specs.Port.{please_bytes, Port, said, SpellsPort, Behind, IsPortFault, IsUsable, IsUseFault};

use crate::fault::EpmdFault;
use crate::head::behind_code;
use dist_types::u16_at;
use handshake_frames::counted_at;

/// PORT_PLEASE2_REQ.
const PLEASE: u8 = 122;

/// PORT2_RESP.
const ANSWER: u8 = 119;

/// The most bytes of a name.
const LONGEST: usize = 255;

/// The version of the handshake that is spoken here.
const VERSION: u16 = 6;

/// The protocol of links over TCP.
const TCP: u8 = 0;

/// A node that is registered.
#[derive(Clone, Copy, Debug)]
pub struct PortAnswer<'a> {
    /// Where it takes links.
    pub port: u16,
    /// 77, or 72 where it is hidden.
    pub kind: u8,
    /// 0 over TCP.
    pub protocol: u8,
    /// The versions of the handshake that it knows.
    pub highest: u16,
    pub lowest: u16,
    /// Its name up to the `@`.
    pub name: &'a [u8],
}

/// Appends PORT_PLEASE2_REQ behind its length: the node's name up to the `@`.
pub fn put_port_please(name: &[u8], out: &mut Vec<u8>) -> Result<(), EpmdFault>
    ensures ok { OnOk result ((length name.now ≤ 255) × (out.new.items ≡ out.old.items ++
        please_bytes name.now)) }
    ensures refused { IfErr result (λ fault. IsNameFault fault name.now) }
{
    if name.len() > LONGEST {
        return Err(EpmdFault::LongName);
    }
    out.extend_from_slice(&((1 + name.len()) as u16).to_be_bytes())?;
    out.push(PLEASE)?;
    out.extend_from_slice(name)?;
    Ok(())
}

/// Reads the answer to PORT_PLEASE2_REQ. Any bytes may stand behind the name.
pub fn port_answer(bytes: &[u8]) -> Result<PortAnswer<'_>, EpmdFault>
    ensures found { IfOk result (λ read. SpellsPort bytes.now (said read)) }
    ensures only { (port : Port) → SpellsPort bytes.now port → IsOkAnd result (λ read.
        said read ≡ port) }
    ensures refused { IfErr result (λ fault. IsPortFault fault bytes.now) }
{
    let rest = behind_code(ANSWER, bytes)?;
    match port_at(rest) {
        Some(answer) => Ok(answer),
        None => Err(EpmdFault::Short),
    }
}

/// Reads what stands behind the code of an answer.
fn port_at(bytes: &[u8]) -> Option<PortAnswer<'_>>
    ensures found { IfSome result (λ read. Behind bytes.now (said read)) }
    ensures only { (port : Port) → Behind bytes.now port → IsSomeAnd result (λ read.
        said read ≡ port) }
{
    let (port, rest) = u16_at(bytes)?;
    let (kind, protocol, rest) = two_bytes_at(rest)?;
    let (highest, lowest, rest) = two_numbers_at(rest)?;
    let (name, _) = counted_at(rest)?;
    Some(PortAnswer {
        port,
        kind,
        protocol,
        highest,
        lowest,
        name,
    })
}

/// The first two bytes, and what stands behind them.
fn two_bytes_at(bytes: &[u8]) -> Option<(u8, u8, &[u8])>
    ensures found { IfSome result (λ read. bytes.now ≡ read.0 ∷ read.1 ∷ read.2.now) }
    ensures only { (a b : ℕ) (rest : List ℕ) → bytes.now ≡ a ∷ b ∷ rest →
        IsSomeAnd result (λ read. (read.0 ≡ a) × (read.1 ≡ b) × (read.2.now ≡ rest)) }
{
    let (first, rest) = bytes.split_first()?;
    let (second, rest) = rest.split_first()?;
    Some((*first, *second, rest))
}

/// The numbers in the first two times 2 bytes, and what stands behind them.
fn two_numbers_at(bytes: &[u8]) -> Option<(u16, u16, &[u8])>
    ensures found { IfSome result (λ read. bytes.now ≡ to_be_bytes w16 read.0 ++
        to_be_bytes w16 read.1 ++ read.2.now) }
    ensures only { (a b : ℕ) (rest : List ℕ) → a < 2 ^ 16 → b < 2 ^ 16 →
        bytes.now ≡ to_be_bytes w16 a ++ to_be_bytes w16 b ++ rest →
        IsSomeAnd result (λ read. (read.0 ≡ a) × (read.1 ≡ b) × (read.2.now ≡ rest)) }
{
    let (first, rest) = u16_at(bytes)?;
    let (second, rest) = u16_at(rest)?;
    Some((first, second, rest))
}

/// The port of the node of that name, where the answer is of it, and it is reached by TCP and
/// knows version 6.
pub fn port_of(answer: &PortAnswer<'_>, name: &[u8]) -> Result<u16, EpmdFault>
    ensures port { IfOk result (λ port. port ≡ answer.now.port) }
    ensures usable { IfOk result (λ _. IsUsable (said answer.now) name.now) }
    ensures refused { IfErr result (λ fault. IsUseFault fault (said answer.now) name.now) }
{
    if answer.name != name {
        return Err(EpmdFault::OtherName);
    }
    if answer.protocol != TCP {
        return Err(EpmdFault::OtherProtocol);
    }
    if answer.highest < VERSION || VERSION < answer.lowest {
        return Err(EpmdFault::OldNode);
    }
    Ok(answer.port)
}
