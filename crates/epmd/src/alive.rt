//! How a node registers: ALIVE2_REQ, and its answer. The registration lasts as long as its
//! connection.
ghost use Rattle.std.specs.Prelude.{◌≡◌, ◌≤◌, ◌<◌, ◌^◌, ◌++◌, ℕ, length, Ok, IfOk, IfErr, OnOk};
ghost use Rattle.epmd.specs.Head.{IsNameFault};
ghost use Rattle.epmd.specs.Alive.{alive_bytes, registered_bytes, IsAliveFault, kind_code};

use crate::fault::EpmdFault;
use crate::head::behind_code;
use dist_types::u32_at;

/// ALIVE2_REQ.
const ALIVE: u8 = 120;

/// ALIVE2_X_RESP, whose creation has 4 bytes.
const ANSWER: u8 = 118;

/// The most bytes of a name.
const LONGEST: usize = 255;

/// The bytes of a registration beside its name: kind 1, port 2, kind of node 1, protocol 1, two
/// versions 4, two lengths 4.
const BESIDE: usize = 13;

/// Whether other nodes are published to a node.
#[derive(Clone, Copy, Debug, PartialEq, Eq)]
pub enum NodeKind {
    Normal,
    Hidden,
}

impl NodeKind {
    fn code(self) -> u8
        ensures { result ≡ kind_code self }
    {
        match self {
            NodeKind::Normal => 77,
            NodeKind::Hidden => 72,
        }
    }
}

/// A node that registers.
#[derive(Clone, Copy, Debug)]
pub struct Alive<'a> {
    /// Where it takes links.
    pub port: u16,
    pub kind: NodeKind,
    /// Its name up to the `@`.
    pub name: &'a [u8],
}

/// Appends ALIVE2_REQ behind its length: over TCP, versions 6 and 5, and no more to say.
pub fn put_alive(alive: &Alive<'_>, out: &mut Vec<u8>) -> Result<(), EpmdFault>
    ensures ok { OnOk result ((length alive.now.name.now ≤ 255) × (out.new.items ≡ out.old.items ++
        alive_bytes alive.now.port alive.now.kind alive.now.name.now)) }
    ensures refused { IfErr result (λ fault. IsNameFault fault alive.now.name.now) }
{
    if alive.name.len() > LONGEST {
        return Err(EpmdFault::LongName);
    }
    let length = alive.name.len();
    out.extend_from_slice(&((BESIDE + length) as u16).to_be_bytes())?;
    out.push(ALIVE)?;
    out.extend_from_slice(&alive.port.to_be_bytes())?;
    out.extend_from_slice(&[alive.kind.code(), 0, 0, 6, 0, 5])?;
    out.extend_from_slice(&(length as u16).to_be_bytes())?;
    out.extend_from_slice(alive.name)?;
    out.extend_from_slice(&[0, 0])?;
    Ok(())
}

/// Reads the answer to ALIVE2_REQ: the creation that EPMD gives.
pub fn alive_answer(bytes: &[u8]) -> Result<u32, EpmdFault>
    ensures found { IfOk result (λ creation. (creation < 2 ^ 32) × (bytes.now ≡
        registered_bytes creation)) }
    ensures only { (creation : ℕ) → creation < 2 ^ 32 → bytes.now ≡ registered_bytes creation →
        result ≡ Ok creation }
    ensures refused { IfErr result (λ fault. IsAliveFault fault bytes.now) }
{
    let rest = behind_code(ANSWER, bytes)?;
    match u32_at(rest) {
        Some((creation, behind)) if behind.is_empty() => Ok(creation),
        Some(_) => Err(EpmdFault::NoAnswer),
        None => Err(EpmdFault::Short),
    }
}
