//! Lines that come unasked.
ghost use Rattle.std.specs.Prelude.{◌≡◌, ◌++◌, [], map, OnOk, Some, None};
ghost use Rattle.std.specs.List.{flat_map};
ghost use Rattle.pg_session.specs.Notices.{notice_line, up, stopped, gone, TellsNews};

use dist_types::{NodeName, OutOfMemory, Scope, TryClone};
use pg_text::{DownReason, put_bytes, put_number, put_numbered_line, put_word};
use std::alloc::Global;

/// A peer that is up.
#[derive(Debug, Drop)]
pub struct Peer {
    pub name: NodeName,
    pub creation: u32,
    /// Its link, by the number of the entry that opened it.
    pub link: u32,
}

impl TryClone for Peer {
    fn try_clone(&self, alloc: Global) -> Result<Peer, OutOfMemory> {
        Ok(Peer {
            name: self.name.try_clone(alloc)?,
            creation: self.creation,
            link: self.link,
        })
    }
}

pub fn put_up(peer: &Peer, visible: bool, out: &mut Vec<u8>) -> Result<(), OutOfMemory>
    ensures { OnOk result (out.new.items ≡ out.old.items
        ++ notice_line (up peer.now.name peer.now.creation visible)) }
{
    let ending = if visible { " visible\n" } else { " hidden\n" };
    put_word("! up ", out)?;
    put_bytes(peer.name.as_bytes(), out)?;
    put_number(" ", u64::from(peer.creation), out)?;
    put_word(ending, out)
}

pub fn put_down(peer: &Peer, reason: DownReason, out: &mut Vec<u8>) -> Result<(), OutOfMemory>
    ensures { OnOk result (out.new.items ≡ out.old.items ++ notice_line (gone reason peer.now)) }
{
    put_word("! down ", out)?;
    put_bytes(peer.name.as_bytes(), out)?;
    put_number(" ", u64::from(peer.creation), out)?;
    put_word(" ", out)?;
    put_word(reason.word(), out)?;
    put_word("\n", out)
}

/// Adds that all of these are gone.
pub fn put_all_down(
    peers: &[Peer],
    reason: DownReason,
    out: &mut Vec<u8>,
) -> Result<(), OutOfMemory>
    ensures { OnOk result (out.new.items ≡ out.old.items
        ++ flat_map notice_line (map (gone reason) peers.now)) }
{
    for peer in peers {
        put_down(peer, reason, out)?;
    }
    Ok(())
}

pub fn put_stopped(scope: &Scope, out: &mut Vec<u8>) -> Result<(), OutOfMemory>
    ensures { OnOk result (out.new.items ≡ out.old.items ++ notice_line (stopped scope.now)) }
{
    put_word("! stopped ", out)?;
    put_bytes(scope.as_bytes(), out)?;
    put_word("\n", out)
}

/// Adds that a new life has begun, behind the end of each of these peers.
pub fn put_life(peers: &[Peer], creation: u32, out: &mut Vec<u8>) -> Result<(), OutOfMemory>
    ensures { OnOk result (TellsNews (record { peers = peers.now; anew = Some creation })
        out.old.items
        (record { peers = []; anew = None }) out.new.items) }
{
    put_all_down(peers, DownReason::Restarted, out)?;
    put_numbered_line("! restarted ", u64::from(creation), out)
}
