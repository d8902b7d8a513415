//! Which bytes of a stock node wait to be used.
ghost use Rattle.std.specs.Prelude.{◌≡◌, ◌+◌, ◌-◌, ◌++◌, ◌^◌, [], drop, length, min, OnErr, OnOk};
ghost use Rattle.otp_link.specs.Waiting.{waiting};

use crate::inward::Inward;
use dist_types::OutOfMemory;
use std::alloc::Global;

/// Where so many bytes were used, the room of those is freed.
const USED: usize = 65_536;

impl Inward {
    pub fn new(alloc: Global) -> Inward
        ensures waiting { waiting result ≡ [] }
        ensures left_out { result.left_out ≡ 0 }
    {
        Inward {
            bytes: Vec::new(alloc),
            used: 0,
            left_out: 0,
        }
    }

    /// What wasn't used yet.
    pub fn front(&self) -> &[u8]
        ensures { result.now ≡ waiting self.now }
    {
        &self.bytes[self.used..]
    }

    /// Adds bytes that have come, but for those that aren't kept.
    pub fn push(&mut self, piece: &[u8]) -> Result<(), OutOfMemory>
        ensures kept { OnOk result (waiting self.new ≡ waiting self.old
            ++ drop self.old.left_out piece.now) }
        ensures left_out { OnOk result (self.new.left_out ≡ self.old.left_out - length piece.now) }
        ensures refused { OnErr result ((waiting self.new ≡ waiting self.old)
            × (self.new.left_out ≡ self.old.left_out)) }
    {
        self.free();
        let left_out = piece.len().min(self.left_out);
        self.bytes.extend_from_slice(&piece[left_out..])?;
        self.left_out -= left_out;
        Ok(())
    }

    /// Frees the room of bytes that were used, where they are many.
    fn free(&mut self)
        ensures waiting { waiting self.new ≡ waiting self.old }
        ensures left_out { self.new.left_out ≡ self.old.left_out }
    {
        let used = self.used;
        if used >= USED {
            self.used = 0;
            self.bytes.drain(..used);
        }
    }

    /// Uses bytes of the front up, of more than there are those that are to come, too.
    pub fn use_up(&mut self, count: usize)
        ensures waiting { waiting self.new ≡ drop count (waiting self.old) }
        ensures left_out { self.new.left_out ≡ min (self.old.left_out
            + (count - length (waiting self.old))) (2 ^ 64 - 1) }
    {
        let here = count.min(self.bytes.len() - self.used);
        self.left_out = self.left_out.saturating_add(count - here);
        self.used += here;
        if self.used == self.bytes.len() {
            self.used = 0;
            self.bytes.clear();
        }
    }
}
