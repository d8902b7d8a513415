//! The frames that a node owes to its links.
ghost use Rattle.std.specs.Prelude.{◌≡◌, ◌++◌, OnOk, OnErr};
ghost use Rattle.policy_audit.specs.Wire.{wire_bytes};

use dist_types::{Body, Items, OutOfMemory, TryClone};
use std::alloc::Global;
use std::marker::Model;

/// Frames, the first to send first.
pub type OutFrames = Items<OutFrame>;

/// A frame to send, with the width of its length: 4 bytes where it is wide, as after the handshake,
/// else 2. The length of its body fits that width.
#[derive(Debug, PartialEq, Eq)]
pub struct OutFrame {
    pub wide: bool,
    pub body: Body,
}

impl Drop for OutFrame {
    fn drop(self) {
        let OutFrame { wide: _, body: _ } = self;
    }
}

impl Model for OutFrame {
    ghost use Rattle.policy_audit.specs.OutFrame.{OutFrame};
    ghost use Rattle.policy_audit.specs.Wire.{FitsWire};

    ghost Value = { OutFrame };

    ghost view = { λ frame. record { wide = frame.wide; body = frame.body } };

    ghost inverse = { λ frame. record { wide = frame.wide; body = frame.body } };

    ghost invariant = { λ frame. FitsWire (record { wide = frame.wide; body = frame.body }) };
}

impl OutFrame {
    /// Appends the frame as it goes over the wire: the length of the body, big-endian, and the body
    /// (Distribution Protocol, Distribution Handshake and Protocol between Connected Nodes).
    pub fn wire(&self, out: &mut Vec<u8>) -> Result<(), OutOfMemory>
        ensures ok { OnOk result (out.new.items ≡ out.old.items ++ wire_bytes self.now) }
        ensures memory { OnErr result (out.new.items ≡ out.old.items) }
    {
        let body = self.body.as_slice();
        out.reserve(4 + body.len())?;
        if self.wide {
            out.extend_from_slice(&(body.len() as u32).to_be_bytes())
                .unwrap();
        } else {
            out.extend_from_slice(&(body.len() as u16).to_be_bytes())
                .unwrap();
        }
        out.extend_from_slice(body).unwrap();
        Ok(())
    }
}

impl TryClone for OutFrame {
    fn try_clone(&self, alloc: Global) -> Result<OutFrame, OutOfMemory> {
        Ok(OutFrame {
            wide: self.wide,
            body: self.body.try_clone(alloc)?,
        })
    }
}
