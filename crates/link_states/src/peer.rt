//! What a state knows of its peer.
ghost use Rattle.std.specs.Prelude.{◌≡◌};
ghost use Rattle.link_states.specs.Peer.{is_visible, link_version};

use admission_rules::Admission;
use dist_types::{Flags, NodeName};

/// Who the peer is, by its name frame or its challenge frame.
#[derive(Debug)]
pub struct Peer {
    pub name: NodeName,
    pub creation: u32,
    /// Neither end is hidden.
    pub visible: bool,
    /// The version of the link's messages, 1 or 2.
    pub version: u8,
}

impl Drop for Peer {
    fn drop(self) {
        let Peer {
            name: _,
            creation: _,
            visible: _,
            version: _,
        } = self;
    }
}

impl Peer {
    /// The peer that sent these flags, this creation and this version.
    pub fn new(
        admission: &Admission,
        name: NodeName,
        flags: Flags,
        creation: u32,
        version: u8,
    ) -> Peer
        ensures { result ≡ record {
          name = name;
          creation = creation;
          visible = is_visible admission.now flags.0;
          version = link_version admission.now version;
        } }
    {
        let both_know_2 = admission.links() == 2 && version == 2;
        Peer {
            name,
            creation,
            visible: admission.visible(flags),
            version: if both_know_2 { 2 } else { 1 },
        }
    }
}
