//! Names of nodes (Distribution Protocol).
ghost use Rattle.std.specs.Prelude.{◌≡◌, ◌≢◌, ◌↔◌, IsTrue, IfOk, IfErr, MatchResult, List, ℕ, true, false};
ghost use Rattle.dist_types.specs.Text.{HasInnerAt, IsNodeName, is_node_name};
ghost use Rattle.dist_types.specs.declared.fault.TextFault.TheVariants as faults;
ghost use Rattle.dist_types.specs.Fault.{IsNameFault};

use crate::fault::{OutOfMemory, TextFault};
use crate::items::TryClone;
use crate::text::{Text, check_bytes};
use std::alloc::Global;
use std::marker::Model;

/// The name of a node, as `a@h`.
#[derive(Debug, PartialEq, Eq, PartialOrd, Ord, Hash)]
pub struct NodeName {
    text: Text,
}

impl Drop for NodeName {
    fn drop(self) {
        let NodeName { text: _ } = self;
    }
}

impl Model for NodeName {
    ghost Value = { List ℕ };

    ghost view = { λ name. name.text };

    ghost inverse = { λ bytes. record { text = bytes } };

    ghost invariant = { λ name. HasInnerAt name.text };
}

impl NodeName {
    /// Reads a name: 1 to 255 bytes of 0x21 to 0x7E with exactly one `@`, neither first nor last.
    pub fn parse(alloc: Global, bytes: &[u8]) -> Result<NodeName, TextFault>
        ensures ok { IfOk result (λ name. (name ≡ bytes.now) × IsNodeName bytes.now) }
        ensures refused { IfErr result (λ fault. IsNameFault fault bytes.now) }
        ensures tested { MatchResult result (λ _. is_node_name bytes.now ≡ true)
            (λ fault. fault ≢ faults.OutOfMemory → is_node_name bytes.now ≡ false) }
    {
        check_bytes(bytes)?;
        if !has_inner_at(bytes) {
            return Err(TextFault::BadAt);
        }
        let text = Text::copied(alloc, bytes)?;
        Ok(NodeName { text })
    }

    /// The bytes of the name, as they were read, without an end mark.
    pub fn as_bytes(&self) -> &[u8]
        ensures value { result.now ≡ self.now }
        ensures limits { IsNodeName self.now }
    {
        self.text.as_bytes()
    }

    /// The name as text: it is ASCII.
    pub fn as_str(&self) -> &str
        ensures { result.now ≡ self.now }
    {
        self.text.as_str()
    }
}

/// Whether there is one `@`, neither first nor last.
fn has_inner_at(bytes: &[u8]) -> bool
    ensures { IsTrue result ↔ HasInnerAt bytes.now }
{
    bytes.iter().filter(|byte| **byte == b'@').count() == 1
        && bytes.first() != Some(&b'@')
        && bytes.last() != Some(&b'@')
}

impl TryClone for NodeName {
    fn try_clone(&self, alloc: Global) -> Result<NodeName, OutOfMemory> {
        let text = self.text.try_clone(alloc)?;
        Ok(NodeName { text })
    }
}
