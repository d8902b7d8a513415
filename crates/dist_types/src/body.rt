//! The bytes of a frame or a message of a link.
ghost use Rattle.std.specs.Prelude.{◌≡◌, ◌++◌, [], List, ℕ, nat_eq, IfOk, OnOk, OnErr};
ghost use Rattle.std.specs.Arc.{arc_value};
ghost use Rattle.std.specs.Cmp as laws_of;
ghost use Rattle.std.specs.Cmp.Lexicographic.{pointwise, nat_list_eq_equiv};

use crate::fault::OutOfMemory;
use crate::items::TryClone;
use std::alloc::Global;
use std::marker::Model;
use std::sync::Arc;

/// The bytes of a frame or a message of a link, without the length before them. All copies share
/// them.
#[derive(Debug)]
pub struct Body {
    bytes: Arc<Vec<u8>>,
}

impl Drop for Body {
    fn drop(self) {
        let Body { bytes: _ } = self;
    }
}

impl Model for Body {
    ghost use Rattle.std.specs.Prelude.{List, ℕ};
    ghost use Rattle.std.specs.Arc.{arc_value};

    ghost Value = { List ℕ };

    ghost view = { λ body. (arc_value body.bytes).items };
}

impl Body {
    /// The body of no bytes. It takes memory for the count of the copies.
    pub fn new(alloc: Global) -> Result<Body, OutOfMemory>
        ensures { IfOk result (λ body. body ≡ []) }
    {
        Body::of(Vec::new(alloc))
    }

    /// The body of these bytes. It takes memory for the count of the copies; where there is none,
    /// the bytes are dropped.
    pub fn of(bytes: Vec<u8>) -> Result<Body, OutOfMemory>
        ensures { IfOk result (λ body. body ≡ bytes.items) }
    {
        let alloc = *bytes.allocator();
        match Arc::new(alloc, bytes) {
            Ok(bytes) => Ok(Body { bytes }),
            Err(_) => Err(OutOfMemory),
        }
    }

    pub fn as_slice(&self) -> &[u8]
        ensures { result.now ≡ self.now }
    {
        self.bytes.as_slice()
    }

    /// Appends bytes. Where copies share the body, it gets bytes of its own first.
    pub fn extend_from_slice(&mut self, bytes: &[u8]) -> Result<(), OutOfMemory>
        ensures ok { OnOk result (self.new ≡ self.old ++ bytes.now) }
        ensures same { OnErr result (self.new ≡ self.old) }
    {
        let own = Arc::make_mut(&mut self.bytes)?;
        own.extend_from_slice(bytes)?;
        Ok(())
    }
}

impl TryClone for Body {
    fn try_clone(&self, _alloc: Global) -> Result<Body, OutOfMemory> {
        let bytes = self.bytes.clone()?;
        Ok(Body { bytes })
    }
}

impl PartialEq for Body {
    ghost eq = { pointwise nat_eq };

    ghost laws = { laws_of.partial_equiv_from_equiv nat_list_eq_equiv };

    fn eq(&self, other: &Body) -> bool {
        self.as_slice() == other.as_slice()
    }
}

impl Eq for Body {
    ghost laws = { nat_list_eq_equiv };
}
