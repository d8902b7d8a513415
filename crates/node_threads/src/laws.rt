//! A law. Its function does nothing; the contract is the law.
ghost use Rattle.std.specs.Prelude.{◌↔◌};
ghost use Rattle.node_threads.specs.Calls.{Record};
ghost use Rattle.node_threads.specs.Room.{Room};
ghost use Rattle.node_threads.specs.Closing.{IsOwn, IsWhole, HasAll};

/// A pass that let no call go, of a node that has handed out no entry, is that of its seat, as
/// `settles` asks it, exactly where its calls are all entries of its seat, each once and in their
/// order.
pub fn whole_passes()
    ensures { (room : Room) (p : Record) → IsWhole room p → (IsOwn room p ↔ HasAll room p) }
{}
