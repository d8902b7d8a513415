//! What follows from the contract of a step. Each function does nothing; its contract is the law.
ghost use Rattle.std.specs.Prelude.{◌≡◌, ◌≢◌, ℕ, IsTrue, Err, List, [], ◌++◌, Some, slice_get};
ghost use Rattle.std.specs.declared.result.Result.{Result};
ghost use Rattle.policy_audit.specs.History.{History};
ghost use Rattle.node_core.specs.declared.fault.CoreFault.TheVariants as core_fault;
ghost use Rattle.pg_world.specs.declared.side.Side.{Side};
ghost use Rattle.pg_world.specs.declared.world_step.WorldStep.{WorldStep};
ghost use Rattle.pg_world.specs.declared.world_step.WorldReply.{WorldReply};
ghost use Rattle.pg_world.specs.declared.fault.WorldFault.{WorldFault};
ghost use Rattle.pg_world.specs.declared.fault.WorldFault.TheVariants as fault;
ghost use Rattle.pg_world.specs.World.{Nodes, world, DifferInName, HaveNodes};
ghost use Rattle.pg_world.specs.Steps.{IsWorldStep, end_at, opener_at};
ghost use Rattle.pg_world.specs.Refusals.{keeps_wires};
ghost use Rattle.pg_world.specs.Sound.{IsWorld, IsWrittenStep};
ghost use Rattle.frame_laws.specs.Written.{IsNode};
ghost use Rattle.pg_world.specs.Views.{ListMoments, ListNow};
ghost use Rattle.pg_world.specs.UnderWay.{PartsUnderWay};
ghost use Rattle.pg_world.specs.Exchange.{Comes, IsExchanged, IsBehind, two_nodes, exchange, join_again};

/// A step that wants memory changes nothing.
pub fn memory_changes_nothing()
    ensures { (old new : Nodes) (t : WorldStep)
        → IsWorldStep old t new (Err (fault.Core core_fault.OutOfMemory)) → new ≡ old }
{}

/// A refused step changes no wire, except that a frame whose delivery is refused by another rule
/// than `EntriesFull` leaves its queue, and that a cut of a link that isn't kept drops what is
/// under way to it.
pub fn refusals_keep_wires()
    ensures { (old new : Nodes) (t : WorldStep) (f : WorldFault) → IsWorldStep old t new (Err f)
        → IsTrue (keeps_wires t f) → new.wires ≡ old.wires }
{}

/// In a world without wires, and so in every world that steps make of it, both nodes of each wire
/// are there. So `NoNode` is answered of no wire.
pub fn wires_have_nodes()
    ensures start { (hs : List History) → HaveNodes (world hs []) }
    ensures stays { (old new : Nodes) (t : WorldStep) (r : Result WorldReply WorldFault)
        → HaveNodes old → IsWorldStep old t new r → HaveNodes new }
    ensures ends { (w : Nodes) (n : ℕ) (at : Side) → HaveNodes w
        → end_at w n at ≢ Err fault.NoNode }
    ensures opener { (w : Nodes) (n : ℕ) → HaveNodes w → opener_at w n ≢ Err fault.NoNode }
{}

/// In a world, where a node's present link to another hears a scope, the node lists the other's own
/// rows at one moment: the source of the last Sync, Join or Leave that it accepted there in this
/// hearing, when the other had proved its end of the link, with no restart since. Where it doesn't
/// hear the scope, it lists no row of the other.
pub fn list_moments()
    ensures { (w : Nodes) → IsWorld w → ListMoments w }
{}

/// In a world, where both ends of a wire are up and visible, tell and hear each other in a scope,
/// and nothing waits or is under way there, each lists exactly the other's own rows of now.
pub fn list_now()
    ensures { (w : Nodes) → IsWorld w → ListNow w }
{}

/// In a world, where an end of a wire is up and keeps parts of a message, these are the first that
/// the other end owed of one message, the last that came; and what is under way to it goes on with
/// the rest, in order. While the other end is open, so does what waits there, and no part is
/// missing.
pub fn parts_under_way()
    ensures { (w : Nodes) → IsWorld w → PartsUnderWay w }
{}

/// Nodes that have seen nothing and differ in their names are a world, without wires.
pub fn starts_sound()
    ensures { (hs : List History) → DifferInName hs
        → ((i : ℕ) (h : History) → slice_get hs i ≡ Some h → IsNode h)
        → ((i : ℕ) (h : History) → slice_get hs i ≡ Some h → h.entries ≡ [])
        → IsWorld (world hs []) }
{}

/// A world stays one with each step, whether it is answered or refused, if what the step brings is
/// within its limits.
pub fn stays_sound()
    ensures { (old new : Nodes) (t : WorldStep) (r : Result WorldReply WorldFault) → IsWorld old
        → IsWrittenStep t → IsWorldStep old t new r → IsWorld new }
{}

/// There are such worlds: two nodes that have seen nothing, and these steps, each with its answer.
/// Then both ends of their wire exchange a scope, nothing is under way there, and each node lists a
/// process of the other. Where that process joins once more, the other node lists it as often as
/// before.
pub fn two_nodes_exchange()
    ensures now { (w : Nodes) × Comes two_nodes exchange w × IsWorld w × IsExchanged w }
    ensures behind { (w : Nodes) × Comes two_nodes (exchange ++ join_again) w × IsWorld w
        × IsBehind w }
{}
