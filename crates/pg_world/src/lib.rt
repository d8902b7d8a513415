//! Several nodes and the wires between them, one step at a time.
#![tactic(auto)]

mod fault;
mod laws;
mod limits;
mod moving;
mod node;
mod queue;
mod side;
mod wire;
mod world;
mod world_step;

pub use fault::{NoWorld, NodesFault, WorldFault};
pub use laws::{
    list_moments, list_now, memory_changes_nothing, parts_under_way, refusals_keep_wires,
    starts_sound, stays_sound, two_nodes_exchange, wires_have_nodes,
};
pub use node::Node;
pub use side::Side;
pub use world::World;
pub use world_step::{WorldReply, WorldStep};
