//! Scripts of world steps: what a line asks for, the step that it makes, and its answer as a line.
#![tactic(auto)]

mod answers;
mod diagnosis;
mod lab;
mod named_world;
mod opening_words;
mod reading;
mod settling;
mod showing;
mod steps;
mod world_line;

pub use answers::put_answer;
pub use diagnosis::{FORMS, Unread, why_unread};
pub use lab::{Lab, LabFault, follow};
pub use named_world::NamedWorld;
pub use opening_words::opening;
pub use reading::read_world_line;
pub use settling::{TURNS, put_settled, settle};
pub use showing::put_shown;
pub use steps::step_of;
pub use world_line::WorldLine;
