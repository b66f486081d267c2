//! Cuts a network and a timetable into steps of space and time: the instance of their scene with its labels, or why there is none.
#![tactic(auto)]

mod cells;
mod ends;
mod grid;
mod joins;
mod kept;
mod labels;
mod laws;
mod places;
mod refusal;
mod rounding;
mod rules;
mod scene;
mod stations;
mod tracks;
mod trains;

pub use laws::{scenes_are_instances, scenes_are_one};
pub use refusal::{CutFault, CutRefusal};
pub use scene::scene_of;
