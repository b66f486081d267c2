//! The plain data of a question: an instance of cells, nodes, sections and trains in steps of space
//! and time, layouts of virtual borders on it, and plans of its trains. The rules of space, time and
//! plans are the definitions in `specs/`, on which everything above stands.
#![tactic(auto)]

mod build;
mod cells;
mod ids;
mod instance;
mod labels;
mod laws;
mod layout;
pub mod limits;
mod parts;
mod passages;
mod plans;
mod rules;
mod scene;
mod segments;
mod trains;

pub use build::BuildRefusal;
pub use cells::{CellEnd, CellSpec, DirCell, End, JoinSpec};
pub use ids::{CandidateId, CellId, NodeId, SectionId, StationId, TrainId};
pub use instance::Instance;
pub use labels::{CellLabel, Labels, PlaceLabel};
pub use laws::{layout_refusals_are_exclusive, linked_is_an_equivalence, refusals_are_exclusive};
pub use layout::{Layout, LayoutRefusal};
pub use parts::InstanceParts;
pub use plans::{Plan, Sweep, TrainRun};
pub use scene::Scene;
pub use segments::segments_of;
pub use trains::{StopSpec, TrainSpec};
