//! The sweeps of one train, each once, and which of them go on from which; and what every such table
//! keeps.
#![tactic(auto)]

mod build;
mod ends;
mod groups;
mod grow;
mod ids;
mod moves;
mod order;
mod reach;
mod refusal;
mod successors;
mod table;

pub use ids::SweepId;
pub use moves::Moves;
pub use refusal::TableRefusal;
pub use table::SweepTable;
