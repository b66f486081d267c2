//! Learning from a conflict: one clause that follows from the live ones and is false on the trail, with hints that show
//! it, and the level to go back to.
#![tactic(auto)]

mod clauses;
mod formula;
mod learned;
mod learning;
mod lower;
mod marking;
mod marks;
mod space;

pub use clauses::Clauses;
pub use learned::Learned;
pub use space::{LearnSpace, learn, learn_with};
