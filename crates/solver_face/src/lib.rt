//! The face of a solver: what it is given, what it answers, and what its answers show.
#![tactic(auto)]

mod answer;
mod budget;
mod solver;

pub use answer::Answer;
pub use budget::Budget;
pub use solver::Solver;
