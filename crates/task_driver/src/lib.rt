//! The tasks that search: whether a layout is feasible, and which one has the fewest borders.
#![tactic(auto)]

mod checking;
mod fewest;
mod formulas;
mod given;
mod laws;
mod once;
mod units;

pub use checking::check;
pub use fewest::optimise;
pub use given::{generate, verify};
pub use laws::{checks_are_one, outcomes_are_true, searches_end_alike};
