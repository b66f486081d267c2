//! The counter of borders: clauses by which variables tell whether at least so many literals are true.
#![tactic(auto)]

mod counter;
mod gates;
mod rows;
mod size;

pub use counter::{CounterOut, add_counter};
pub use size::{CounterSize, counter_size};

#[cfg(test)]
mod tests;
