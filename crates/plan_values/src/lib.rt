//! The values that a lawful plan gives to the variables of a task, and that they satisfy its clauses.
#![tactic(auto)]

mod laws;

pub use laws::{chains_satisfy, refuted_tasks_are_impossible, tasks_are_exact, tasks_have_chains};
