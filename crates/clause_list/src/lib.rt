//! The clause list of a task: its variables, its families of clauses, the cones of trains, and their laws.
#![tactic(auto)]

mod laws;

pub use laws::{free_tasks_are_clauses, given_tasks_are_clauses, variables_differ};
