//! The law that a task of an instance has one formula, or one refusal of its size.
#![tactic(auto)]

mod laws;

pub use laws::formulas_are_one;
