//! A solver that looks at every clause: short and readable, the reference beside which a faster one is tested.
#![tactic(auto)]

mod conflict;
mod passes;
mod pick;
mod reading;
mod search;
mod solver;
mod state;
mod unit;

pub use solver::PlainSolver;
