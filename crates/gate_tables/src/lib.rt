//! Gates of a few inputs as truth tables and clauses, and their clauses over the literals of a formula.
#![tactic(auto)]

mod gate;
mod tables;
mod wiring;

pub use gate::{Gate, GateClause, GateLit};
pub use tables::{and2, cell, eq, or2};
pub use wiring::emit;

#[cfg(test)]
mod tests;
