//! Tests of solvers through their one contract. They stand above the crates that they test, and are written for any
//! solver, so that each one runs the same rows. Wanted answers follow from the formulas alone, or from a truth table.
#![tactic(auto)]

#[cfg(test)]
mod tests;
