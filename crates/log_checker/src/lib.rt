//! Decides, step by step, whether a log refutes a formula.
#![tactic(auto)]

mod assignment;
mod checker;
mod dropped;
mod drops;
mod hints;
mod judge;
mod numbers;
mod one_verdict;
mod store;
mod verdict;

pub use checker::Checker;
pub use one_verdict::verdicts_are_one;
pub use sat_core::StepFault;
pub use verdict::{LogVerdict, check_log};

#[cfg(test)]
mod refutation_tests;
#[cfg(test)]
mod tests;
