//! Formulas in conjunctive normal form: literals, clauses and their satisfaction, and the definitions of derived
//! steps that every solver crate cites.
#![tactic(auto)]

mod clause;
mod formula;
mod literal;
mod pieces;
mod soundness;
mod step_fault;
mod valuation;

pub use clause::is_clause;
pub use formula::Formula;
pub use literal::{ClauseId, Lit, Var};
pub use soundness::{refutations_are_sound, refuted_searches_are_sound};
pub use step_fault::StepFault;
pub use valuation::Valuation;

#[cfg(test)]
mod tests;
