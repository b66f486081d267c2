//! The decoder: from a valuation that satisfies the clauses of a task to a layout and a plan.
#![tactic(auto)]

mod chain;
mod decoding;
mod laws;
mod layout;
mod plan;
mod run;
mod values;

pub use decoding::{decode, decode_over};
pub use laws::free_formulas_say;
