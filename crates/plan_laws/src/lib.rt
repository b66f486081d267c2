//! What a valuation that satisfies the clauses of a task says: a chain of each train, any two of them apart under the borders
//! that stand, and a lawful plan.
#![tactic(auto)]

mod laws;

pub use laws::{chains_are_lawful, counts_bound_layouts, valuations_tell_chains};
