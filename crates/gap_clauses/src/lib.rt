//! What lies between two cells of a section: the walks from the one to the other, and the candidates
//! on each.
#![tactic(auto)]

mod build;
mod candidates;
mod fan;
mod gaps;
mod laws;
mod marks;
mod neighbours;
mod refusal;
mod search;
mod tree;

pub use gaps::Gaps;
pub use laws::{separated_where_candidates_cut, separated_where_cut, walks_are_unique};
pub use refusal::GapRefusal;
