//! What is printed of made cases: their documents, and the summary of a trial.
#![tactic(auto)]

mod documents;
mod summary;

pub use documents::print_case;
pub use summary::print_summary;
