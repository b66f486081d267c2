//! What the judge and the checker say of a report that a search of the same documents wrote.
#![tactic(auto)]

mod laws;

pub use laws::written_reports_are_right;
