//! The trail of a search: assignments in order, each with its reason and its level, and how many of them are read.
#![tactic(auto)]

mod entry;
mod trail;
mod undo;

pub use entry::{Entry, Truth};
pub use trail::Trail;
