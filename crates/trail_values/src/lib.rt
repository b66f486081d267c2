//! The valuation of a trail: the value of each variable, and what it satisfies where no variable is open.
#![tactic(auto)]

mod showing;

pub use showing::show;
