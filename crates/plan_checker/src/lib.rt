//! The judge of plans: whether a plan is lawful under a layout, or else its first breach.
#![tactic(auto)]

mod breach;
mod clash;
mod clashes;
mod judging;
mod laws;
mod marks;
mod pairs;
mod runs;
mod stops;
mod sweeps;
mod traffic;

pub use breach::Breach;
pub use judging::{Verdict, judge};
pub use laws::first_breaches_are_one;
