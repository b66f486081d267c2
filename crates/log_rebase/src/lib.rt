//! Logs over units that were given one after another, made into logs of the formula with the last one alone.
#![tactic(auto)]

mod law;
mod mark;
mod number;
mod rebasing;
mod renumbering;

pub use law::rebased_logs_refute;
pub use mark::UnitMark;
pub use rebasing::rebase;

#[cfg(test)]
mod tests;
