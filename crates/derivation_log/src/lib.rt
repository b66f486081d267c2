//! Derivation logs: the steps by which a formula is refuted.
#![tactic(auto)]

mod line_fault;
mod list;
mod number;
mod read;
mod step;
mod tested;
mod testing;
mod word;
mod write;

pub use line_fault::LineFault;
pub use list::ListText;
pub use read::read_step;
pub use step::{Bound, Log, Refutation, Step};
pub use tested::StepText;
pub use testing::{is_front_of_step, test_step};
pub use write::write_step;

#[cfg(test)]
mod tests;
