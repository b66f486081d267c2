//! Texts read from the front, without memory: fixed words, numbers, and what a text that ends too early could become.
#![tactic(auto)]

mod fixed;
mod miss;
mod numbers;

pub use fixed::{after, begins_with};
pub use miss::Miss;
pub use numbers::number;
