//! The order in which variables are decided: the most active open one comes next.
#![tactic(auto)]

mod choosing;
mod exchange;
mod heap;
mod order;
mod score;
mod sift;

pub use choosing::{decide_next, go_back};
pub use order::ActivityOrder;
