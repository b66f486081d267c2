//! A counter of steps that takes no bytes: contracts see how often a call ticked, and the built program does nothing.
#![tactic(auto)]

mod steps;

pub use steps::Steps;
