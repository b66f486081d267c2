//! The rules of sweeps, and the classes of cells that are linked under a layout.
#![tactic(auto)]

mod classes;
mod paths;
mod sweeps;

pub use classes::{Classes, classes_of};
pub use sweeps::{SweepFault, sweep_fault};
