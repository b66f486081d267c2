//! Tests of what `Instance::build` and `Layout::new` refuse: each rule at its limits, and which of two
//! faults is told. They stand above the crate that they test, whose check stays short so. Each wanted
//! value follows from the rules of instances and layouts.
#![tactic(auto)]

#[cfg(test)]
mod tests;
