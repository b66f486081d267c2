//! Tests of the judge and of linked cells, on instances that no document reaches: points, crossings, two
//! sections at one node, trains that meet, and stops. They stand above the crates that they test, whose
//! checks stay short so. Each wanted value follows from the rules of space, time and plans.
#![tactic(auto)]

#[cfg(test)]
mod tests;
