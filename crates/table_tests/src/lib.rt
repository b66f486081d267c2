//! Tests of gaps and of sweep tables, on instances that are drawn by hand: lines, points, crossings and rings.
//! Each wanted value follows from the rules of space and of walks.
#![tactic(auto)]

#[cfg(test)]
mod tests;
