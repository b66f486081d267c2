//! Tests of the grid: which refusal a network and a timetable get, at both sides of its edge, and what is made of
//! them where they get none. Each wanted value follows from the rules of rounding.
#![tactic(auto)]

#[cfg(test)]
mod tests;
