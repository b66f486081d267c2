//! Tests of the tasks over both solvers, on rows of cells with trains that follow each other, and on documents.
#![tactic(auto)]

#[cfg(test)]
mod tests;
