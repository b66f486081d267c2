//! Tests of the words of the command line: which are taken, and as what.
#![tactic(auto)]

#[cfg(test)]
mod tests;
