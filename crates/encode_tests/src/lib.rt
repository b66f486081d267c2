//! Tests of formulas and of the numbers of their variables: small instances clause by clause, large ones by their sizes.
#![tactic(auto)]

#[cfg(test)]
mod tests;
