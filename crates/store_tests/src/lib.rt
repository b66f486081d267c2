//! Tests of the store of watched clauses, on trails that are driven by hand: what is forced, and by which clause.
#![tactic(auto)]

#[cfg(test)]
mod tests;
