//! Tests of made cases: they are read and cut without a refusal, and what is printed of them.
#![tactic(auto)]

#[cfg(test)]
mod tests;
