//! Tests of what a network answers of its tracks: their sections, and the passages between them.
#![tactic(auto)]

#[cfg(test)]
mod tests;
