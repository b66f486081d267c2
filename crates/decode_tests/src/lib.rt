//! Tests of the decoder on what the plain solver finds: small instances, each with the one layout and the one plan that it can
//! have, worked out by hand.
#![tactic(auto)]

#[cfg(test)]
mod tests;
