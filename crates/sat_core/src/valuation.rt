//! Valuations of a formula's variables.

use vss_lists::Items;

/// One truth value for each variable: variable `v` has the value at place `v - 1`.
#[derive(Debug, Drop)]
pub struct Valuation {
    pub values: Items<bool>,
}
