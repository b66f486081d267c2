//! A row of truths, a bit for each, which contracts see as the list of them.
#![tactic(auto)]

mod bits;

pub use bits::Bits;

#[cfg(test)]
mod tests;
