//! Tests of whole calls over files and outputs in memory: words, refusals, verdicts, printed lines.
#![tactic(auto)]

#[cfg(test)]
mod tests;
#[cfg(test)]
mod texts;
