//! Tests of reports: the text of each form, what is read of a report, and the line at which each wrong one goes wrong.
#![tactic(auto)]

#[cfg(test)]
mod refutations;
#[cfg(test)]
mod scenes;
#[cfg(test)]
mod writing;
