//! Tests of linked cells and of verdicts, on networks that no document reaches.

mod links;
mod nets;
mod verdicts;
