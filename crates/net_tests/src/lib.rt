//! Tests of network documents: what each refusal is told for, and which of two. They stand above the crates that
//! they test, whose checks stay short so. Each wanted value follows from the rules of documents and networks.
#![tactic(auto)]

#[cfg(test)]
mod tests;
