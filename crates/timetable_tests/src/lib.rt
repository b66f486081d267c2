//! Tests of timetable documents: what is read, and what each refusal is told for.
#![tactic(auto)]

#[cfg(test)]
mod tests;
