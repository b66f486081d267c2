//! The maker of cases: from a seed and a size, the documents of a line with stations and of its trains.
#![tactic(auto)]

mod draws;
mod made;
mod network;
mod text;
mod timetable;

pub use made::make_case;

#[cfg(test)]
mod tests;
