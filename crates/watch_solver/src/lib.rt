//! A solver that watches two literals of each clause: clause learning with restarts and an order of activity.
#![tactic(auto)]

mod activity;
mod begin;
mod conflict;
mod drop_choice;
mod dropping;
mod luby;
mod pace;
mod search;
mod seating;
mod solver;
mod state;
mod unit;

pub use solver::WatchSolver;
