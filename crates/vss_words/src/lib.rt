//! The words of the command line: which command they ask for, read by `clap`.
#![tactic(auto)]

mod command;
mod fault;
mod forms;
mod laws;
mod numbers;
mod parse;
mod reading;
mod task;
mod words;

pub use command::{Command, DocumentNames};
pub use fault::WordsFault;
pub use laws::plain_words_are_taken;
pub use words::command_of;
