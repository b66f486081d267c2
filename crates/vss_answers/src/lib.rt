//! What a call has to say: the answers to jobs, the lines that are printed, and the statuses.
#![tactic(auto)]

mod answer;
mod answering;
mod breach;
mod check_lines;
mod checking;
mod laws;
mod printing;
mod refusal_words;
mod refusals;
mod searching;
mod status;

pub use answer::Answer;
pub use answering::answer_to;
pub use breach::print_breach;
pub use laws::{answers_are_one, answers_are_true};
pub use printing::{print_said, status_after};
pub use status::Status;
