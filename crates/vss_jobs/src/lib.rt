//! What words and files ask for: the command of the words, the files that it names, and the job that they make.
#![tactic(auto)]

mod cases;
mod documents;
mod job;
mod laws;
mod making;
mod refusal;
mod reports;
mod stops;

pub use job::{Job, Search};
pub use laws::jobs_are_one;
pub use making::job_of;
pub use refusal::Refusal;
pub use stops::stop_of_size;
