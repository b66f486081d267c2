//! A whole call of the program, over any files and any output: what words and files ask for, the answer, the printed line.
#![tactic(auto)]

mod call;

pub use call::run;
