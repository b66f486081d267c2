//! The program: the words of the command line, the files of the system, standard output, and the exit status.
#![tactic(auto)]

mod call;
mod edge;
#[cfg(test)]
mod tests;

use call::run;
use edge::{FileShelf, StdSink};
use std::alloc::AllocError;
use std::env;
use std::io::ErrorKind;
use std::process::ExitCode;
use vss_answers::Status;
use watch_solver::WatchSolver;

fn main(rt: HostRuntime) -> ExitCode {
    call_with(&rt).exit_code()
}

/// One call of the program, with the files of the system and standard output.
fn call_with(rt: &HostRuntime) -> Status {
    let Ok(words) = words_of(rt) else {
        return Status::Memory;
    };
    let mut shelf = FileShelf::new(rt, rt.alloc());
    let mut out = StdSink::new(rt);
    run::<WatchSolver, _, _>(rt.alloc(), words.as_slice(), &mut shelf, &mut out)
}

/// The words behind the program's name; none where one of them isn't text, since that asks for no task.
fn words_of(rt: &HostRuntime) -> Result<Vec<String>, AllocError> {
    let mut words = Vec::new(rt.alloc());
    match env::args(rt) {
        Ok(args) => {
            for word in args.skip(1) {
                words.push(word)?;
            }
            Ok(words)
        }
        Err(error) if error.kind() == ErrorKind::OutOfMemory => Err(AllocError),
        Err(_) => Ok(words),
    }
}
