//! A call of the program.

ghost use Rattle.std.specs.Prelude.{◌≡◌, ◌≤◌, ◌↔◌, Err, IsErrOf, IsTrue, map, string_bytes};
ghost use Rattle.vss_io.specs.Faults.{Rose};
ghost use Rattle.vss_io.specs.Reading.{Keeps};
ghost use Rattle.vss_stages.specs.Stages.{Ends as EndsStage};
ghost use Rattle.vss_words.specs.Commands.{command, NamesTask};
ghost use Rattle.vss_jobs.specs.Asked.{files_asked_for};
ghost use Rattle.vss_run.specs.Call.{IsRight, CallEnds, AreDecisive, ReadsBack};

use solver_face::Solver;
use std::alloc::Global;
use vss_answers::{
    Answer, Status, answer_to, answers_are_one, answers_are_true, print_said, status_after,
};
use vss_io::{Shelf, Sink};
use vss_jobs::{Refusal, job_of, jobs_are_one};
use vss_stages::Stop;
use written_reports::written_reports_are_right;

/// Does what the words ask for, with files from the shelf and searches by the solver `S`, and writes what it has to say.
/// Everything is computed before the first byte is written, and printing takes no memory.
pub fn run<S: Solver, H: Shelf, K: Sink>(
    alloc: Global,
    words: &[String],
    shelf: &mut H,
    out: &mut K,
) -> Status
    ensures ends { CallEnds (map string_bytes words.now) (H.shown shelf.old) (H.shown shelf.new) (K.shown out.old) (K.shown out.new) result }
    ensures decisive { AreDecisive (map string_bytes words.now) (H.shown shelf.old) (H.shown shelf.new) (K.shown out.old) (K.shown out.new) result }
    ensures read_back { ReadsBack (map string_bytes words.now) (H.shown shelf.old) (H.shown shelf.new) (K.shown out.old) (K.shown out.new) result }
    ensures write_fault { result ≡ Status.WriteFault → Rose (K.shown out.old).faults (K.shown out.new).faults }
    ensures files_kept { Keeps (H.shown shelf.old) (H.shown shelf.new) (files_asked_for (command (map string_bytes words.now))) }
    ensures never_falls { (K.shown out.old).faults ≤ (K.shown out.new).faults }
{
    jobs_are_one();
    answers_are_one();
    answers_are_true();
    written_reports_are_right();
    let said = said_to::<S, H>(alloc, words, shelf);
    if is_memory(&said) {
        return Status::Memory;
    }
    match print_said(&said, out) {
        Ok(()) => status_after(&said),
        Err(_) => Status::WriteFault,
    }
}

/// What there is to say to the words.
fn said_to<S: Solver, H: Shelf>(
    alloc: Global,
    words: &[String],
    shelf: &mut H,
) -> Result<Answer, Stop<Refusal>>
    ensures kept { Keeps (H.shown shelf.old) (H.shown shelf.new) (files_asked_for (command (map string_bytes words.now))) }
    ensures right { EndsStage (IsRight (map string_bytes words.now) (H.shown shelf.old) (H.shown shelf.new)) (λ answer. answer) result }
    ensures memory { IsErrOf result Stop.Memory → NamesTask (map string_bytes words.now) }
{
    match job_of(alloc, words, shelf) {
        Ok(job) => answer_to::<S>(alloc, job),
        Err(stop) => Err(stop),
    }
}

/// Whether there was not enough memory.
fn is_memory(said: &Result<Answer, Stop<Refusal>>) -> bool
    ensures { IsTrue result ↔ (said.now ≡ Err Stop.Memory) }
{
    matches!(said, Err(Stop::Memory))
}
