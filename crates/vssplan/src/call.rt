//! A call of the program.

ghost use Rattle.std.specs.Prelude.{◌≡◌, ◌≤◌, map, string_bytes};
ghost use Rattle.vss_io.specs.Faults.{Rose};
ghost use Rattle.vss_io.specs.Reading.{Keeps};
ghost use Rattle.vss_words.specs.Commands.{command};
ghost use Rattle.vss_jobs.specs.Asked.{files_asked_for};
ghost use Rattle.vss_run.specs.Call.{CallEnds, AreDecisive, ReadsBack};

use solver_face::Solver;
use std::alloc::Global;
use vss_answers::Status;
use vss_io::{Shelf, Sink};

/// Does what the words ask for, with files from the shelf and searches by the solver `S`, and writes what it has to say.
/// Everything is computed before the first byte is written, and printing takes no memory.
pub fn run<S: Solver, H: Shelf, K: Sink>(
    alloc: Global,
    words: &[String],
    shelf: &mut H,
    out: &mut K,
) -> Status
    ensures ends { CallEnds (map string_bytes words.now) (H.shown shelf.old) (H.shown shelf.new) (K.shown out.old) (K.shown out.new) result }
    ensures decisive { AreDecisive (map string_bytes words.now) (H.shown shelf.old) (H.shown shelf.new) (K.shown out.old) (K.shown out.new) result }
    ensures read_back { ReadsBack (map string_bytes words.now) (H.shown shelf.old) (H.shown shelf.new) (K.shown out.old) (K.shown out.new) result }
    ensures write_fault { result ≡ Status.WriteFault → Rose (K.shown out.old).faults (K.shown out.new).faults }
    ensures files_kept { Keeps (H.shown shelf.old) (H.shown shelf.new) (files_asked_for (command (map string_bytes words.now))) }
    ensures never_falls { (K.shown out.old).faults ≤ (K.shown out.new).faults }
{
    vss_run::run::<S, H, K>(alloc, words, shelf, out)
}
