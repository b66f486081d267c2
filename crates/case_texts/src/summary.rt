//! The summary of a trial: how large the made case is, and how the search for its fewest borders ended.

ghost use Rattle.std.specs.Prelude.{◌≡◌};
ghost use Rattle.vss_io.specs.Written.{Prints};
ghost use Rattle.case_texts.specs.Summaries.{borders_text, counted_line, ending_text, space_text, summary_text, time_text, verdict_of};

use cell_net::Instance;
use itoa::Buffer;
use vss_io::{Sink, SinkFault, print_line};
use vss_report::Outcome;

/// Prints the summary of the outcome for the instance, line by line, without memory.
pub fn print_summary<K: Sink>(
    inst: &Instance,
    outcome: &Outcome,
    out: &mut K,
) -> Result<(), SinkFault>
    ensures { Prints (K.shown out.old) (K.shown out.new) (summary_text inst.now outcome.now) result }
{
    print_space(inst, out)?;
    print_time(inst, out)?;
    print_ending(outcome, out)
}

/// Prints how large the network is.
fn print_space<K: Sink>(inst: &Instance, out: &mut K) -> Result<(), SinkFault>
    ensures { Prints (K.shown out.old) (K.shown out.new) (space_text inst.now) result }
{
    print_counted(b"cells ", inst.cell_count() as usize, out)?;
    print_counted(b"candidates ", inst.candidate_count() as usize, out)
}

/// Prints how large the timetable is.
fn print_time<K: Sink>(inst: &Instance, out: &mut K) -> Result<(), SinkFault>
    ensures { Prints (K.shown out.old) (K.shown out.new) (time_text inst.now) result }
{
    print_counted(b"trains ", inst.train_count() as usize, out)?;
    print_counted(b"steps ", inst.steps() as usize, out)
}

/// Prints how the search ended.
fn print_ending<K: Sink>(outcome: &Outcome, out: &mut K) -> Result<(), SinkFault>
    ensures { Prints (K.shown out.old) (K.shown out.new) (ending_text outcome.now) result }
{
    print_line(&[b"verdict ", verdict_word(outcome)], out)?;
    print_borders(outcome, out)?;
    print_line(&[b"end"], out)
}

/// The word for how the search ended.
fn verdict_word(outcome: &Outcome) -> &'static [u8]
    ensures { result.now ≡ verdict_of outcome.now }
{
    match outcome {
        Outcome::Done(_) => b"done",
        Outcome::Impossible(_) => b"impossible",
        Outcome::Spent { .. } => b"spent",
    }
}

/// Prints the count of borders, where a design was found.
fn print_borders<K: Sink>(outcome: &Outcome, out: &mut K) -> Result<(), SinkFault>
    ensures { Prints (K.shown out.old) (K.shown out.new) (borders_text outcome.now) result }
{
    match outcome {
        Outcome::Done(design) => print_counted(b"borders ", design.layout.borders().len(), out),
        Outcome::Spent {
            best: Some((layout, _)),
            ..
        } => print_counted(b"borders ", layout.borders().len(), out),
        Outcome::Spent { best: None, .. } => Ok(()),
        Outcome::Impossible(_) => Ok(()),
    }
}

/// Prints the line of the word and the number.
fn print_counted<K: Sink>(word: &[u8], number: usize, out: &mut K) -> Result<(), SinkFault>
    ensures { Prints (K.shown out.old) (K.shown out.new) (counted_line word.now number) result }
{
    print_line(&[word, Buffer::new().format(number).as_bytes()], out)
}
