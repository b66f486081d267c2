//! The writer of reports.
ghost use Rattle.std.specs.Prelude.{◌++◌, ◌∷◌, [], decimal, map};
ghost use Rattle.vss_io.specs.Line.{flat, line};
ghost use Rattle.vss_io.specs.Written.{Prints};
ghost use Rattle.vss_report.specs.Lines.{text_of_lines, verdict_done, verdict_impossible, verdict_spent, conflicts, refutes, step};
ghost use Rattle.vss_report.specs.Outcomes.{lines_of_refutation, lines_of_smaller, lines_of_best, lines_of_verdict, lines_of_design, report_text};

use crate::design_writer::write_design;
use crate::outcome::{Design, Outcome, Smaller};
use cell_net::{Labels, Layout, Plan, Scene};
use derivation_log::{Bound, Refutation, Step, write_step};
use itoa::Buffer;
use vss_io::{Sink, SinkFault, print_line};

/// Puts the report of the outcome, line by line, and takes no memory. Linear in the cells of the plan and in the words of
/// the log.
pub fn write_report<K: Sink>(scene: &Scene, outcome: &Outcome, out: &mut K) -> Result<(), SinkFault>
    ensures { Prints (K.shown out.old) (K.shown out.new) (report_text scene.now.labels outcome.now) result }
{
    write_outcome(&scene.labels, outcome, out)
}

/// The same for a scene with these labels.
pub fn write_outcome<K: Sink>(
    labels: &Labels,
    outcome: &Outcome,
    out: &mut K,
) -> Result<(), SinkFault>
    ensures { Prints (K.shown out.old) (K.shown out.new) (report_text labels.now outcome.now) result }
{
    print_line(&[b"vssplan report 1"], out)?;
    write_verdict(labels, outcome, out)?;
    print_line(&[b"end"], out)
}

/// Puts the verdict and all that belongs to it.
fn write_verdict<K: Sink>(labels: &Labels, outcome: &Outcome, out: &mut K) -> Result<(), SinkFault>
    ensures { Prints (K.shown out.old) (K.shown out.new) (text_of_lines (lines_of_verdict labels.now outcome.now)) result }
{
    match outcome {
        Outcome::Done(design) => write_done(labels, design, out),
        Outcome::Impossible(refutation) => write_impossible(refutation, out),
        Outcome::Spent { conflicts, best } => write_spent(labels, *conflicts, best, out),
    }
}

fn write_done<K: Sink>(labels: &Labels, design: &Design, out: &mut K) -> Result<(), SinkFault>
    ensures { Prints (K.shown out.old) (K.shown out.new) (text_of_lines (verdict_done ∷ (lines_of_design labels.now design.now.layout design.now.plan ++ lines_of_smaller design.now.smaller))) result }
{
    print_line(&[b"verdict done"], out)?;
    write_design(labels, design.layout.borders(), &design.plan, out)?;
    write_smaller(&design.smaller, out)
}

fn write_impossible<K: Sink>(refutation: &Refutation, out: &mut K) -> Result<(), SinkFault>
    ensures { Prints (K.shown out.old) (K.shown out.new) (text_of_lines (verdict_impossible ∷ lines_of_refutation refutation.now)) result }
{
    print_line(&[b"verdict impossible"], out)?;
    write_refutation(refutation, out)
}

fn write_spent<K: Sink>(
    labels: &Labels,
    count: u32,
    best: &Option<(Layout, Plan)>,
    out: &mut K,
) -> Result<(), SinkFault>
    ensures { Prints (K.shown out.old) (K.shown out.new) (text_of_lines (verdict_spent ∷ (conflicts count ∷ lines_of_best labels.now best.now))) result }
{
    print_line(&[b"verdict spent"], out)?;
    write_numbered(b"conflicts ", count, out)?;
    write_best(labels, best, out)
}

fn write_best<K: Sink>(
    labels: &Labels,
    best: &Option<(Layout, Plan)>,
    out: &mut K,
) -> Result<(), SinkFault>
    ensures { Prints (K.shown out.old) (K.shown out.new) (text_of_lines (lines_of_best labels.now best.now)) result }
{
    match best {
        Some((layout, plan)) => write_design(labels, layout.borders(), plan, out),
        None => print_line(&[b"best none"], out),
    }
}

fn write_smaller<K: Sink>(smaller: &Smaller, out: &mut K) -> Result<(), SinkFault>
    ensures { Prints (K.shown out.old) (K.shown out.new) (text_of_lines (lines_of_smaller smaller.now)) result }
{
    match smaller {
        Smaller::NotAsked => Ok(()),
        Smaller::Nothing => print_line(&[b"smaller none"], out),
        Smaller::Refuted(refutation) => write_refutation(refutation, out),
    }
}

fn write_refutation<K: Sink>(refutation: &Refutation, out: &mut K) -> Result<(), SinkFault>
    ensures { Prints (K.shown out.old) (K.shown out.new) (text_of_lines (lines_of_refutation refutation.now)) result }
{
    write_bound(refutation.bound, out)?;
    write_steps(refutation.log.steps.as_slice(), out)
}

fn write_bound<K: Sink>(bound: Bound, out: &mut K) -> Result<(), SinkFault>
    ensures { Prints (K.shown out.old) (K.shown out.new) (text_of_lines (refutes bound ∷ [])) result }
{
    match bound {
        Bound::Given => print_line(&[b"refutes given"], out),
        Bound::AtMost(most) => write_numbered(b"refutes ", most, out),
    }
}

/// Puts the line of the words and the number.
fn write_numbered<K: Sink>(words: &[u8], number: u32, out: &mut K) -> Result<(), SinkFault>
    ensures { Prints (K.shown out.old) (K.shown out.new) (line (flat (words.now ∷ decimal number ∷ []))) result }
{
    print_line(&[words, Buffer::new().format(number).as_bytes()], out)
}

fn write_steps<K: Sink>(steps: &[Step], out: &mut K) -> Result<(), SinkFault>
    ensures { Prints (K.shown out.old) (K.shown out.new) (text_of_lines (map step steps.now)) result }
{
    for step in steps {
        write_step(step, out)?;
    }
    Ok(())
}
