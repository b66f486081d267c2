//! The text of what a call has to say, and the status that belongs to it.

ghost use Rattle.std.specs.Prelude.{◌≡◌};
ghost use Rattle.vss_io.specs.Written.{Prints};
ghost use Rattle.vss_answers.specs.Statuses.{status_of, answer_status, outcome_status};
ghost use Rattle.vss_answers.specs.Texts.{input_word, answer_text, stop_text, said_text};

use crate::answer::Answer;
use crate::breach::print_breach;
use crate::check_lines::{print_not_proved, print_proved, word_of_step_fault};
use crate::refusals::print_refusal;
use crate::status::Status;
use case_texts::{print_case, print_summary};
use itoa::Buffer;
use vss_io::{Sink, SinkFault, print_line};
use vss_jobs::Refusal;
use vss_report::{Outcome, write_outcome};
use vss_stages::{Input, Stop};

/// The status of what a call has to say.
pub fn status_after(said: &Result<Answer, Stop<Refusal>>) -> Status
    ensures { result ≡ status_of said.now }
{
    match said {
        Ok(answer) => status_of_answer(answer),
        Err(Stop::Usage) => Status::Words,
        Err(Stop::ReadFault(_)) => Status::ReadFault,
        Err(Stop::TooLong(_)) => Status::Refused,
        Err(Stop::Refused(_)) => Status::Refused,
        Err(Stop::Memory) => Status::Memory,
    }
}

fn status_of_answer(answer: &Answer) -> Status
    ensures { result ≡ answer_status answer.now }
{
    match answer {
        Answer::Lawful { .. } => Status::Done,
        Answer::Breach { .. } => Status::Breach,
        Answer::Proved { .. } => Status::Done,
        Answer::NotProved { .. } => Status::NotProved,
        Answer::NoEmptyClause { .. } => Status::NotProved,
        Answer::Found { outcome, .. } => status_of_outcome(outcome),
        Answer::Made { .. } => Status::Done,
        Answer::Tried { outcome, .. } => status_of_outcome(outcome),
    }
}

fn status_of_outcome(outcome: &Outcome) -> Status
    ensures { result ≡ outcome_status outcome.now }
{
    match outcome {
        Outcome::Done(_) => Status::Done,
        Outcome::Impossible(_) => Status::Impossible,
        Outcome::Spent { .. } => Status::Spent,
    }
}

/// Prints what a call has to say, without memory; nothing for want of memory.
pub fn print_said<K: Sink>(
    said: &Result<Answer, Stop<Refusal>>,
    out: &mut K,
) -> Result<(), SinkFault>
    ensures { Prints (K.shown out.old) (K.shown out.new) (said_text said.now) result }
{
    match said {
        Ok(answer) => print_answer(answer, out),
        Err(stop) => print_stop(stop, out),
    }
}

/// Prints the line of a stop; nothing for want of memory.
fn print_stop<K: Sink>(stop: &Stop<Refusal>, out: &mut K) -> Result<(), SinkFault>
    ensures { Prints (K.shown out.old) (K.shown out.new) (stop_text stop.now) result }
{
    match stop {
        Stop::Usage => print_line(
            &[b"usage: vssplan TASK NET TIMETABLE [REPORT] [--borders N] [--budget N]"],
            out,
        ),
        Stop::ReadFault(input) => print_line(&[b"read fault ", word_of(*input)], out),
        Stop::TooLong(input) => print_line(
            &[b"refused ", word_of(*input), b" FileTooLong document 0"],
            out,
        ),
        Stop::Refused(refusal) => print_refusal(refusal, out),
        Stop::Memory => Ok(()),
    }
}

/// Prints the text of an answer.
fn print_answer<K: Sink>(answer: &Answer, out: &mut K) -> Result<(), SinkFault>
    ensures { Prints (K.shown out.old) (K.shown out.new) (answer_text answer.now) result }
{
    match answer {
        Answer::Lawful { borders } => print_line(
            &[b"lawful ", Buffer::new().format(*borders).as_bytes()],
            out,
        ),
        Answer::Breach { breach, labels } => print_breach(labels, breach, out),
        Answer::Proved { bound } => print_proved(*bound, out),
        Answer::NotProved { line, fault } => {
            print_not_proved(*line, word_of_step_fault(*fault), out)
        }
        Answer::NoEmptyClause { line } => print_not_proved(*line, b"NoEmptyClause", out),
        Answer::Found { outcome, labels } => write_outcome(labels, outcome, out),
        Answer::Made { network, timetable } => {
            let network = network.as_slice();
            let timetable = timetable.as_slice();
            print_case(network, timetable, out)
        }
        Answer::Tried { outcome, inst } => print_summary(inst, outcome, out),
    }
}

/// The word for the file in printed lines.
fn word_of(input: Input) -> &'static [u8]
    ensures { result.now ≡ input_word input }
{
    match input {
        Input::Network => b"network",
        Input::Timetable => b"timetable",
        Input::Report => b"report",
    }
}
