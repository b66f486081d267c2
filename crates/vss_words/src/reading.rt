//! The command of a task, read of what `clap` found.

ghost use Rattle.std.specs.Prelude.{◌≤◌, IfOk};
ghost use Rattle.clap.specs.Words.{found_of, first_of, rows_of};
ghost use Rattle.vss_words.specs.Commands.{ReadsAs, HasInRange, IsBudget, budget_in, command_from, documents_in, most_in, number_given};

use crate::command::{Command, DocumentNames};
use crate::fault::WordsFault;
use crate::numbers::number_in;
use crate::parse::text_at;
use crate::task::Task;
use clap::ArgMatches;
use std::alloc::Global;
use vss_lists::Text;

/// A budget where none is given.
const USUAL_BUDGET: u32 = 200_000;

/// The largest budget.
const MOST_BUDGET: u32 = 1_000_000_000;

/// The largest size of a made case.
const LARGEST_SIZE: u32 = 8;

/// The text that was given to the argument.
fn owned_at(alloc: Global, matches: &ArgMatches<'_>, id: &str) -> Result<Text, WordsFault>
    ensures { ReadsAs (first_of id.now (rows_of (found_of matches.now))) (λ text. text) result }
{
    match text_at(matches, id) {
        Some(text) => Ok(Text::from_string(String::from_str(alloc, text)?)),
        None => Err(WordsFault::NotTaken),
    }
}

/// The names of both documents.
fn documents(alloc: Global, matches: &ArgMatches<'_>) -> Result<DocumentNames, WordsFault>
    ensures { ReadsAs (documents_in (rows_of (found_of matches.now))) (λ names. names) result }
{
    let network = owned_at(alloc, matches, "net")?;
    let timetable = owned_at(alloc, matches, "timetable")?;
    Ok(DocumentNames { network, timetable })
}

/// The number that was given to the argument.
fn number(low: u32, high: u32, matches: &ArgMatches<'_>, id: &str) -> Result<u32, WordsFault>
    ensures value { ReadsAs (number_given low high id.now (rows_of (found_of matches.now))) (λ n. n) result }
    ensures within { IfOk result (λ n. (low ≤ n) × (n ≤ high)) }
{
    let Some(text) = text_at(matches, id) else {
        return Err(WordsFault::NotTaken);
    };
    number_in(low, high, text).ok_or(WordsFault::NotTaken)
}

/// The budget, or the usual one where none is given.
fn budget(matches: &ArgMatches<'_>) -> Result<u32, WordsFault>
    ensures value { ReadsAs (budget_in (rows_of (found_of matches.now))) (λ n. n) result }
    ensures within { IfOk result IsBudget }
{
    match text_at(matches, "budget") {
        Some(text) => number_in(1, MOST_BUDGET, text).ok_or(WordsFault::NotTaken),
        None => Ok(USUAL_BUDGET),
    }
}

/// The largest count of borders, if one is given.
fn most(matches: &ArgMatches<'_>) -> Result<Option<u32>, WordsFault>
    ensures { ReadsAs (most_in (rows_of (found_of matches.now))) (λ n. n) result }
{
    match text_at(matches, "borders") {
        Some(text) => match number_in(0, u32::MAX, text) {
            Some(count) => Ok(Some(count)),
            None => Err(WordsFault::NotTaken),
        },
        None => Ok(None),
    }
}

/// The command of the task with the arguments that were found.
pub fn read_command(
    alloc: Global,
    task: Task,
    matches: &ArgMatches<'_>,
) -> Result<Command, WordsFault>
    ensures value { ReadsAs (command_from task (rows_of (found_of matches.now))) (λ command. command) result }
    ensures range { IfOk result HasInRange }
{
    match task {
        Task::Verify => Ok(Command::Verify {
            documents: documents(alloc, matches)?,
            budget: budget(matches)?,
        }),
        Task::Generate => Ok(Command::Generate {
            documents: documents(alloc, matches)?,
            most: most(matches)?,
            budget: budget(matches)?,
        }),
        Task::Optimise => Ok(Command::Optimise {
            documents: documents(alloc, matches)?,
            budget: budget(matches)?,
        }),
        Task::Judge => Ok(Command::Judge {
            documents: documents(alloc, matches)?,
            report: owned_at(alloc, matches, "report")?,
        }),
        Task::Check => Ok(Command::Check {
            documents: documents(alloc, matches)?,
            report: owned_at(alloc, matches, "report")?,
        }),
        Task::Make => Ok(Command::Make {
            seed: number(0, u32::MAX, matches, "seed")?,
            size: number(1, LARGEST_SIZE, matches, "size")?,
        }),
        Task::Trial => Ok(Command::Trial {
            seed: number(0, u32::MAX, matches, "seed")?,
            size: number(1, LARGEST_SIZE, matches, "size")?,
            budget: budget(matches)?,
        }),
    }
}
