//! The form of each task's words, as a command that `clap` reads them by.

ghost use Rattle.std.specs.Prelude.{◌≡◌, IfOk, true, false};
ghost use Rattle.clap.specs.Words.{app_of, rule_of};
ghost use Rattle.vss_words.specs.Forms.{form, place, option, with_documents, with_case, with_budget};

use crate::task::Task;
use clap::{Arg, Command};
use std::alloc::{AllocError, Global};

/// A word that has to stand there.
fn place_of<'a>(alloc: Global, id: &'a str) -> Arg<'a>
    ensures rule { rule_of result ≡ place id.now }
    ensures local { result.global ≡ false }
{
    Arg::new(alloc, id).required(true)
}

/// An option with one value.
fn option_of<'a>(alloc: Global, id: &'a str) -> Arg<'a>
    ensures rule { rule_of result ≡ option id.now }
    ensures local { result.global ≡ false }
{
    Arg::new(alloc, id).long(id)
}

/// The command with the names of both documents.
fn add_documents<'a>(alloc: Global, command: Command<'a>) -> Result<Command<'a>, AllocError>
    ensures { IfOk result (λ r. app_of r ≡ with_documents (app_of command.entry)) }
{
    command
        .arg(place_of(alloc, "net"))?
        .arg(place_of(alloc, "timetable"))
}

/// The command with the option of a budget.
fn add_budget<'a>(alloc: Global, command: Command<'a>) -> Result<Command<'a>, AllocError>
    ensures { IfOk result (λ r. app_of r ≡ with_budget (app_of command.entry)) }
{
    command.arg(option_of(alloc, "budget"))
}

/// The command with the two numbers of a made case.
fn add_case<'a>(alloc: Global, command: Command<'a>) -> Result<Command<'a>, AllocError>
    ensures { IfOk result (λ r. app_of r ≡ with_case (app_of command.entry)) }
{
    command
        .arg(place_of(alloc, "seed"))?
        .arg(place_of(alloc, "size"))
}

/// The form of the task's words.
pub fn form_of<'a>(alloc: Global, task: Task) -> Result<Command<'a>, AllocError>
    ensures { IfOk result (λ r. app_of r ≡ form task) }
{
    match task {
        Task::Verify => add_budget(alloc, add_documents(alloc, Command::new(alloc, "verify"))?),
        Task::Generate => {
            let command = add_documents(alloc, Command::new(alloc, "generate"))?;
            add_budget(alloc, command.arg(option_of(alloc, "borders"))?)
        }
        Task::Optimise => add_budget(
            alloc,
            add_documents(alloc, Command::new(alloc, "optimise"))?,
        ),
        Task::Judge => {
            add_documents(alloc, Command::new(alloc, "judge"))?.arg(place_of(alloc, "report"))
        }
        Task::Check => {
            add_documents(alloc, Command::new(alloc, "check"))?.arg(place_of(alloc, "report"))
        }
        Task::Make => add_case(alloc, Command::new(alloc, "make")),
        Task::Trial => add_budget(alloc, add_case(alloc, Command::new(alloc, "trial"))?),
    }
}
