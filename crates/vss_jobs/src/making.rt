//! The job that words and files make.

ghost use Rattle.std.specs.Prelude.{IfOk, IsErrOf, map, string_bytes};
ghost use Rattle.vss_io.specs.Reading.{Keeps};
ghost use Rattle.vss_stages.specs.Stages.{Then, Ends};
ghost use Rattle.vss_words.specs.Commands.{command, HasInRange, IsBudget, NamesTask};
ghost use Rattle.vss_jobs.specs.Asked.{files_named, files_asked_for, names_of_documents};
ghost use Rattle.vss_jobs.specs.Held.{job_in};
ghost use Rattle.vss_jobs.specs.Jobs.{IsReadyJob, IsJobOf, IsJob, IsSettingOf, IsSearchJob};

use crate::cases::{making_case, trying_case};
use crate::documents::read_documents;
use crate::job::{Job, Search};
use crate::refusal::Refusal;
use crate::reports::{checking, judging};
use std::alloc::Global;
use vss_io::Shelf;
use vss_stages::Stop;
use vss_words::{Command, DocumentNames, WordsFault, command_of};

/// The job that the words ask for and the files make, with all that it needs; or why there is none. Files are read in
/// their order, and none behind one that isn't accepted.
pub fn job_of<H: Shelf>(
    alloc: Global,
    words: &[String],
    shelf: &mut H,
) -> Result<Job, Stop<Refusal>>
    ensures kept { Keeps (H.shown shelf.old) (H.shown shelf.new) (files_asked_for (command (map string_bytes words.now))) }
    ensures job { Ends (IsJob (map string_bytes words.now) (H.shown shelf.old) (H.shown shelf.new)) job_in result }
    ensures ready { IfOk result (λ job. IsReadyJob (job_in job)) }
    ensures memory { IsErrOf result Stop.Memory → NamesTask (map string_bytes words.now) }
{
    match command_of(alloc, words) {
        Ok(asked) => job_for(alloc, &asked, shelf),
        Err(WordsFault::NotTaken) => Err(Stop::Usage),
        Err(WordsFault::Memory) => Err(Stop::Memory),
    }
}

/// The job of a command.
fn job_for<H: Shelf>(alloc: Global, asked: &Command, shelf: &mut H) -> Result<Job, Stop<Refusal>>
    requires { HasInRange asked.now }
    ensures kept { Keeps (H.shown shelf.old) (H.shown shelf.new) (files_named asked.now) }
    ensures job { Ends (IsJobOf (H.shown shelf.old) (H.shown shelf.new) asked.now) job_in result }
    ensures ready { IfOk result (λ job. IsReadyJob (job_in job)) }
{
    match asked {
        Command::Verify { documents, budget } => {
            searching(alloc, documents, Search::Verify, *budget, shelf)
        }
        Command::Generate {
            documents,
            most,
            budget,
        } => searching(
            alloc,
            documents,
            Search::Generate { most: *most },
            *budget,
            shelf,
        ),
        Command::Optimise { documents, budget } => {
            searching(alloc, documents, Search::Optimise, *budget, shelf)
        }
        Command::Judge { documents, report } => judging(alloc, documents, report.as_str(), shelf),
        Command::Check { documents, report } => checking(alloc, documents, report.as_str(), shelf),
        Command::Make { seed, size } => making_case(alloc, *seed, *size),
        Command::Trial { seed, size, budget } => trying_case(alloc, *seed, *size, *budget),
    }
}

/// Reads the documents whose scene is to be searched.
fn searching<H: Shelf>(
    alloc: Global,
    names: &DocumentNames,
    search: Search,
    budget: u32,
    shelf: &mut H,
) -> Result<Job, Stop<Refusal>>
    requires { IsBudget budget }
    ensures kept { Keeps (H.shown shelf.old) (H.shown shelf.new) (names_of_documents names.now) }
    ensures job { Ends (Then (IsSettingOf (H.shown shelf.old) (H.shown shelf.new) names.now) (IsSearchJob search budget)) job_in result }
    ensures ready { IfOk result (λ job. IsReadyJob (job_in job)) }
{
    match read_documents(alloc, names, shelf) {
        Ok(scene) => Ok(Job::Search {
            scene,
            search,
            budget,
        }),
        Err(stop) => Err(stop),
    }
}
