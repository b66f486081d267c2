//! The command that words ask for.

ghost use Rattle.std.specs.Prelude.{IfOk, IsErrOf, map, string_bytes};
ghost use Rattle.vss_words.specs.Commands.{ReadsAs, command};
ghost use Rattle.vss_words.specs.Commands.{HasInRange, NamesTask};

use crate::command::Command;
use crate::fault::WordsFault;
use crate::forms::form_of;
use crate::parse::matches_in;
use crate::reading::read_command;
use crate::task::task_of;
use std::alloc::Global;

#[tactic(auto, unfolding(crate::specs::Commands::command))]
/// The command that the words ask for. The first one names the task, the others are read by `clap`, and each number has 1
/// to 10 decimal digits and is in its range. `NotTaken` comes exactly where they ask for none, and `Memory`, for want of
/// memory, only where the first word names a task. Linear in the words.
pub fn command_of(alloc: Global, words: &[String]) -> Result<Command, WordsFault>
    ensures asked { ReadsAs (command (map string_bytes words.now)) (λ command. command) result }
    ensures range { IfOk result HasInRange }
    ensures memory { IsErrOf result WordsFault.Memory → NamesTask (map string_bytes words.now) }
{
    let Some((first, _)) = words.split_first() else {
        return Err(WordsFault::NotTaken);
    };
    let Some(task) = task_of(first.as_str()) else {
        return Err(WordsFault::NotTaken);
    };
    let matches = matches_in(form_of(alloc, task)?, words)?;
    read_command(alloc, task, &matches)
}
