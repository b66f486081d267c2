//! How a call of the program ends.

ghost use Rattle.std.specs.Prelude.{◌≡◌};
ghost use Rattle.std.specs.Process.{exit_status};
ghost use Rattle.vss_answers.specs.Statuses.{status_number};

use std::process::ExitCode;

/// How a call ended.
#[derive(Clone, Copy, Debug, PartialEq, Eq)]
pub enum Status {
    /// The question is answered: a design, `lawful`, `proved`, made texts or a summary.
    Done,
    /// No layout has a lawful plan.
    Impossible,
    /// The words ask for no task.
    Words,
    /// A file isn't accepted, or a size is above its limit.
    Refused,
    /// A file could not be read.
    ReadFault,
    /// The output could not be written; what is written is a front of the whole text.
    WriteFault,
    /// The budget of conflicts is spent.
    Spent,
    /// There was not enough memory; nothing is written.
    Memory,
    /// The plan isn't lawful.
    Breach,
    /// The log doesn't refute the formula.
    NotProved,
}

impl Status {
    /// The number of the status.
    pub fn number(self) -> u8
        ensures { result ≡ status_number self }
    {
        self as u8
    }

    /// What the program ends with.
    pub fn exit_code(self) -> ExitCode
        ensures { exit_status result ≡ status_number self }
    {
        ExitCode::from(self.number())
    }
}
