//! The tasks by their names.

ghost use Rattle.std.specs.Prelude.{◌≡◌};
ghost use Rattle.vss_words.specs.Forms.{task_named};

/// What a command is to do; its name is the first word.
#[derive(Clone, Copy, Debug, PartialEq, Eq)]
pub enum Task {
    Verify,
    Generate,
    Optimise,
    Judge,
    Check,
    Make,
    Trial,
}

/// The task of that name.
pub fn task_of(word: &str) -> Option<Task>
    ensures { result ≡ task_named word.now }
{
    match word {
        "verify" => Some(Task::Verify),
        "generate" => Some(Task::Generate),
        "optimise" => Some(Task::Optimise),
        "judge" => Some(Task::Judge),
        "check" => Some(Task::Check),
        "make" => Some(Task::Make),
        "trial" => Some(Task::Trial),
        _ => None,
    }
}
