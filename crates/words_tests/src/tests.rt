//! Tables of words, each row with the command that they ask for, or with none.
use std::alloc::{AllocError, Global};
use std::test::Fail;
use vss_words::{Command, DocumentNames, WordsFault, command_of};

/// Words that ask for no command.
const NONE: &str = "not taken";

/// Words, parted by single spaces, and what they ask for.
static ROWS: [(&str, &str); 62] = [
    ("verify n t", "verify n t 200000"),
    ("verify n t --budget 5", "verify n t 5"),
    ("verify --budget=5 n t", "verify n t 5"),
    ("verify n --budget 5 t", "verify n t 5"),
    ("verify n t --budget 1", "verify n t 1"),
    ("verify n t --budget 1000000000", "verify n t 1000000000"),
    ("verify n t --budget 0", NONE),
    ("verify n t --budget 1000000001", NONE),
    ("verify n t --budget 0000000005", "verify n t 5"),
    ("verify n t --budget 00000000005", NONE),
    ("verify n t --budget +5", NONE),
    ("verify n t --budget -5", NONE),
    ("verify n t --budget 5x", NONE),
    ("verify n t --budget", NONE),
    ("verify n t --budget=", NONE),
    ("verify n t --budget 5 --budget 5", NONE),
    ("verify n t --budget=5 --budget=6", NONE),
    ("verify n t --borders 5", NONE),
    ("verify n", NONE),
    ("verify n t r", NONE),
    ("verify n t --help", NONE),
    ("verify n t -h", NONE),
    ("verify --help", NONE),
    ("generate n t", "generate n t any 200000"),
    ("generate n t --borders 3", "generate n t 3 200000"),
    ("generate n t --borders 0 --budget 7", "generate n t 0 7"),
    (
        "generate --budget=7 n --borders=4294967295 t",
        "generate n t 4294967295 7",
    ),
    ("generate n t --borders 4294967296", NONE),
    ("generate n t --borders 9999999999", NONE),
    ("generate n t --borders 1 --borders 1", NONE),
    ("generate n t --borders", NONE),
    ("optimise n t", "optimise n t 200000"),
    ("optimise --budget=1 n t", "optimise n t 1"),
    ("optimise n t --budget 0", NONE),
    ("judge n t r", "judge n t r"),
    ("judge n t", NONE),
    ("judge n t r s", NONE),
    ("judge n t r --budget 5", NONE),
    ("judge - - -", "judge - - -"),
    ("judge -- n t r", "judge n t r"),
    ("judge n -- t r", "judge n t r"),
    ("judge -- --help -h --", "judge --help -h --"),
    ("judge n t -r", NONE),
    ("judge n t -- -r", "judge n t -r"),
    ("judge n  r", "judge n  r"),
    ("check n t r", "check n t r"),
    ("check n t", NONE),
    ("make 1 1", "make 1 1"),
    ("make 0 8", "make 0 8"),
    ("make 4294967295 0000000001", "make 4294967295 1"),
    ("make 4294967296 1", NONE),
    ("make 1 9", NONE),
    ("make 1 0", NONE),
    ("make 1", NONE),
    ("make 1 1 --budget 5", NONE),
    ("make -1 1", NONE),
    ("make a 1", NONE),
    ("trial 1 4", "trial 1 4 200000"),
    ("trial --budget 100 1 4", "trial 1 4 100"),
    ("trial 1 9", NONE),
    ("plan n t", NONE),
    ("Judge n t r", NONE),
];

/// What the documents are called, as a row has it.
fn names(alloc: Global, documents: &DocumentNames) -> Result<String, AllocError> {
    let network = documents.network.as_str();
    let timetable = documents.timetable.as_str();
    format!(in alloc; "{network} {timetable}")
}

/// The command as a row has it.
fn told(alloc: Global, command: &Command) -> Result<String, AllocError> {
    match command {
        Command::Verify { documents, budget } => {
            format!(in alloc; "verify {} {budget}", names(alloc, documents)?)
        }
        Command::Generate {
            documents,
            most: Some(most),
            budget,
        } => format!(in alloc; "generate {} {most} {budget}", names(alloc, documents)?),
        Command::Generate {
            documents,
            most: None,
            budget,
        } => format!(in alloc; "generate {} any {budget}", names(alloc, documents)?),
        Command::Optimise { documents, budget } => {
            format!(in alloc; "optimise {} {budget}", names(alloc, documents)?)
        }
        Command::Judge { documents, report } => {
            format!(in alloc; "judge {} {}", names(alloc, documents)?, report.as_str())
        }
        Command::Check { documents, report } => {
            format!(in alloc; "check {} {}", names(alloc, documents)?, report.as_str())
        }
        Command::Make { seed, size } => format!(in alloc; "make {seed} {size}"),
        Command::Trial { seed, size, budget } => format!(in alloc; "trial {seed} {size} {budget}"),
    }
}

/// What the words of a line ask for, as a row has it.
fn asked(alloc: Global, line: &str) -> Result<String, Fail> {
    let mut words = Vec::new(alloc);
    for word in line.split(' ') {
        words.push(String::from_str(alloc, word)?)?;
    }
    let found = match command_of(alloc, words.as_slice()) {
        Ok(command) => told(alloc, &command)?,
        Err(WordsFault::NotTaken) => String::from_str(alloc, NONE)?,
        Err(WordsFault::Memory) => String::from_str(alloc, "no memory")?,
    };
    Ok(found)
}

#[test]
fn words_are_taken_as_their_rows_say(rt: HostRuntime) -> Result<(), Fail> {
    for (line, wanted) in &ROWS {
        let found = asked(rt.alloc(), line)?;
        assert_eq!(rt; found.as_str(), *wanted, "{line}");
    }
    Ok(())
}

#[test]
fn no_words_ask_for_nothing(rt: HostRuntime) {
    let words: [String; 0] = [];
    assert!(rt;
        matches!(
            command_of(rt.alloc(), words.as_slice()),
            Err(WordsFault::NotTaken)
        )
    );
}
