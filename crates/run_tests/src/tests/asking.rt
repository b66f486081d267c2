//! Calls of `run`, and what they have to end with.

use crate::texts::LINE;
use plain_solver::PlainSolver;
use std::alloc::{AllocError, Global};
use std::process::Abort;
use std::test::Fail;
use vss_io::{MemShelf, MemSink, Shelf};
use vss_run::run;

/// The words that ask to judge the files of [`files_of`].
pub const JUDGE: &str = "judge net times plan";

/// The words of a line, none of an empty one.
pub fn words_of(alloc: Global, line: &str) -> Result<Vec<String>, AllocError> {
    let mut words = Vec::new(alloc);
    for word in line.split_whitespace() {
        words.push(String::from_str(alloc, word)?)?;
    }
    Ok(words)
}

/// The text of a file that is missing.
pub const MISSING: &str = "missing";

fn add_file(
    alloc: Global,
    name: &str,
    text: &str,
    files: &mut Vec<(String, Vec<u8>)>,
) -> Result<(), AllocError> {
    if text == MISSING {
        return Ok(());
    }
    let bytes = Vec::from_slice(alloc, text.as_bytes())?;
    files.push((String::from_str(alloc, name)?, bytes))?;
    Ok(())
}

/// The files of these texts.
pub fn files_of(
    alloc: Global,
    network: &str,
    timetable: &str,
    report: &str,
) -> Result<Vec<(String, Vec<u8>)>, AllocError> {
    let mut files = Vec::new(alloc);
    add_file(alloc, "net", network, &mut files)?;
    add_file(alloc, "times", timetable, &mut files)?;
    add_file(alloc, "plan", report, &mut files)?;
    Ok(files)
}

/// A shelf of the files of these texts.
pub fn shelf_of(
    alloc: Global,
    network: &str,
    timetable: &str,
    report: &str,
) -> Result<MemShelf, AllocError> {
    let files = files_of(alloc, network, timetable, report)?;
    Ok(MemShelf::new(alloc, files, Vec::new(alloc)))
}

/// Runs on the words, and compares what is printed and the status; `row` tells which case it is.
fn expect_ending(
    rt: &impl Abort,
    alloc: Global,
    words: &str,
    shelf: &mut impl Shelf,
    (line, status): (&str, u8),
    row: &str,
) -> Result<(), Fail> {
    let words = words_of(alloc, words)?;
    let mut out = MemSink::new(alloc, 1000, Vec::new(alloc))?;
    let found = run::<PlainSolver, _, _>(alloc, words.as_slice(), shelf, &mut out);
    let wanted = format!(in alloc; "{line}\n")?;
    assert_eq!(rt; out.written(), wanted.as_bytes(), "wanted {line} for {row}");
    assert_eq!(rt; found.number(), status, "{line} for {row}");
    Ok(())
}

/// What a run on the words prints, at most 100,000 bytes, and its status.
pub fn written_by(
    alloc: Global,
    words: &str,
    shelf: &mut impl Shelf,
) -> Result<(String, u8), Fail> {
    let words = words_of(alloc, words)?;
    let mut out = MemSink::new(alloc, 100_000, Vec::new(alloc))?;
    let found = run::<PlainSolver, _, _>(alloc, words.as_slice(), shelf, &mut out);
    let text = String::from_utf8(Vec::from_slice(alloc, out.written())?)?;
    Ok((text, found.number()))
}

/// Runs on the words, and compares what is printed and the status.
pub fn expect_run(
    rt: &impl Abort,
    alloc: Global,
    words: &str,
    shelf: &mut impl Shelf,
    line: &str,
    status: u8,
) -> Result<(), Fail> {
    expect_ending(rt, alloc, words, shelf, (line, status), words)
}

/// Judges the report for the line and the timetable, and compares what is printed and the status.
pub fn expect_judged(
    rt: &impl Abort,
    alloc: Global,
    timetable: &str,
    report: &str,
    line: &str,
    status: u8,
) -> Result<(), Fail> {
    let mut shelf = shelf_of(alloc, LINE, timetable, report)?;
    expect_ending(rt, alloc, JUDGE, &mut shelf, (line, status), report)
}
