//! Words that are taken, and words that aren't.

use super::asking::{expect_run, files_of};
use super::lengths::LongShelf;
use crate::texts::{BORDERED, LINE, XY};
use std::alloc::{AllocError, Global};
use std::test::Fail;
use vss_io::SureShelf;

const USAGE: &str = "usage: vssplan TASK NET TIMETABLE [REPORT] [--borders N] [--budget N]";

fn counting_shelf(alloc: Global) -> Result<LongShelf, AllocError> {
    let files = files_of(alloc, LINE, XY, BORDERED)?;
    Ok(LongShelf {
        files: SureShelf::new(alloc, files),
        long: "",
        length: 0,
        readings: 0,
    })
}

static NOT_TAKEN: [&str; 15] = [
    "",
    "judge",
    "judge net times",
    "judge net times plan plan",
    "verify net times plan",
    "verify net times --budget 0",
    "optimise net times --borders 1",
    "generate net times --borders 1 --borders 1",
    "Judge net times plan",
    "judges net times plan",
    "net times plan judge",
    "judge -net times plan",
    "judge net -times plan",
    "judge net times -plan",
    "judge net times --budget 3",
];

#[test]
fn words_that_ask_for_no_task_print_the_usage_and_read_nothing(
    rt: HostRuntime,
) -> Result<(), Fail> {
    for words in &NOT_TAKEN {
        let mut shelf = counting_shelf(rt.alloc())?;
        expect_run(&rt, rt.alloc(), words, &mut shelf, USAGE, 2)?;
        assert_eq!(rt; shelf.readings, 0, "at {words}");
    }
    Ok(())
}

#[test]
fn words_that_ask_to_judge_read_three_files(rt: HostRuntime) -> Result<(), Fail> {
    let mut shelf = counting_shelf(rt.alloc())?;
    expect_run(
        &rt,
        rt.alloc(),
        "judge net times plan",
        &mut shelf,
        "lawful 1",
        0,
    )?;
    assert_eq!(rt; shelf.readings, 3);
    Ok(())
}
