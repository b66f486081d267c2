//! Which of the three files is told of, where some can't be read or aren't of the form.

use super::asking::{JUDGE, MISSING, expect_run, files_of, shelf_of};
use crate::texts::{BORDERED, LINE, XY};
use std::test::Fail;
use vss_io::MemShelf;

/// A text that is no network, no timetable and no report.
const OTHER: &str = "{}";

// The texts of the network, the timetable and the report, what is printed, and the status.
static FIRSTS: [(&str, &str, &str, &str, u8); 13] = [
    (LINE, XY, BORDERED, "lawful 1", 0),
    (MISSING, XY, BORDERED, "read fault network", 4),
    (LINE, MISSING, BORDERED, "read fault timetable", 4),
    (LINE, XY, MISSING, "read fault report", 4),
    (MISSING, MISSING, BORDERED, "read fault network", 4),
    (LINE, MISSING, MISSING, "read fault timetable", 4),
    (MISSING, OTHER, MISSING, "read fault network", 4),
    (OTHER, MISSING, MISSING, "refused network Shape nodes 0", 3),
    (OTHER, OTHER, OTHER, "refused network Shape nodes 0", 3),
    (LINE, MISSING, OTHER, "read fault timetable", 4),
    (
        LINE,
        OTHER,
        MISSING,
        "refused timetable Shape space_step_m 0",
        3,
    ),
    (
        LINE,
        OTHER,
        OTHER,
        "refused timetable Shape space_step_m 0",
        3,
    ),
    (LINE, XY, OTHER, "refused report BadLine lines 1", 3),
];

#[test]
fn the_first_file_that_is_not_accepted_is_told(rt: HostRuntime) -> Result<(), Fail> {
    for (network, timetable, report, line, status) in &FIRSTS {
        let mut shelf = shelf_of(rt.alloc(), network, timetable, report)?;
        expect_run(&rt, rt.alloc(), JUDGE, &mut shelf, line, *status)?;
    }
    Ok(())
}

// The reading that fails, counted from 0, and what is printed.
static FAILING: [(u32, &str); 3] = [
    (0, "read fault network"),
    (1, "read fault timetable"),
    (2, "read fault report"),
];

#[test]
fn a_file_that_can_not_be_read_is_told(rt: HostRuntime) -> Result<(), Fail> {
    for (failing, line) in &FAILING {
        let files = files_of(rt.alloc(), LINE, XY, BORDERED)?;
        let mut shelf = MemShelf::new(rt.alloc(), files, vec![in rt.alloc(); *failing]?);
        expect_run(&rt, rt.alloc(), JUDGE, &mut shelf, line, 4)?;
    }
    Ok(())
}

// The words, what is printed, and the status.
static NAMES: [(&str, &str, u8); 7] = [
    ("judge ./-net times plan", "read fault network", 4),
    ("judge net time plan", "read fault timetable", 4),
    ("judge net times -", "read fault report", 4),
    ("judge net times Plan", "read fault report", 4),
    ("judge times net plan", "refused network Shape nodes 0", 3),
    (
        "judge net plan times",
        "refused timetable NotJson document 0",
        3,
    ),
    ("judge net times net", "refused report BadLine lines 1", 3),
];

#[test]
fn a_file_is_asked_for_by_its_own_name(rt: HostRuntime) -> Result<(), Fail> {
    for (words, line, status) in &NAMES {
        let mut shelf = shelf_of(rt.alloc(), LINE, XY, BORDERED)?;
        expect_run(&rt, rt.alloc(), words, &mut shelf, line, *status)?;
    }
    Ok(())
}
