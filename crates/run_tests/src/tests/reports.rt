//! Reports that are judged, and reports that are refused: at which line, and for what.

use super::asking::expect_judged;
use crate::texts::{BORDERED, XY, changed};
use std::alloc::Global;
use std::process::Abort;
use std::test::Fail;

// What is changed in the report, and what is printed: it is of the form, and judged.
static REPORTS: [(&str, &str, &str, u8); 6] = [
    ("", "", "lawful 1", 0),
    ("cut t1 500", "cut t1 1000", "lawful 1", 0),
    (
        "design 1\nborder cut t1 500\n",
        "design 2\nborder cut t1 500\nborder cut t1 1500\n",
        "lawful 2",
        0,
    ),
    ("end\n", "smaller none\nend\n", "lawful 1", 0),
    ("run X 0", "run X 999999999", "breach entry X", 8),
    ("sweep t1:0+ t1:1+", "sweep t1:3-", "breach entry X", 8),
];

#[test]
fn a_report_of_the_form_is_judged(rt: HostRuntime) -> Result<(), Fail> {
    for (old, new, line, status) in &REPORTS {
        let report = changed(rt.alloc(), BORDERED, old, new)?;
        expect_judged(&rt, rt.alloc(), XY, report.as_str(), line, *status)?;
    }
    Ok(())
}

static HEADS_AND_ENDS: [(&str, &str, &str); 16] = [
    ("vssplan report 1", "vssplan report 2", "BadLine lines 1"),
    ("vssplan report 1", "vssplan report 01", "BadLine lines 1"),
    ("vssplan report 1", "Vssplan report 1", "BadLine lines 1"),
    ("vssplan report 1\n", "", "BadLine lines 1"),
    ("vssplan", " vssplan", "BadLine lines 1"),
    ("vssplan", "\nvssplan", "BadLine lines 1"),
    ("verdict done", "verdict impossible", "BadLine lines 3"),
    ("verdict done\n", "", "BadLine lines 2"),
    ("verdict done\n", "verdict done\n\n", "BadLine lines 3"),
    ("design 1\nborder cut t1 500\n", "", "BadLine lines 3"),
    ("end\n", "", "BadLine lines 14"),
    ("end\n", "end", "BadLine lines 15"),
    ("end\n", "END\n", "BadLine lines 14"),
    ("end\n", "end\r\n", "BadLine lines 14"),
    ("end\n", "end\n\n", "BadLine lines 15"),
    ("end\n", "end\nend\n", "BadLine lines 15"),
];

static NUMBERS: [(&str, &str, &str); 15] = [
    ("design 1", "design 01", "BadLine lines 3"),
    ("design 1", "design 1000000001", "BadLine lines 3"),
    ("design 1", "design +1", "BadLine lines 3"),
    ("design 1", "design", "BadLine lines 3"),
    ("design 1", "design ", "BadLine lines 3"),
    ("cut t1 500", "cut t1 0500", "BadLine lines 4"),
    ("cut t1 500", "cut t1 4294967796", "BadLine lines 4"),
    ("cut t1 500", "cut t1 500.0", "BadLine lines 4"),
    ("run X 0", "run X 00", "BadLine lines 5"),
    ("run X 0", "run X 1000000000", "BadLine lines 5"),
    ("run X 0", "run X 0000000000", "BadLine lines 5"),
    ("run X 0", "run X -0", "BadLine lines 5"),
    ("run X 0", "run X", "BadLine lines 5"),
    ("t1:1+", "t1:01+", "BadLine lines 6"),
    ("t1:1+", "t1:4294967297+", "BadLine lines 6"),
];

static CELLS: [(&str, &str, &str); 12] = [
    ("t1:1+", "t2:1+", "UnknownName lines 6"),
    ("t1:1+", "t:1+", "UnknownName lines 6"),
    ("t1:1+", "t11:1+", "UnknownName lines 6"),
    ("t1:1+", ":1+", "BadLine lines 6"),
    ("t1:1+", "t1:4+", "UnknownName lines 6"),
    ("t1:1+", "t1:9+", "UnknownName lines 6"),
    ("t1:1+", "t1:+", "BadLine lines 6"),
    ("t1:1+", "t1:1", "BadLine lines 6"),
    ("t1:1+", "t1:1*", "BadLine lines 6"),
    ("t1:1+", "t1:1++", "BadLine lines 6"),
    ("t1:1+", "t1 1+", "BadLine lines 6"),
    ("t1:0+ t1:1+", "t1:0+t1:1+", "BadLine lines 6"),
];

static BORDERS: [(&str, &str, &str); 17] = [
    ("cut t1 500", "cut t1 750", "UnknownName lines 4"),
    ("cut t1 500", "cut t1 499", "UnknownName lines 4"),
    ("cut t1 500", "cut t1 0", "UnknownName lines 4"),
    ("cut t1 500", "cut t1 2000", "UnknownName lines 4"),
    ("cut t1 500", "cut t2 500", "UnknownName lines 4"),
    ("cut t1 500", "cut 500", "BadLine lines 4"),
    ("cut t1 500", "t1 500", "BadLine lines 4"),
    ("cut t1 500", "joint A", "UnknownName lines 4"),
    ("cut t1 500", "joint t1 500", "BadLine lines 4"),
    (
        "design 1\nborder cut t1 500\n",
        "design 2\nborder cut t1 500\nborder cut t1 500\n",
        "BadLine lines 5",
    ),
    (
        "design 1\nborder cut t1 500\n",
        "design 2\nborder cut t1 1000\nborder cut t1 500\n",
        "BadLine lines 5",
    ),
    ("design 1", "design 2", "BadLine lines 5"),
    ("design 1", "design 0", "BadLine lines 4"),
    ("design 1", "design 999999999", "BadLine lines 5"),
    ("border cut t1 500\n", "", "BadLine lines 4"),
    (
        "border cut t1 500\n",
        "border cut t1 500\nborder cut t1 1000\n",
        "BadLine lines 5",
    ),
    (
        "border cut t1 500\nrun X 0\n",
        "run X 0\nborder cut t1 500\n",
        "BadLine lines 4",
    ),
];

const X_RUN: &str = "run X 0\nsweep t1:0+ t1:1+\nsweep t1:1+ t1:2+\nsweep t1:2+ t1:3+\n";

const Y_RUN: &str =
    "run Y 2\nsweep t1:0+\nsweep t1:0+ t1:1+\nsweep t1:1+ t1:2+\nsweep t1:2+ t1:3+\n";

static RUNS: [(&str, &str, &str); 19] = [
    ("end\n", "run Y 2\nsweep t1:0+\nend\n", "BadLine lines 14"),
    ("end\n", "run Z 0\nsweep t1:0+\nend\n", "BadLine lines 14"),
    (
        "run X 0\n",
        "run X 0\nsweep t1:0+\nrun X 0\n",
        "BadLine lines 7",
    ),
    (X_RUN, "", "BadLine lines 5"),
    (Y_RUN, "", "BadLine lines 9"),
    ("run X 0", "run Y 0", "BadLine lines 5"),
    ("run X 0", "run x 0", "UnknownName lines 5"),
    ("run X 0", "run XX 0", "UnknownName lines 5"),
    ("run X 0", "run  0", "BadLine lines 5"),
    ("run Y 2", "run X 2", "BadLine lines 9"),
    (
        "sweep t1:0+ t1:1+\nsweep t1:1+ t1:2+\nsweep t1:2+ t1:3+\nrun Y",
        "run Y",
        "BadLine lines 6",
    ),
    ("sweep t1:0+ t1:1+\n", "sweep\n", "BadLine lines 6"),
    ("sweep t1:0+ t1:1+\n", "sweep \n", "BadLine lines 6"),
    ("sweep t1:0+ t1:1+\n", "\n", "BadLine lines 6"),
    ("t1:0+ t1:1+", "t1:0+  t1:1+", "BadLine lines 6"),
    ("t1:0+ t1:1+", "t1:0+\tt1:1+", "BadLine lines 6"),
    ("t1:0+ t1:1+", "t1:0+ t1:1+ ", "BadLine lines 6"),
    ("sweep t1:0+ t1:1+", "sweep  t1:0+ t1:1+", "BadLine lines 6"),
    ("run X 0", "run  X 0", "BadLine lines 5"),
];

fn expect_refused(rt: &impl Abort, alloc: Global, report: &str, told: &str) -> Result<(), Fail> {
    let line = format!(in alloc; "refused report {told}")?;
    expect_judged(rt, alloc, XY, report, line.as_str(), 3)
}

fn expect_each(rt: &impl Abort, alloc: Global, rows: &[(&str, &str, &str)]) -> Result<(), Fail> {
    for (old, new, told) in rows {
        let report = changed(alloc, BORDERED, old, new)?;
        expect_refused(rt, alloc, report.as_str(), told)?;
    }
    Ok(())
}

#[test]
fn the_first_line_that_is_wrong_is_told(rt: HostRuntime) -> Result<(), Fail> {
    expect_each(&rt, rt.alloc(), &HEADS_AND_ENDS)?;
    expect_each(&rt, rt.alloc(), &NUMBERS)?;
    expect_refused(&rt, rt.alloc(), "", "BadLine lines 1")
}

#[test]
fn a_line_that_names_what_the_scene_lacks_is_told(rt: HostRuntime) -> Result<(), Fail> {
    expect_each(&rt, rt.alloc(), &CELLS)?;
    expect_each(&rt, rt.alloc(), &BORDERS)
}

#[test]
fn runs_out_of_turn_are_refused(rt: HostRuntime) -> Result<(), Fail> {
    expect_each(&rt, rt.alloc(), &RUNS)?;
    let there = format!(in rt.alloc(); "{X_RUN}{Y_RUN}")?;
    let back = format!(in rt.alloc(); "{Y_RUN}{X_RUN}")?;
    let report = changed(rt.alloc(), BORDERED, there.as_str(), back.as_str())?;
    expect_refused(&rt, rt.alloc(), report.as_str(), "BadLine lines 5")
}

/// A report of a search that found nothing.
const SPENT: &str = "vssplan report 1\nverdict spent\nconflicts 1\nbest none\nend\n";

#[test]
fn a_report_without_a_design_is_refused(rt: HostRuntime) -> Result<(), Fail> {
    expect_refused(&rt, rt.alloc(), SPENT, "NoPart document 0")
}
