//! What `run` says of plans on the line.

use super::asking::{JUDGE, expect_judged, expect_run, shelf_of};
use crate::texts::{FOLLOWING, LINE, X, X_ALONE, XY, changed};
use std::alloc::Global;
use std::process::Abort;
use std::test::Fail;

/// What is changed in the timetable, the layout in place of the one with no border, what is changed in
/// the report, and what is printed.
struct Row {
    timetable: (&'static str, &'static str),
    layout: &'static str,
    report: (&'static str, &'static str),
    line: &'static str,
}

/// No change.
const SAME: (&str, &str) = ("", "");

const NO_BORDER: &str = "design 0\n";

const AT_500: &str = "design 1\nborder cut t1 500\n";

const AT_1000: &str = "design 1\nborder cut t1 1000\n";

const AT_1500: &str = "design 1\nborder cut t1 1500\n";

const ALL: &str = "design 3\nborder cut t1 500\nborder cut t1 1000\nborder cut t1 1500\n";

fn expect_rows(
    rt: &impl Abort,
    alloc: Global,
    timetable: &str,
    report: &str,
    rows: &[Row],
    status: u8,
) -> Result<(), Fail> {
    for row in rows {
        let timetable = changed(alloc, timetable, row.timetable.0, row.timetable.1)?;
        let report = changed(alloc, report, NO_BORDER, row.layout)?;
        let report = changed(alloc, report.as_str(), row.report.0, row.report.1)?;
        expect_judged(
            rt,
            alloc,
            timetable.as_str(),
            report.as_str(),
            row.line,
            status,
        )?;
    }
    Ok(())
}

const UP: &str = "sweep t1:0+ t1:1+\nsweep t1:1+ t1:2+\nsweep t1:2+ t1:3+\n";

const DOWN: &str = "sweep t1:3- t1:2-\nsweep t1:2- t1:1-\nsweep t1:1- t1:0-\n";

const THERE: &str = "\"from\":\"A\",\"to\":\"B\"";

const BACK: &str = "\"from\":\"B\",\"to\":\"A\"";

// X alone: as it is; with a border; as it stands for a step; faster; longer; against the metres; and no
// train at all.
static LAWFUL: [Row; 8] = [
    Row {
        timetable: SAME,
        layout: NO_BORDER,
        report: SAME,
        line: "lawful 0",
    },
    Row {
        timetable: SAME,
        layout: AT_1000,
        report: SAME,
        line: "lawful 1",
    },
    Row {
        timetable: (",\"arrive_s\":180", ""),
        layout: NO_BORDER,
        report: ("sweep t1:1+ t1:2+\n", "sweep t1:1+\nsweep t1:1+ t1:2+\n"),
        line: "lawful 0",
    },
    Row {
        timetable: ("\"speed_kmh\":30", "\"speed_kmh\":60"),
        layout: NO_BORDER,
        report: SAME,
        line: "lawful 0",
    },
    Row {
        timetable: ("\"speed_kmh\":30", "\"speed_kmh\":60"),
        layout: NO_BORDER,
        report: (
            "sweep t1:0+ t1:1+\nsweep t1:1+ t1:2+\n",
            "sweep t1:0+ t1:1+ t1:2+\n",
        ),
        line: "lawful 0",
    },
    Row {
        timetable: ("400", "600"),
        layout: NO_BORDER,
        report: (UP, "sweep t1:0+ t1:1+ t1:2+\nsweep t1:1+ t1:2+ t1:3+\n"),
        line: "lawful 0",
    },
    Row {
        timetable: (THERE, BACK),
        layout: NO_BORDER,
        report: (UP, DOWN),
        line: "lawful 0",
    },
    Row {
        timetable: (
            r#"{"name":"X","length_m":400,"speed_kmh":30,"from":"A","to":"B","entry_s":0,"arrive_s":180}"#,
            "",
        ),
        layout: AT_500,
        report: (
            "run X 0\nsweep t1:0+ t1:1+\nsweep t1:1+ t1:2+\nsweep t1:2+ t1:3+\n",
            "",
        ),
        line: "lawful 1",
    },
];

#[test]
fn a_lawful_plan_of_one_train_is_told(rt: HostRuntime) -> Result<(), Fail> {
    expect_rows(&rt, rt.alloc(), X, X_ALONE, &LAWFUL, 0)
}

// What is changed in X's run, and the breach.
static X_BREACHES: [(&str, &str, &str); 8] = [
    ("sweep t1:1+ t1:2+", "sweep t1:2+ t1:3+", "breach join X 1"),
    (
        "sweep t1:0+ t1:1+",
        "sweep t1:0+ t1:1+ t1:2+",
        "breach speed X 0",
    ),
    ("sweep t1:2+ t1:3+\n", "", "breach late X 1"),
    ("run X 0", "run X 1", "breach entry X"),
    ("sweep t1:1+ t1:2+", "sweep t1:1+ t1:3+", "breach path X 1"),
    (
        "sweep t1:1+ t1:2+\n",
        "sweep t1:1+\nsweep t1:1+ t1:2+\n",
        "breach late X 3",
    ),
    (
        "sweep t1:1+ t1:2+",
        "sweep t1:0+ t1:1+ t1:2+",
        "breach speed X 1",
    ),
    ("sweep t1:0+", "sweep t1:0-", "breach entry X"),
];

#[test]
fn a_breach_of_a_run_is_told(rt: HostRuntime) -> Result<(), Fail> {
    for (old, new, line) in &X_BREACHES {
        let alone = changed(rt.alloc(), X_ALONE, old, new)?;
        expect_judged(&rt, rt.alloc(), X, alone.as_str(), line, 8)?;
    }
    Ok(())
}

// The breach of a run comes before the clash of the two trains, and with a border alike.
#[test]
fn a_breach_of_a_run_is_told_before_a_clash(rt: HostRuntime) -> Result<(), Fail> {
    for (old, new, line) in &X_BREACHES {
        let clashing = changed(rt.alloc(), FOLLOWING, old, new)?;
        expect_judged(&rt, rt.alloc(), XY, clashing.as_str(), line, 8)?;
        let apart = changed(rt.alloc(), clashing.as_str(), NO_BORDER, AT_500)?;
        expect_judged(&rt, rt.alloc(), XY, apart.as_str(), line, 8)?;
    }
    Ok(())
}

// X alone, with another timetable: twice as long; to arrive a second sooner; a step later; from B to A.
static OTHER_TRAINS: [Row; 6] = [
    Row {
        timetable: ("400", "600"),
        layout: NO_BORDER,
        report: ("sweep t1:0+ t1:1+", "sweep t1:0+"),
        line: "breach length X 0",
    },
    Row {
        timetable: ("400", "600"),
        layout: NO_BORDER,
        report: ("sweep t1:1+ t1:2+", "sweep t1:1+"),
        line: "breach length X 1",
    },
    Row {
        timetable: ("400", "600"),
        layout: NO_BORDER,
        report: SAME,
        line: "breach join X 1",
    },
    Row {
        timetable: ("180", "179"),
        layout: NO_BORDER,
        report: SAME,
        line: "breach late X 2",
    },
    Row {
        timetable: ("\"entry_s\":0", "\"entry_s\":60"),
        layout: NO_BORDER,
        report: SAME,
        line: "breach entry X",
    },
    Row {
        timetable: (THERE, BACK),
        layout: NO_BORDER,
        report: SAME,
        line: "breach entry X",
    },
];

#[test]
fn a_run_is_judged_by_its_train(rt: HostRuntime) -> Result<(), Fail> {
    expect_rows(&rt, rt.alloc(), X, X_ALONE, &OTHER_TRAINS, 8)
}

// X and Y behind it: with borders; and with Y a step later, when X has left.
static LAWFUL_PAIRS: [Row; 4] = [
    Row {
        timetable: SAME,
        layout: AT_500,
        report: SAME,
        line: "lawful 1",
    },
    Row {
        timetable: SAME,
        layout: AT_1000,
        report: SAME,
        line: "lawful 1",
    },
    Row {
        timetable: SAME,
        layout: ALL,
        report: SAME,
        line: "lawful 3",
    },
    Row {
        timetable: ("120", "180"),
        layout: NO_BORDER,
        report: ("run Y 2", "run Y 3"),
        line: "lawful 0",
    },
];

#[test]
fn trains_that_follow_each_other_are_lawful(rt: HostRuntime) -> Result<(), Fail> {
    expect_rows(&rt, rt.alloc(), XY, FOLLOWING, &LAWFUL_PAIRS, 0)
}

// X and Y behind it: too few borders; Y a step sooner; and a run of Y that isn't one, by the steps of the
// timetable and not by the places of its sweeps.
static CLASHES: [Row; 6] = [
    Row {
        timetable: SAME,
        layout: NO_BORDER,
        report: SAME,
        line: "breach apart X Y 2 t1:2 t1:0",
    },
    Row {
        timetable: SAME,
        layout: AT_1500,
        report: SAME,
        line: "breach apart X Y 2 t1:2 t1:0",
    },
    Row {
        timetable: ("120", "60"),
        layout: AT_500,
        report: ("run Y 2", "run Y 1"),
        line: "breach apart X Y 2 t1:2 t1:1",
    },
    Row {
        timetable: SAME,
        layout: AT_500,
        report: ("run Y 2", "run Y 3"),
        line: "breach entry Y",
    },
    Row {
        timetable: SAME,
        layout: AT_500,
        report: ("run Y 2\nsweep t1:0+\n", "run Y 2\nsweep t1:0+ t1:2+\n"),
        line: "breach path Y 2",
    },
    Row {
        timetable: SAME,
        layout: AT_500,
        report: ("sweep t1:2+ t1:3+\nend", "end"),
        line: "breach late Y 4",
    },
];

#[test]
fn a_clash_is_told_after_the_runs(rt: HostRuntime) -> Result<(), Fail> {
    expect_rows(&rt, rt.alloc(), XY, FOLLOWING, &CLASHES, 8)
}

// X, and Y against it at the same steps. In step 1 they change cells 1 and 2.
static OPPOSITE: [Row; 4] = [
    Row {
        timetable: SAME,
        layout: NO_BORDER,
        report: SAME,
        line: "breach apart X Y 0 t1:0 t1:3",
    },
    Row {
        timetable: SAME,
        layout: AT_500,
        report: SAME,
        line: "breach apart X Y 0 t1:1 t1:3",
    },
    Row {
        timetable: SAME,
        layout: AT_1000,
        report: SAME,
        line: "breach apart X Y 1 t1:1 t1:1",
    },
    Row {
        timetable: SAME,
        layout: ALL,
        report: SAME,
        line: "breach apart X Y 1 t1:1 t1:1",
    },
];

#[test]
fn trains_that_change_places_clash(rt: HostRuntime) -> Result<(), Fail> {
    let alloc = rt.alloc();
    let timetable = changed(
        alloc,
        XY,
        "\"from\":\"A\",\"to\":\"B\",\"entry_s\":120",
        "\"from\":\"B\",\"to\":\"A\",\"entry_s\":0",
    )?;
    let report = changed(
        alloc,
        FOLLOWING,
        "run Y 2\nsweep t1:0+\nsweep t1:0+ t1:1+\nsweep t1:1+ t1:2+\nsweep t1:2+ t1:3+\n",
        "run Y 0\nsweep t1:3- t1:2-\nsweep t1:2- t1:1-\nsweep t1:1- t1:0-\n",
    )?;
    expect_rows(
        &rt,
        alloc,
        timetable.as_str(),
        report.as_str(),
        &OPPOSITE,
        8,
    )
}

#[test]
fn cells_are_counted_from_where_the_track_begins(rt: HostRuntime) -> Result<(), Fail> {
    let alloc = rt.alloc();
    let turned = changed(alloc, LINE, THERE, BACK)?;
    let mut shelf = shelf_of(alloc, turned.as_str(), X, X_ALONE)?;
    expect_run(&rt, alloc, JUDGE, &mut shelf, "breach entry X", 8)?;
    let down = changed(alloc, X_ALONE, UP, DOWN)?;
    let mut shelf = shelf_of(alloc, turned.as_str(), X, down.as_str())?;
    expect_run(&rt, alloc, JUDGE, &mut shelf, "lawful 0", 0)
}
