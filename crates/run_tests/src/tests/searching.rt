//! What `run` says of the tasks that search, on the line: whole reports, and the beginnings of those whose log is free.

use super::asking::{expect_run, shelf_of, written_by};
use crate::texts::{LINE, X, XY, changed};
use std::alloc::Global;
use std::process::Abort;
use std::test::Fail;

/// The words, what is changed in the network and in the timetable, what is printed, and the status.
struct Row {
    words: &'static str,
    network: (&'static str, &'static str),
    timetable: (&'static str, &'static str),
    text: &'static str,
    status: u8,
}

/// No change.
const SAME: (&str, &str) = ("", "");

/// The border at 1,000 m is kept.
const KEPT: (&str, &str) = (
    r#""sections""#,
    r#""borders":[{"track":"t1","at_m":1000}],"sections""#,
);

/// The border at 500 m is kept.
const KEPT_AT_500: (&str, &str) = (
    r#""sections""#,
    r#""borders":[{"track":"t1","at_m":500}],"sections""#,
);

/// The only train is left out.
const NO_TRAIN: (&str, &str) = (
    r#"{"name":"X","length_m":400,"speed_kmh":30,"from":"A","to":"B","entry_s":0,"arrive_s":180}"#,
    "",
);

// X alone, and no train.
static ALONE: [Row; 5] = [
    Row {
        words: "optimise net times",
        network: SAME,
        timetable: SAME,
        text: "vssplan report 1\nverdict done\ndesign 0\nrun X 0\nsweep t1:0+ t1:1+\nsweep t1:1+ t1:2+\nsweep t1:2+ t1:3+\nsmaller none\nend",
        status: 0,
    },
    Row {
        words: "verify net times",
        network: SAME,
        timetable: SAME,
        text: "vssplan report 1\nverdict done\ndesign 0\nrun X 0\nsweep t1:0+ t1:1+\nsweep t1:1+ t1:2+\nsweep t1:2+ t1:3+\nend",
        status: 0,
    },
    Row {
        words: "optimise net times",
        network: KEPT,
        timetable: NO_TRAIN,
        text: "vssplan report 1\nverdict done\ndesign 1\nborder cut t1 1000\nsmaller none\nend",
        status: 0,
    },
    Row {
        words: "verify net times --budget 1",
        network: KEPT,
        timetable: NO_TRAIN,
        text: "vssplan report 1\nverdict done\ndesign 1\nborder cut t1 1000\nend",
        status: 0,
    },
    Row {
        words: "optimise net times --budget 0",
        network: SAME,
        timetable: SAME,
        text: "usage: vssplan TASK NET TIMETABLE [REPORT] [--borders N] [--budget N]",
        status: 2,
    },
];

#[test]
fn whole_reports_of_one_train_are_printed(rt: HostRuntime) -> Result<(), Fail> {
    for row in &ALONE {
        let network = changed(rt.alloc(), LINE, row.network.0, row.network.1)?;
        let timetable = changed(rt.alloc(), X, row.timetable.0, row.timetable.1)?;
        let mut shelf = shelf_of(rt.alloc(), network.as_str(), timetable.as_str(), "")?;
        expect_run(&rt, rt.alloc(), row.words, &mut shelf, row.text, row.status)?;
    }
    Ok(())
}

const SPENT: &str = "vssplan report 1\nverdict spent\nconflicts 1\nbest none\nend";

/// The trains meet head on: Y goes from B to A at the same time.
const HEAD_ON: (&str, &str) = (
    r#""from":"A","to":"B","entry_s":120"#,
    r#""from":"B","to":"A","entry_s":0"#,
);

// X needs no more than to arrive, and one conflict can't end the search.
#[test]
fn a_spent_budget_is_told(rt: HostRuntime) -> Result<(), Fail> {
    let timetable = changed(rt.alloc(), XY, HEAD_ON.0, HEAD_ON.1)?;
    let timetable = changed(rt.alloc(), timetable.as_str(), ",\"arrive_s\":180", "")?;
    let mut shelf = shelf_of(rt.alloc(), LINE, timetable.as_str(), "")?;
    expect_run(
        &rt,
        rt.alloc(),
        "optimise net times --budget 1",
        &mut shelf,
        SPENT,
        6,
    )
}

/// Y a step sooner, to arrive at 300 s or at 240 s.
const SOONER: (&str, &str) = ("\"entry_s\":120", "\"entry_s\":60,\"arrive_s\":300");

const TOO_SOON: (&str, &str) = ("\"entry_s\":120", "\"entry_s\":60,\"arrive_s\":240");

/// Where a report has a design, what `judge` says of it, and where it has a refutation, what `check` says of it.
struct ReadRow {
    words: &'static str,
    network: (&'static str, &'static str),
    timetable: (&'static str, &'static str),
    begins: &'static str,
    status: u8,
    judged: (&'static str, u8),
    checked: (&'static str, u8),
}

const NO_PART: (&str, u8) = ("refused report NoPart document 0", 3);

// X and Y behind it.
static PAIRS: [ReadRow; 8] = [
    ReadRow {
        words: "optimise net times",
        network: SAME,
        timetable: SAME,
        begins: "vssplan report 1\nverdict done\ndesign 1\nborder cut t1 ",
        status: 0,
        judged: ("lawful 1", 0),
        checked: ("proved most 0", 0),
    },
    ReadRow {
        words: "optimise net times",
        network: SAME,
        timetable: SOONER,
        begins: "vssplan report 1\nverdict done\ndesign 2\nborder cut t1 500\nborder cut t1 1000\nrun X 0\nsweep t1:0+ t1:1+\nsweep t1:1+ t1:2+\nsweep t1:2+ t1:3+\nrun Y 1\nsweep t1:0+\nsweep t1:0+ t1:1+\nsweep t1:1+ t1:2+\nsweep t1:2+ t1:3+\nrefutes 1\n",
        status: 0,
        judged: ("lawful 2", 0),
        checked: ("proved most 1", 0),
    },
    ReadRow {
        words: "optimise net times",
        network: SAME,
        timetable: TOO_SOON,
        begins: "vssplan report 1\nverdict impossible\nrefutes 3\n",
        status: 1,
        judged: NO_PART,
        checked: ("proved most 3", 0),
    },
    ReadRow {
        words: "verify net times",
        network: SAME,
        timetable: SAME,
        begins: "vssplan report 1\nverdict impossible\nrefutes given\n",
        status: 1,
        judged: NO_PART,
        checked: ("proved given", 0),
    },
    ReadRow {
        words: "verify net times",
        network: KEPT_AT_500,
        timetable: SAME,
        begins: "vssplan report 1\nverdict done\ndesign 1\nborder cut t1 500\n",
        status: 0,
        judged: ("lawful 1", 0),
        checked: NO_PART,
    },
    ReadRow {
        words: "generate net times --borders 0",
        network: SAME,
        timetable: SAME,
        begins: "vssplan report 1\nverdict impossible\nrefutes 0\n",
        status: 1,
        judged: NO_PART,
        checked: ("proved most 0", 0),
    },
    ReadRow {
        words: "generate net times --borders 1",
        network: SAME,
        timetable: SAME,
        begins: "vssplan report 1\nverdict done\ndesign 1\n",
        status: 0,
        judged: ("lawful 1", 0),
        checked: NO_PART,
    },
    ReadRow {
        words: "generate net times --borders 9 --budget 100000",
        network: SAME,
        timetable: HEAD_ON,
        begins: "vssplan report 1\nverdict impossible\nrefutes 3\n",
        status: 1,
        judged: NO_PART,
        checked: ("proved most 3", 0),
    },
];

fn expect_read_back(rt: &impl Abort, alloc: Global, row: &ReadRow) -> Result<(), Fail> {
    let network = changed(alloc, LINE, row.network.0, row.network.1)?;
    let timetable = changed(alloc, XY, row.timetable.0, row.timetable.1)?;
    let mut shelf = shelf_of(alloc, network.as_str(), timetable.as_str(), "")?;
    let (report, status) = written_by(alloc, row.words, &mut shelf)?;
    let begins = row.begins;
    assert!(rt;
        report.as_str().starts_with(begins),
        "wanted {begins} for {}",
        row.words
    );
    assert_eq!(rt; status, row.status, "for {}", row.words);
    let mut shelf = shelf_of(alloc, network.as_str(), timetable.as_str(), report.as_str())?;
    let (line, status) = row.judged;
    expect_run(rt, alloc, "judge net times plan", &mut shelf, line, status)?;
    let (line, status) = row.checked;
    expect_run(rt, alloc, "check net times plan", &mut shelf, line, status)
}

#[test]
fn what_is_printed_is_judged_and_checked(rt: HostRuntime) -> Result<(), Fail> {
    for row in &PAIRS {
        expect_read_back(&rt, rt.alloc(), row)?;
    }
    Ok(())
}
