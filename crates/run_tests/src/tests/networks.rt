//! What `run` says of plans on whole networks: joints, entry windows, rings, and lines that are made.

use super::asking::{JUDGE, MISSING, expect_run, files_of, shelf_of};
use crate::texts::{FOLLOWING, LINE, XY, changed};
use case_maker::make_case;
use std::alloc::Global;
use std::process::Abort;
use std::test::Fail;
use vss_io::MemShelf;

/// Two tracks of 1,000 m in one section; the border at the joint between them is kept.
const JOINED: &str =
    r#"{"nodes":[{"name":"A","kind":"end"},{"name":"J","kind":"joint"},{"name":"B","kind":"end"}],"tracks":[{"name":"t1","from":"A","to":"J","length_m":1000},{"name":"t2","from":"J","to":"B","length_m":1000}],"sections":[{"name":"s1","tracks":["t1","t2"]}],"borders":[{"joint":"J"}]}"#;

/// The runs of both trains over the joint.
const OVER_JOINT: &str =
    "run X 0\nsweep t1:0+ t1:1+\nsweep t1:1+ t2:0+\nsweep t2:0+ t2:1+\nrun Y 2\nsweep t1:0+\nsweep t1:0+ t1:1+\nsweep t1:1+ t2:0+\nsweep t2:0+ t2:1+\n";

/// The borders of the report, and what is printed.
static JOINTS: [(&str, &str, u8); 4] = [
    ("design 0\n", "breach border joint J", 8),
    ("design 1\nborder cut t1 500\n", "breach border joint J", 8),
    ("design 1\nborder joint J\n", "lawful 1", 0),
    (
        "design 2\nborder joint J\nborder cut t2 500\n",
        "lawful 2",
        0,
    ),
];

/// Judges the lines of a design for the documents, and compares what is printed and the status.
fn expect_design(
    rt: &impl Abort,
    alloc: Global,
    (network, timetable): (&str, &str),
    design: &str,
    line: &str,
    status: u8,
) -> Result<(), Fail> {
    let report = format!(in alloc; "vssplan report 1\nverdict done\n{design}end\n")?;
    let mut shelf = shelf_of(alloc, network, timetable, report.as_str())?;
    expect_run(rt, alloc, JUDGE, &mut shelf, line, status)
}

#[test]
fn a_kept_joint_has_to_be_a_border(rt: HostRuntime) -> Result<(), Fail> {
    for (borders, line, status) in &JOINTS {
        let design = format!(in rt.alloc(); "{borders}{OVER_JOINT}")?;
        expect_design(
            &rt,
            rt.alloc(),
            (JOINED, XY),
            design.as_str(),
            line,
            *status,
        )?;
    }
    Ok(())
}

/// When Y begins its run, and what is printed: it may enter from step 2 on, up to step 4, and X is gone then.
static ENTRIES: [(&str, &str, u8); 4] = [
    ("run Y 1", "breach entry Y", 8),
    ("run Y 3", "lawful 0", 0),
    ("run Y 4", "lawful 0", 0),
    ("run Y 5", "breach entry Y", 8),
];

#[test]
fn a_train_enters_within_its_window(rt: HostRuntime) -> Result<(), Fail> {
    let times = changed(
        rt.alloc(),
        XY,
        "\"entry_s\":120",
        "\"entry_s\":120,\"entry_until_s\":299",
    )?;
    for (run, line, status) in &ENTRIES {
        let report = changed(rt.alloc(), FOLLOWING, "run Y 2", run)?;
        let mut shelf = shelf_of(rt.alloc(), LINE, times.as_str(), report.as_str())?;
        expect_run(&rt, rt.alloc(), JUDGE, &mut shelf, line, *status)?;
    }
    Ok(())
}

/// Two tracks side by side close a ring between two points, in one section.
const RING: &str =
    r#"{"nodes":[{"name":"A","kind":"end"},{"name":"P","kind":"point","tip":"t1"},{"name":"Q","kind":"point","tip":"t2"},{"name":"B","kind":"end"}],"tracks":[{"name":"t1","from":"A","to":"P","length_m":500},{"name":"n","from":"P","to":"Q","length_m":1500},{"name":"s","from":"P","to":"Q","length_m":1500},{"name":"t2","from":"Q","to":"B","length_m":500}],"sections":[{"name":"s1","tracks":["t1","n","s","t2"]}]}"#;

/// Two trains that run against each other.
const AGAINST: &str =
    r#"{"space_step_m":500,"time_step_s":60,"horizon_s":600,"trains":[{"name":"X","length_m":400,"speed_kmh":60,"entry_s":0,"from":"A","to":"B","arrive_s":240},{"name":"Y","length_m":400,"speed_kmh":60,"entry_s":60,"from":"B","to":"A","arrive_s":180}]}"#;

/// X waits on one track of the ring while Y goes by on the other.
const AROUND: &str =
    "run X 0\nsweep t1:0+ n:0+ n:1+\nsweep n:1+\nsweep n:1+\nsweep n:1+ n:2+ t2:0+\nrun Y 1\nsweep t2:0- s:2- s:1-\nsweep s:1- s:0- t1:0-\n";

/// The borders of the report, and what is printed: one border on X's track leaves the way around.
static RINGS: [(&str, &str, u8); 3] = [
    (
        "design 2\nborder cut n 500\nborder cut n 1000\n",
        "lawful 2",
        0,
    ),
    (
        "design 1\nborder cut n 500\n",
        "breach apart X Y 1 n:1 t2:0",
        8,
    ),
    (
        "design 1\nborder cut n 1000\n",
        "breach apart X Y 1 n:1 t2:0",
        8,
    ),
];

#[test]
fn a_ring_links_both_ways_around(rt: HostRuntime) -> Result<(), Fail> {
    for (borders, line, status) in &RINGS {
        let design = format!(in rt.alloc(); "{borders}{AROUND}")?;
        expect_design(
            &rt,
            rt.alloc(),
            (RING, AGAINST),
            design.as_str(),
            line,
            *status,
        )?;
    }
    Ok(())
}

/// T0 stops on the one track of the station, and T1 behind it on the other.
const STOPPING: &str =
    "run T0 0\nsweep l0:0+ l0:1+ l0:2+ l0:3+ l0:4+\nsweep l0:4+ u1:0+ e1:0+ m1:0+\nsweep m1:0+\nsweep m1:0+ m1:1+ g1:0+ v1:0+ l1:0+\nsweep l1:0+ l1:1+ l1:2+ l1:3+ l1:4+\nsweep l1:4+ l1:5+\nrun T1 1\nsweep l0:0+ l0:1+ l0:2+ l0:3+\nsweep l0:3+ l0:4+ u1:0+ f1:0+ n1:0+\nsweep n1:0+\nsweep n1:0+ n1:1+ h1:0+ v1:0+\nsweep v1:0+\nsweep v1:0+ l1:0+ l1:1+ l1:2+ l1:3+\nsweep l1:3+ l1:4+ l1:5+\n";

/// The borders, what is changed in the runs, and what is printed: T1 waits for T0 to leave the last track, or a border
/// parts them there; T1 is on the first track too soon; T0 doesn't stop; T1 doesn't wait.
static MADE: [(&str, (&str, &str), &str, u8); 5] = [
    ("design 1\nborder cut l0 2000\n", ("", ""), "lawful 1", 0),
    (
        "design 2\nborder cut l0 2000\nborder cut l1 2000\n",
        ("sweep v1:0+\n", ""),
        "lawful 2",
        0,
    ),
    ("design 0\n", ("", ""), "breach apart T0 T1 1 l0:4 l0:0", 8),
    (
        "design 1\nborder cut l0 2000\n",
        ("sweep m1:0+\n", ""),
        "breach stop T0 0",
        8,
    ),
    (
        "design 1\nborder cut l0 2000\n",
        ("sweep v1:0+\n", ""),
        "breach apart T0 T1 5 l1:4 l1:0",
        8,
    ),
];

/// The files of the smallest case that is made, with this report.
fn made_shelf(alloc: Global, report: &str) -> Result<MemShelf, Fail> {
    let (network, timetable) = make_case(alloc, 1, 1)?;
    let mut files = files_of(alloc, MISSING, MISSING, report)?;
    files.push((String::from_str(alloc, "net")?, network))?;
    files.push((String::from_str(alloc, "times")?, timetable))?;
    Ok(MemShelf::new(alloc, files, Vec::new(alloc)))
}

#[test]
fn plans_of_a_made_line_are_judged(rt: HostRuntime) -> Result<(), Fail> {
    let alloc = rt.alloc();
    for (borders, (old, new), line, status) in &MADE {
        let runs = changed(alloc, STOPPING, old, new)?;
        let report = format!(in alloc; "vssplan report 1\nverdict done\n{borders}{runs}end\n")?;
        let mut shelf = made_shelf(alloc, report.as_str())?;
        expect_run(&rt, alloc, JUDGE, &mut shelf, line, *status)?;
    }
    Ok(())
}
