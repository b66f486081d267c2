//! What is printed of made cases.

use super::scenes::scene;
use case_maker::make_case;
use case_texts::{print_case, print_summary};
use cell_net::{Layout, Plan};
use std::alloc::Global;
use std::process::Abort;
use std::test::Fail;
use vss_io::MemSink;
use vss_lists::Items;
use vss_report::{Design, Outcome, Smaller};

#[test]
fn documents_are_printed_one_behind_the_other(rt: HostRuntime) -> Result<(), Fail> {
    let alloc = rt.alloc();
    let (network, timetable) = make_case(alloc, 1, 8)?;
    let mut out = MemSink::new(alloc, 1_000_000, Vec::new(alloc))?;
    assert!(rt; print_case(network.as_slice(), timetable.as_slice(), &mut out).is_ok());
    let whole = network.len();
    assert!(rt; 4096 < whole);
    assert_eq!(rt; out.written().len(), whole + timetable.len());
    let (front, back) = out.written().split_at_checked(whole).ok_or("too short")?;
    assert_eq!(rt; front, network.as_slice());
    assert_eq!(rt; back, timetable.as_slice());
    Ok(())
}

#[test]
fn nothing_is_printed_behind_a_piece_that_fails(rt: HostRuntime) -> Result<(), Fail> {
    let alloc = rt.alloc();
    let (network, timetable) = make_case(alloc, 1, 8)?;
    let mut failing = Vec::new(alloc);
    failing.push(1)?;
    let mut out = MemSink::new(alloc, 1_000_000, failing)?;
    assert!(rt; print_case(network.as_slice(), timetable.as_slice(), &mut out).is_err());
    let front = network.as_slice().get(..4096).ok_or("too short")?;
    assert!(rt; out.written().starts_with(front));
    assert!(rt; network.as_slice().starts_with(out.written()));
    Ok(())
}

/// Prints the summary of the outcome for the case of size 4, and compares what is printed.
fn expect_summary(
    rt: &impl Abort,
    alloc: Global,
    outcome: &Outcome,
    ending: &str,
) -> Result<(), Fail> {
    let scene = scene(alloc, 1, 4)?;
    let mut out = MemSink::new(alloc, 1000, Vec::new(alloc))?;
    assert!(rt; print_summary(&scene.inst, outcome, &mut out).is_ok());
    let wanted = format!(in alloc; "cells 68\ncandidates 31\ntrains 6\nsteps 90\n{ending}")?;
    assert_eq!(rt; out.written(), wanted.as_bytes());
    Ok(())
}

/// A plan without runs.
fn no_plan(alloc: Global) -> Plan {
    Plan {
        runs: Items::new(alloc),
    }
}

#[test]
fn a_design_is_told_by_its_count(rt: HostRuntime) -> Result<(), Fail> {
    let alloc = rt.alloc();
    let scene = scene(alloc, 1, 4)?;
    let mut borders = Vec::new(alloc);
    borders.push(cell_net::CandidateId(3))?;
    borders.push(cell_net::CandidateId(5))?;
    let Ok(layout) = Layout::new(&scene.inst, borders) else {
        return Err(Fail::from("no layout"));
    };
    let outcome = Outcome::Done(Design {
        layout,
        plan: no_plan(alloc),
        smaller: Smaller::NotAsked,
    });
    expect_summary(&rt, alloc, &outcome, "verdict done\nborders 2\nend\n")
}

#[test]
fn a_spent_search_is_told_with_its_best_design(rt: HostRuntime) -> Result<(), Fail> {
    let alloc = rt.alloc();
    let scene = scene(alloc, 1, 4)?;
    let Ok(layout) = Layout::new(&scene.inst, Vec::new(alloc)) else {
        return Err(Fail::from("no layout"));
    };
    let outcome = Outcome::Spent {
        conflicts: 7,
        best: Some((layout, no_plan(alloc))),
    };
    expect_summary(&rt, alloc, &outcome, "verdict spent\nborders 0\nend\n")?;
    let outcome = Outcome::Spent {
        conflicts: 7,
        best: None,
    };
    expect_summary(&rt, alloc, &outcome, "verdict spent\nend\n")
}
