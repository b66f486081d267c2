//! What the judge says of plans.

ghost use Rattle.std.specs.Prelude.{◌<◌, ◌↔◌, All, IsTrue, length};

use super::nets::{Net, STEPS, Traffic, down, instance_of, layout_of, up};
use cell_net::{
    CandidateId, CellId, DirCell, Instance, Plan, StationId, StopSpec, Sweep, TrainId, TrainRun,
    TrainSpec,
};
use plan_checker::{Breach, Verdict, judge};
use std::alloc::{AllocError, Global};
use std::process::Abort;
use std::test::Fail;
use vss_lists::Items;

/// For each train the cells that it touches at the steps from its start on.
type Runs<'a> = &'a [&'a [&'a [DirCell]]];

fn run_of(alloc: Global, start: u32, touched: &[&[DirCell]]) -> Result<TrainRun, AllocError> {
    let mut sweeps = Items::new(alloc);
    for cells in touched {
        let cells = Items::from_vec(cells.to_vec(alloc)?);
        sweeps.push(Sweep { cells })?;
    }
    Ok(TrainRun { start, sweeps })
}

fn plan_of(alloc: Global, start: u32, touched: Runs) -> Result<Plan, AllocError> {
    let mut runs = Items::new(alloc);
    for cells in touched {
        runs.push(run_of(alloc, start, cells)?)?;
    }
    Ok(Plan { runs })
}

fn are_short(runs: &[TrainRun]) -> bool
    ensures { IsTrue result ↔ All (λ r. length r.sweeps < 100) runs.now }
{
    runs.iter().all(|run| run.sweeps.len() < 100)
}

fn check_verdict(
    rt: &impl Abort,
    alloc: Global,
    inst: &Instance,
    borders: &[u32],
    touched: Runs,
    want: Verdict,
) -> Result<(), Fail> {
    check_verdict_from(rt, alloc, inst, borders, 0, touched, want)
}

/// Wants the verdict on the plan of all trains that begins at the step.
fn check_verdict_from(
    rt: &impl Abort,
    alloc: Global,
    inst: &Instance,
    borders: &[u32],
    start: u32,
    touched: Runs,
    want: Verdict,
) -> Result<(), Fail> {
    let layout = layout_of(rt, alloc, inst, borders)?;
    let plan = plan_of(alloc, start, touched)?;
    assert_eq!(rt; plan.runs.len(), inst.train_count() as usize);
    assert!(rt; are_short(plan.runs.as_slice()));
    assert_eq!(rt; judge(alloc, inst, &layout, &plan)?, want);
    Ok(())
}

/// A train of one cell that advances by at most one, from step 0 on.
fn train(alloc: Global, entry: DirCell, goal: DirCell, by: u32) -> TrainSpec {
    TrainSpec {
        length: 1,
        advance: 1,
        entry,
        goal,
        start: 0,
        latest: 0,
        by,
        stops: Items::new(alloc),
    }
}

/// A track of the cells 0 and 1, with the candidate 0 between them.
fn track() -> Net<'static> {
    Net {
        cells: &[(0, 1, 0), (1, 2, 0)],
        joins: &[(0, 1)],
        candidates: &[1],
        kept: &[],
    }
}

/// The track, where the border is kept, and the trains.
fn kept_track() -> Net<'static> {
    let mut net = track();
    net.kept = &[0];
    net
}

fn one_train(alloc: Global, train: TrainSpec) -> Result<Traffic, AllocError> {
    let mut trains = Items::new(alloc);
    trains.push(train)?;
    Ok(Traffic {
        stations: Items::new(alloc),
        trains,
    })
}

#[test]
fn a_layout_has_to_hold_the_kept_borders(rt: HostRuntime) -> Result<(), Fail> {
    let alloc = rt.alloc();
    let traffic = one_train(alloc, train(alloc, up(0), up(1), 0))?;
    let inst = instance_of(&rt, alloc, kept_track(), traffic)?;
    let missing = Verdict::Breach(Breach::Border {
        candidate: CandidateId(0),
    });
    let runs: Runs = &[&[&[up(0), up(1)]]];
    check_verdict(&rt, alloc, &inst, &[0], runs, Verdict::Lawful)?;
    check_verdict(&rt, alloc, &inst, &[], runs, missing)
}

// The step at which the train enters, and whether it is within its window.
static ENTRIES: [(u32, bool); 4] = [(0, false), (1, true), (2, true), (3, false)];

#[test]
fn a_train_enters_within_its_window(rt: HostRuntime) -> Result<(), Fail> {
    let alloc = rt.alloc();
    let mut late = train(alloc, up(0), up(0), 2);
    late.start = 1;
    late.latest = 2;
    let inst = instance_of(&rt, alloc, track(), one_train(alloc, late)?)?;
    let entry = Verdict::Breach(Breach::Entry { train: TrainId(0) });
    let runs: Runs = &[&[&[up(0)]]];
    for (start, within) in ENTRIES {
        let want = if within { Verdict::Lawful } else { entry };
        check_verdict_from(&rt, alloc, &inst, &[], start, runs, want)?;
    }
    Ok(())
}

fn two_trains(alloc: Global, one: TrainSpec, other: TrainSpec) -> Result<Traffic, AllocError> {
    let mut traffic = one_train(alloc, one)?;
    traffic.trains.push(other)?;
    Ok(traffic)
}

/// The trains 0 and 1 touch linked cells at step 0, by these first.
fn clash(e: u32, f: u32) -> Verdict {
    Verdict::Breach(Breach::Apart {
        a: TrainId(0),
        b: TrainId(1),
        step: 0,
        e: CellId(e),
        f: CellId(f),
    })
}

#[test]
fn trains_that_change_places_are_not_apart(rt: HostRuntime) -> Result<(), Fail> {
    let alloc = rt.alloc();
    let one = train(alloc, up(0), up(1), 0);
    let other = train(alloc, down(1), down(0), 0);
    let inst = instance_of(&rt, alloc, track(), two_trains(alloc, one, other)?)?;
    let runs: Runs = &[&[&[up(0), up(1)]], &[&[down(1), down(0)]]];
    check_verdict(&rt, alloc, &inst, &[0], runs, clash(0, 0))?;
    check_verdict(&rt, alloc, &inst, &[], runs, clash(0, 1))
}

#[test]
fn trains_that_stand_in_two_cells_are_apart_by_a_border(rt: HostRuntime) -> Result<(), Fail> {
    let alloc = rt.alloc();
    let one = train(alloc, up(0), up(0), 0);
    let other = train(alloc, down(1), down(1), 0);
    let inst = instance_of(&rt, alloc, track(), two_trains(alloc, one, other)?)?;
    let runs: Runs = &[&[&[up(0)]], &[&[down(1)]]];
    check_verdict(&rt, alloc, &inst, &[0], runs, Verdict::Lawful)?;
    check_verdict(&rt, alloc, &inst, &[], runs, clash(0, 1))
}

/// A train that stops for a step in the station, cell 1, at any time.
fn stopping_train(alloc: Global) -> Result<Traffic, AllocError> {
    let mut train = train(alloc, up(0), up(1), STEPS - 1);
    train.stops.push(StopSpec {
        station: StationId(0),
        from: 0,
        until: STEPS,
        dwell: 1,
    })?;
    let mut traffic = one_train(alloc, train)?;
    let mut station = Items::new(alloc);
    station.push(CellId(1))?;
    traffic.stations.push(station)?;
    Ok(traffic)
}

#[test]
fn a_train_has_to_stand_at_its_stop(rt: HostRuntime) -> Result<(), Fail> {
    let alloc = rt.alloc();
    let inst = instance_of(&rt, alloc, track(), stopping_train(alloc)?)?;
    let unmet = Verdict::Breach(Breach::Stop {
        train: TrainId(0),
        stop: 0,
    });
    let passing: Runs = &[&[&[up(0)], &[up(0), up(1)]]];
    check_verdict(&rt, alloc, &inst, &[], passing, unmet)?;
    let standing: Runs = &[&[&[up(0)], &[up(0), up(1)], &[up(1)]]];
    check_verdict(&rt, alloc, &inst, &[], standing, Verdict::Lawful)
}
