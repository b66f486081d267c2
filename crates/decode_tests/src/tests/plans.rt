//! The layout and the plan of small instances that can have but one.

ghost use Rattle.std.specs.Prelude.{◌<◌, ◌↔◌, All, IfOk, IsTrue, MatchOption, length};
ghost use Rattle.cell_net.specs.Plans.{IsLawful};

use super::nets::{Net, Train, instance_of};
use super::scenes::found;
use cell_net::{CandidateId, DirCell, End, Instance, Layout, Plan, TrainRun};
use clause_encoder::Task;
use plan_checker::{Verdict, judge};
use std::alloc::Global;
use std::marker::Brand;
use std::process::Abort;
use std::sync::ledger::Blank;
use std::test::Fail;

/// A run: its first step, and the cells that the train touches from there on, all headed up.
type Run = (u32, &'static [&'static [u32]]);

/// The net and its trains; the bound of a free task, or the layout that is given; and the borders with the runs, if there are any.
#[derive(Clone, Copy)]
struct Row {
    net: Net,
    trains: &'static [Train],
    asked: Asked,
    want: Option<(&'static [u32], &'static [Run])>,
}

#[derive(Clone, Copy)]
enum Asked {
    AtMost(u32),
    Given(&'static [u32]),
}

/// One track of four cells, with a candidate between each two and a station at cell 1.
const TRACK: Net = Net {
    cells: 4,
    is_ring: false,
    candidates: &[1, 2, 3],
    stations: &[1],
};

/// Four cells round a ring, with a candidate between each two.
const RING: Net = Net {
    cells: 4,
    is_ring: true,
    candidates: &[0, 1, 2, 3],
    stations: &[],
};

/// From end to end without a pause, from step 0, step 2 and step 4 on.
const FIRST: Train = Train {
    entry: 0,
    goal: 3,
    start: 0,
    latest: 0,
    by: 2,
    stop: None,
};

const SECOND: Train = Train {
    entry: 0,
    goal: 3,
    start: 2,
    latest: 2,
    by: 4,
    stop: None,
};

const LATER: Train = Train {
    entry: 0,
    goal: 3,
    start: 4,
    latest: 4,
    by: 6,
    stop: None,
};

const ALONG: &[&[u32]] = &[&[0, 1], &[1, 2], &[2, 3]];

/// The second follows so close that one border has to stand between them, in the middle.
const CLOSE: &[Train] = &[FIRST, SECOND];

/// It may wait until the first has left.
const WAITING: Train = Train {
    entry: 0,
    goal: 3,
    start: 0,
    latest: 3,
    by: 5,
    stop: None,
};

/// It stands for a step at cell 1, and has the time for it or not.
const STOPPING: Train = Train {
    entry: 0,
    goal: 3,
    start: 0,
    latest: 0,
    by: 3,
    stop: Some((0, 0, 3, 1)),
};

const HURRIED: Train = Train {
    entry: 0,
    goal: 3,
    start: 0,
    latest: 0,
    by: 2,
    stop: Some((0, 0, 3, 1)),
};

/// Two trains that cover the ring at once.
const ROUND: &[Train] = &[
    Train {
        entry: 0,
        goal: 1,
        start: 0,
        latest: 0,
        by: 0,
        stop: None,
    },
    Train {
        entry: 2,
        goal: 3,
        start: 0,
        latest: 0,
        by: 0,
        stop: None,
    },
];

static ROWS: [Row; 12] = [
    Row {
        net: TRACK,
        trains: &[LATER],
        asked: Asked::AtMost(0),
        want: Some((&[], &[(4, ALONG)])),
    },
    Row {
        net: TRACK,
        trains: CLOSE,
        asked: Asked::AtMost(0),
        want: None,
    },
    Row {
        net: TRACK,
        trains: CLOSE,
        asked: Asked::AtMost(1),
        want: Some((&[1], &[(0, ALONG), (2, ALONG)])),
    },
    Row {
        net: TRACK,
        trains: CLOSE,
        asked: Asked::Given(&[0, 1]),
        want: Some((&[0, 1], &[(0, ALONG), (2, ALONG)])),
    },
    Row {
        net: TRACK,
        trains: CLOSE,
        asked: Asked::Given(&[0, 2]),
        want: None,
    },
    Row {
        net: TRACK,
        trains: &[FIRST, WAITING],
        asked: Asked::AtMost(0),
        want: Some((&[], &[(0, ALONG), (3, ALONG)])),
    },
    Row {
        net: TRACK,
        trains: &[STOPPING],
        asked: Asked::AtMost(0),
        want: Some((&[], &[(0, &[&[0, 1], &[1], &[1, 2], &[2, 3]])])),
    },
    Row {
        net: TRACK,
        trains: &[HURRIED],
        asked: Asked::AtMost(3),
        want: None,
    },
    Row {
        net: RING,
        trains: ROUND,
        asked: Asked::AtMost(1),
        want: None,
    },
    Row {
        net: RING,
        trains: ROUND,
        asked: Asked::AtMost(2),
        want: Some((&[0, 2], &[(0, &[&[0, 1]]), (0, &[&[2, 3]])])),
    },
    Row {
        net: RING,
        trains: ROUND,
        asked: Asked::Given(&[0, 1, 2, 3]),
        want: Some((&[0, 1, 2, 3], &[(0, &[&[0, 1]]), (0, &[&[2, 3]])])),
    },
    Row {
        net: RING,
        trains: ROUND,
        asked: Asked::Given(&[2]),
        want: None,
    },
];

#[test]
fn what_is_found_is_the_one_plan(rt: HostRuntime) -> Result<(), Fail> {
    for row in ROWS {
        check_row(&rt, rt.alloc(), row)?;
    }
    Ok(())
}

fn check_row(rt: &impl Abort, alloc: Global, row: Row) -> Result<(), Fail> {
    let inst = instance_of(rt, alloc, row.net, row.trains)?;
    let answer = answer_to(rt, alloc, &inst, row.asked)?;
    match answer {
        Some((layout, plan)) => check_found(rt, alloc, &inst, &layout, &plan, row.want),
        None => {
            assert!(rt; row.want.is_none());
            Ok(())
        }
    }
}

/// What is found for a free task of so many borders, or for the layout that is given.
fn answer_to(
    rt: &impl Abort,
    alloc: Global,
    inst: &Instance,
    asked: Asked,
) -> Result<Option<(Layout, Plan)>, Fail>
    ensures { IfOk result (λ answer. MatchOption answer (Unit {0}) (λ f. IsLawful inst.now f.0 f.1)) }
{
    assert!(rt; inst.kept().is_empty());
    match asked {
        Asked::AtMost(most) => found::<Brand>(rt, alloc, inst, &Task::Free, most, Blank::new(1)),
        Asked::Given(borders) => {
            let borders: Vec<CandidateId> = borders.iter().map(|&b| CandidateId(b)).collect(alloc)?;
            assert!(rt; borders.len() < 100);
            let task = Task::Given(Layout::new(inst, borders)?);
            found::<Brand>(rt, alloc, inst, &task, 0, Blank::new(1))
        }
    }
}

fn check_found(
    rt: &impl Abort,
    alloc: Global,
    inst: &Instance,
    layout: &Layout,
    plan: &Plan,
    want: Option<(&[u32], &[Run])>,
) -> Result<(), Fail>
    requires { IsLawful inst.now layout.now plan.now }
{
    assert!(rt; want.is_some());
    if let Some((borders, runs)) = want {
        check_borders(rt, layout, borders);
        check_runs(rt, plan, runs);
    }
    assert_eq!(rt; plan.runs.len(), inst.train_count() as usize);
    assert!(rt; are_short(plan.runs.as_slice()));
    assert_eq!(rt; judge(alloc, inst, layout, plan)?, Verdict::Lawful);
    Ok(())
}

fn check_borders(rt: &impl Abort, layout: &Layout, want: &[u32]) {
    assert_eq!(rt; layout.borders().len(), want.len());
    for place in 0..want.len() {
        assert_eq!(rt; layout.borders()[place].0, want[place]);
    }
}

fn check_runs(rt: &impl Abort, plan: &Plan, want: &[Run]) {
    let runs = plan.runs.as_slice();
    assert_eq!(rt; runs.len(), want.len());
    for place in 0..want.len() {
        check_run(rt, &runs[place], want[place]);
    }
}

fn check_run(rt: &impl Abort, run: &TrainRun, want: Run) {
    let sweeps = run.sweeps.as_slice();
    assert_eq!(rt; run.start, want.0);
    assert_eq!(rt; sweeps.len(), want.1.len());
    for place in 0..want.1.len() {
        check_sweep(rt, sweeps[place].cells.as_slice(), want.1[place]);
    }
}

fn check_sweep(rt: &impl Abort, cells: &[DirCell], want: &[u32]) {
    assert_eq!(rt; cells.len(), want.len());
    for place in 0..want.len() {
        assert_eq!(rt; cells[place].cell.0, want[place]);
        assert_eq!(rt; cells[place].end, End::High);
    }
}

fn are_short(runs: &[TrainRun]) -> bool
    ensures { IsTrue result ↔ All (λ r. length r.sweeps < 100) runs.now }
{
    runs.iter().all(|run| run.sweeps.len() < 100)
}
