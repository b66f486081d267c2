//! The items that a train can have at each step.

use super::nets::{Net, ROW, Train, instance_of};
use cell_net::{Instance, TrainId};
use clause_encoder::{GatherFault, gather_cones};
use std::alloc::Global;
use std::process::Abort;
use std::test::Fail;
use sweep_table::SweepTable;
use vss_rows::Rows;

/// A net, for how many steps behind its first one its train may enter, for how many it may be there, and its cones.
type Row = (Net, u32, u32, &'static [&'static [u32]]);

/// Two cells in a row, over which a train of one cell goes. Its sweeps are 0 and 1 in the first cell, down and up, 2 and 3 in the
/// second one, and 4 and 5 from cell to cell, up and down.
const TWO: Net = Net {
    cells: &[(0, 1, 0), (1, 2, 0)],
    trains: &[Train {
        length: 1,
        entry: (0, true),
        goal: (1, true),
        start: 0,
        latest: 0,
        by: 0,
        stops: &[],
    }],
    joins: &[((0, true), (1, false))],
    candidates: &[],
    ..ROW
};

static ROWS: [Row; 8] = [
    // at its only step it enters and is at its goal
    (TWO, 0, 0, &[&[4]]),
    (TWO, 0, 1, &[&[1, 4], &[3, 4]]),
    (TWO, 0, 2, &[&[1, 4], &[1, 3, 4], &[3, 4]]),
    // whoever waits before its entry might as well stand behind it
    (TWO, 2, 2, &[&[1, 4], &[1, 3, 4], &[3, 4]]),
    // of the row, the sweeps 1, 3, 5 and 7 stand, upwards, and 8, 10 and 12 go from cell to cell
    (ROW, 0, 2, &[&[8], &[10], &[12]]),
    (ROW, 1, 3, &[&[1, 8], &[3, 8, 10], &[5, 10, 12], &[7, 12]]),
    // no entry leads to a goal in time
    (ROW, 0, 1, &[&[], &[]]),
    (ROW, 0, 0, &[&[]]),
];

#[test]
fn cones_hold_what_an_entry_leads_to_and_leads_to_a_goal(rt: HostRuntime) -> Result<(), Fail> {
    for row in ROWS.iter() {
        check_row(&rt, rt.alloc(), *row)?;
    }
    Ok(())
}

fn check_row(rt: &impl Abort, alloc: Global, row: Row) -> Result<(), Fail> {
    let (net, window, last, want) = row;
    let inst = instance_of(rt, alloc, net)?;
    let cones = cones_of(rt, alloc, &inst, window, last)??;
    check_cones(rt, &cones, want);
    Ok(())
}

fn check_cones(rt: &impl Abort, cones: &Rows<u32>, want: &[&[u32]]) {
    assert_eq!(rt; cones.len(), want.len());
    for step in 0..cones.len() {
        assert_eq!(rt; cones.row(step), want[step]);
    }
}

/// The cones of the instance's first train.
pub(super) fn cones_of(
    rt: &impl Abort,
    alloc: Global,
    inst: &Instance,
    window: u32,
    last: u32,
) -> Result<Result<Rows<u32>, GatherFault>, Fail> {
    assert!(rt; inst.train_count() > 0);
    assert!(rt; last < 400);
    let table = SweepTable::build(alloc, inst, TrainId(0))?;
    Ok(gather_cones(alloc, inst, &table, window, last))
}
