//! The sweeps of a train, against lists that are grown plainly; and what goes on from what.

ghost use Rattle.std.specs.Prelude.{◌<◌, ◌≤◌, length};

use super::nets::{Cells, Joins, Net, built, cell_of, join_of, net_of, train_of};
use super::plain::plain_sweeps;
use cell_net::{DirCell, Instance, TrainId};
use std::alloc::{AllocError, Global};
use std::process::Abort;
use std::test::Fail;
use sweep_table::{Moves, SweepId, SweepTable, TableRefusal};

/// Cells and their joins, the train's length and its advance, and how many sweeps it has.
type Row = (Cells<'static>, Joins<'static>, u32, u32, usize);

/// Four cells in a row.
const LINE: Cells = &[(0, 1, 0), (1, 2, 0), (2, 3, 0), (3, 4, 0)];

const IN_A_ROW: Joins = &[(0, 1), (1, 2), (2, 3)];

/// A tip, cell 0, and two legs, cells 1 and 2 and cells 3 and 4.
const POINT: Cells = &[(0, 1, 0), (1, 2, 0), (2, 4, 0), (1, 3, 0), (3, 5, 0)];

const LEGS: Joins = &[(0, 1), (1, 2), (0, 3), (3, 4)];

/// Two ways that cross at node 4.
const CROSSING: Cells = &[(0, 4, 0), (4, 1, 0), (2, 4, 0), (4, 3, 0)];

const STRAIGHT: Joins = &[(0, 1), (2, 3)];

/// Four cells that close a ring.
const RING: Cells = &[(0, 1, 0), (1, 2, 0), (2, 3, 0), (3, 0, 0)];

const ROUND: Joins = &[(0, 1), (1, 2), (2, 3), (3, 0)];

static ROWS: [Row; 8] = [
    // one cell at four places, two cells at three, both ways
    (LINE, IN_A_ROW, 1, 1, 14),
    // a train longer than its track
    (LINE, IN_A_ROW, 5, 3, 0),
    // two cells over each of four joins, and three cells along each leg, both ways
    (POINT, LEGS, 2, 1, 12),
    (POINT, LEGS, 3, 1, 4),
    (CROSSING, STRAIGHT, 2, 1, 4),
    (RING, ROUND, 2, 1, 16),
    // from each cell once round, both ways, and no cell twice
    (RING, ROUND, 4, 1, 8),
    (RING, ROUND, 5, 1, 0),
];

#[test]
fn each_sweep_is_in_the_table_in_order(rt: HostRuntime) -> Result<(), Fail> {
    for row in ROWS {
        check_row(&rt, rt.alloc(), row)?;
    }
    Ok(())
}

fn check_row(rt: &impl Abort, alloc: Global, row: Row) -> Result<(), Fail> {
    let (cells, joins, length, advance, count) = row;
    let inst = line_of(rt, alloc, cells, joins, length, advance)?;
    assert!(rt; 0 < inst.train_count());
    let table = SweepTable::build(alloc, &inst, TrainId(0))?;
    let plain = plain_sweeps(rt, alloc, &inst, length, length.wrapping_add(advance))?;
    assert_eq!(rt; plain.len(), count);
    assert_eq!(rt; table.len() as usize, count);
    for place in 0..table.len() {
        check_cells(
            rt,
            table.cells(SweepId(place)),
            plain[place as usize].as_slice(),
        );
    }
    Ok(())
}

fn check_cells(rt: &impl Abort, found: &[DirCell], want: &[DirCell]) {
    assert_eq!(rt; found, want);
}

/// The net of a train that runs on these cells.
fn line_of(
    rt: &impl Abort,
    alloc: Global,
    cells: Cells,
    joins: Joins,
    length: u32,
    advance: u32,
) -> Result<Instance, Fail> {
    let mut net = net_of(alloc, cells, &[])?;
    for &(before, after) in joins {
        net.joins.push(join_of(before, after))?;
    }
    net.trains.push(train_of(alloc, length, advance))?;
    built(rt, alloc, net)
}

#[test]
fn a_sweep_goes_on_where_its_last_cells_are_the_first(rt: HostRuntime) -> Result<(), Fail> {
    let alloc = rt.alloc();
    let inst = line_of(&rt, alloc, POINT, LEGS, 2, 1)?;
    assert!(&rt; 0 < inst.train_count());
    let table = SweepTable::build(alloc, &inst, TrainId(0))?;
    assert_eq!(&rt; table.len(), 12);
    for one in 0..table.len() {
        check_pairs(&rt, &table, one);
    }
    Ok(())
}

fn check_pairs(rt: &impl Abort, table: &SweepTable, one: u32)
    requires { one < length table.now.sweeps }
{
    for other in 0..table.len() {
        let want = goes_on(table.cells(SweepId(one)), table.cells(SweepId(other)));
        let next = table.next_of(SweepId(one)).iter().any(|id| id.0 == other);
        let prev = table.prev_of(SweepId(other)).iter().any(|id| id.0 == one);
        assert_eq!(rt; next, want, "{one} and {other}");
        assert_eq!(rt; prev, want, "{one} and {other}");
    }
}

/// Whether the last two cells of the one are the first two of the other.
fn goes_on(before: &[DirCell], after: &[DirCell]) -> bool {
    before.len() >= 2 && after.len() >= 2 && before[before.len() - 2..] == after[..2]
}

#[test]
fn more_than_50000_sweeps_are_refused(rt: HostRuntime) -> Result<(), Fail> {
    let alloc = rt.alloc();
    let inst = doubled(&rt, alloc, 60, 40)?;
    assert!(&rt; 0 < inst.train_count());
    let refusal = SweepTable::build(alloc, &inst, TrainId(0)).err();
    assert!(&rt; refusal == Some(TableRefusal::TooManySweeps));
    Ok(())
}

/// As many ways as there are end too early, two to the fortieth, and none of them is tried.
#[test]
fn no_path_grows_where_none_is_long_enough(rt: HostRuntime) -> Result<(), Fail> {
    let alloc = rt.alloc();
    let inst = doubled(&rt, alloc, 40, 41)?;
    assert!(&rt; 0 < inst.train_count());
    let table = SweepTable::build(alloc, &inst, TrainId(0))?;
    assert_eq!(&rt; table.len(), 0);
    Ok(())
}

/// So many places in a row with two cells side by side at each, and a train of so many cells.
fn doubled(rt: &impl Abort, alloc: Global, places: u32, length: u32) -> Result<Instance, Fail>
    requires { places ≤ 60 }
{
    let mut net = net_of(alloc, &[], &[])?;
    for place in 0..places {
        push_double(&mut net, place)?;
    }
    net.trains.push(train_of(alloc, length, 1))?;
    built(rt, alloc, net)
}

/// Two cells side by side, joined with both cells before them.
fn push_double(net: &mut Net, place: u32) -> Result<(), AllocError>
    requires { place < 60 }
{
    for side in 0..2 {
        let cell = place * 2 + side;
        net.cells.push(cell_of(place, place + 1, 0))?;
        if place > 0 {
            net.joins.push(join_of(place * 2 - 2, cell))?;
            net.joins.push(join_of(place * 2 - 1, cell))?;
        }
    }
    Ok(())
}
