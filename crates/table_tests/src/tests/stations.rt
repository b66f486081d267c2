//! At which sweeps a train stands wholly in a station.

use super::nets::{Cells, Joins, built, join_of, net_of, train_of};
use cell_net::{CellId, DirCell, Instance, StationId, TrainId};
use std::alloc::Global;
use std::process::Abort;
use std::test::Fail;
use sweep_table::{Moves, SweepId, SweepTable};
use vss_lists::Items;

/// Cells and their joins, the train's length and its advance, the station's cells, and at how many sweeps
/// the train stands there.
type Row = (
    Cells<'static>,
    Joins<'static>,
    u32,
    u32,
    &'static [u32],
    usize,
);

/// Four cells in a row.
const LINE: Cells = &[(0, 1, 0), (1, 2, 0), (2, 3, 0), (3, 4, 0)];

const IN_A_ROW: Joins = &[(0, 1), (1, 2), (2, 3)];

/// A tip, cell 0, and two legs, cells 1 and 2 and cells 3 and 4.
const POINT: Cells = &[(0, 1, 0), (1, 2, 0), (2, 4, 0), (1, 3, 0), (3, 5, 0)];

const LEGS: Joins = &[(0, 1), (1, 2), (0, 3), (3, 4)];

static ROWS: [Row; 8] = [
    (LINE, IN_A_ROW, 2, 1, &[1, 2], 2),
    (LINE, IN_A_ROW, 2, 1, &[0, 1, 2, 3], 6),
    // a train that is longer than the station
    (LINE, IN_A_ROW, 2, 1, &[2], 0),
    // two cells of the station, of which none follows the other
    (LINE, IN_A_ROW, 2, 1, &[0, 2], 0),
    // a train that moves over both cells doesn't stand
    (LINE, IN_A_ROW, 1, 1, &[1, 2], 4),
    // a station over both legs: the train stands on the one or on the other
    (POINT, LEGS, 2, 1, &[1, 2, 3, 4], 4),
    (POINT, LEGS, 1, 2, &[1, 3], 4),
    // with the tip, four ways more
    (POINT, LEGS, 2, 1, &[0, 1, 2, 3, 4], 8),
];

#[test]
fn a_train_stands_where_all_its_cells_are_the_stations(rt: HostRuntime) -> Result<(), Fail> {
    for row in ROWS {
        check_row(&rt, rt.alloc(), row)?;
    }
    Ok(())
}

fn check_row(rt: &impl Abort, alloc: Global, row: Row) -> Result<(), Fail> {
    let (_, _, length, _, station, count) = row;
    let inst = instance_of(rt, alloc, row)?;
    assert!(rt; 0 < inst.train_count());
    assert!(rt; !inst.parts().stations.is_empty());
    let table = SweepTable::build(alloc, &inst, TrainId(0))?;
    let mut found = 0usize;
    for place in 0..table.len() {
        let stands = table.stands_in(SweepId(place), &inst, StationId(0));
        let want = is_within(table.cells(SweepId(place)), length, station);
        assert_eq!(rt; stands, want, "sweep {place}");
        if stands {
            found = found.wrapping_add(1);
        }
    }
    assert_eq!(rt; found, count);
    Ok(())
}

/// Whether these are so many cells, all of them among the station's.
fn is_within(cells: &[DirCell], length: u32, station: &[u32]) -> bool {
    cells.len() == length as usize
        && cells.iter().all(|directed| station.iter().any(|cell| *cell == directed.cell.0))
}

fn instance_of(rt: &impl Abort, alloc: Global, row: Row) -> Result<Instance, Fail> {
    let (cells, joins, length, advance, station, _) = row;
    let mut net = net_of(alloc, cells, &[])?;
    for &(before, after) in joins {
        net.joins.push(join_of(before, after))?;
    }
    let cells: Vec<CellId> = station.iter().map(|&cell| CellId(cell)).collect(alloc)?;
    net.stations.push(Items::from_vec(cells))?;
    net.trains.push(train_of(alloc, length, advance))?;
    built(rt, alloc, net)
}
