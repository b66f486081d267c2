//! The sweeps of a train, grown plainly: all lists of directed cells, cell by cell.

use cell_net::{CellId, DirCell, End, Instance};
use std::alloc::{AllocError, Global};
use std::process::Abort;
use vss_lists::Items;

/// Lists of directed cells, from tail to head.
pub(super) type Paths = Vec<Items<DirCell>>;

/// Each list of at least so many and at most so many directed cells in which each follows the one before
/// it and no cell comes twice: the shorter first, then by the numbers of the directed cells.
pub(super) fn plain_sweeps(
    rt: &impl Abort,
    alloc: Global,
    inst: &Instance,
    least: u32,
    most: u32,
) -> Result<Paths, AllocError> {
    let mut all = Vec::new(alloc);
    let mut paths = Vec::new(alloc);
    paths.push(Items::new(alloc))?;
    for count in 0..most {
        paths = longer_paths(rt, alloc, inst, &paths)?;
        if count >= least.wrapping_sub(1) {
            push_all(alloc, &paths, &mut all)?;
        }
    }
    Ok(all)
}

fn push_all(alloc: Global, paths: &Paths, all: &mut Paths) -> Result<(), AllocError> {
    for path in paths {
        all.push(Items::from_vec(Vec::from_slice(alloc, path.as_slice())?))?;
    }
    Ok(())
}

/// Each of the paths with each directed cell behind it that may come there.
fn longer_paths(
    rt: &impl Abort,
    alloc: Global,
    inst: &Instance,
    paths: &Paths,
) -> Result<Paths, AllocError> {
    let mut longer = Vec::new(alloc);
    for path in paths {
        for cell in 0..inst.cell_count() {
            push_longer(rt, alloc, inst, path.as_slice(), cell, &mut longer)?;
        }
    }
    Ok(longer)
}

fn push_longer(
    rt: &impl Abort,
    alloc: Global,
    inst: &Instance,
    path: &[DirCell],
    cell: u32,
    longer: &mut Paths,
) -> Result<(), AllocError> {
    for end in [End::Low, End::High] {
        let directed = DirCell {
            cell: CellId(cell),
            end,
        };
        if may_come(rt, inst, path, directed) {
            let mut more = Vec::from_slice(alloc, path)?;
            more.push(directed)?;
            longer.push(Items::from_vec(more))?;
        }
    }
    Ok(())
}

/// Whether the path doesn't have the cell, and its last cell, if it has one, is followed by this one.
fn may_come(rt: &impl Abort, inst: &Instance, path: &[DirCell], directed: DirCell) -> bool {
    match path.last() {
        Some(last) => {
            assert!(rt; last.cell.0 < inst.cell_count());
            inst.follows(*last, directed) && path.iter().all(|one| one.cell.0 != directed.cell.0)
        }
        None => true,
    }
}
