//! The first and the last cells of each sweep, as many as the train is long.
ghost use Rattle.std.specs.Prelude.{IfOk};
ghost use Rattle.sweep_table.specs.Ends.{ArePlaces, HaveEnds, first_cells, last_cells};

use crate::order::place_of;
use cell_net::DirCell;
use std::alloc::{AllocError, Global};
use vss_rows::Rows;

/// For each sweep, the place of the one that is its first cells; one search each.
pub(crate) fn firsts_of(
    alloc: Global,
    sweeps: &Rows<DirCell>,
    train: usize,
) -> Result<Vec<u32>, AllocError>
    requires { HaveEnds train sweeps.now }
    ensures { IfOk result (λ firsts. ArePlaces sweeps.now (first_cells train) firsts.items) }
{
    let mut firsts = Vec::with_capacity(alloc, sweeps.len())?;
    for place in 0..sweeps.len() {
        let cells = sweeps.row(place);
        firsts.push(place_of(sweeps, &cells[..train]) as u32)?;
    }
    Ok(firsts)
}

/// For each sweep, the place of the one that is its last cells; one search each.
pub(crate) fn lasts_of(
    alloc: Global,
    sweeps: &Rows<DirCell>,
    train: usize,
) -> Result<Vec<u32>, AllocError>
    requires { HaveEnds train sweeps.now }
    ensures { IfOk result (λ lasts. ArePlaces sweeps.now (last_cells train) lasts.items) }
{
    let mut lasts = Vec::with_capacity(alloc, sweeps.len())?;
    for place in 0..sweeps.len() {
        let cells = sweeps.row(place);
        lasts.push(place_of(sweeps, &cells[cells.len() - train..]) as u32)?;
    }
    Ok(lasts)
}
