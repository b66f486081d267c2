//! Track paths: lists of directed cells that a train can take.

ghost use Rattle.std.specs.Prelude.{◌≡◌, ◌≢◌, ◌<◌, ◌↔◌, All, AllPairs, IsTrue, false, length, slice_index_or, ℕ};
ghost use Rattle.std.specs.List.{AllAdjacentBelow};
ghost use Rattle.cell_net.specs.Space.{Follows, IsCell, IsTrackPath};

use cell_net::limits::CELLS;
use cell_net::{CellId, DirCell, Instance};

/// Whether the cells are a track path; linear, without memory.
pub(crate) fn is_track_path(inst: &Instance, cells: &[DirCell]) -> bool
    ensures { IsTrue result ↔ IsTrackPath inst.now cells.now }
{
    !cells.is_empty()
        && are_cells(inst, cells)
        && follow_each_other(inst, cells)
        && have_no_cell_twice(inst, cells)
}

fn are_cells(inst: &Instance, cells: &[DirCell]) -> bool
    ensures { IsTrue result ↔ All (λ d. IsCell inst.now d.cell) cells.now }
{
    cells.iter().all(|directed| is_cell(inst, directed.cell))
}

fn is_cell(inst: &Instance, cell: CellId) -> bool
    ensures { IsTrue result ↔ IsCell inst.now cell }
{
    cell.0 < inst.cell_count()
}

fn follow_each_other(inst: &Instance, cells: &[DirCell]) -> bool
    requires { All (λ d. IsCell inst.now d.cell) cells.now }
    ensures { IsTrue result ↔ AllAdjacentBelow (Follows inst.now) cells.now (length cells.now) }
{
    for place in 1..cells.len() {
        if !inst.follows(cells[place - 1], cells[place]) {
            return false;
        }
    }
    true
}

fn have_no_cell_twice(inst: &Instance, cells: &[DirCell]) -> bool
    requires { All (λ d. IsCell inst.now d.cell) cells.now }
    ensures { IsTrue result ↔ AllPairs (λ c d. c.cell ≢ d.cell) cells.now }
{
    let count = inst.cell_count() as usize;
    let mut table = nothing_seen();
    let seen = &mut table[..count];
    for directed in cells {
        let place = directed.cell.0 as usize;
        if seen[place] {
            return false;
        }
        seen[place] = true;
    }
    true
}

/// A mark for each cell of any instance.
fn nothing_seen() -> [bool; CELLS as usize]
    ensures { (cell : ℕ) → slice_index_or result cell false ≡ false }
{
    [false; CELLS as usize]
}
