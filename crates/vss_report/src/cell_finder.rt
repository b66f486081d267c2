//! The cells of a scene, found by their names.
use crate::cells::NamedCell;
use crate::names::name_of_track;
use cell_net::{CellId, DirCell, Labels, Scene};

/// How many cells have a guess of their own.
const GUESSES: usize = 1024;

/// Finds cells by their names. Trains go on from cell to cell, so the one that was found behind the last cell before is
/// tried first, then the one as far from it as the numbers on the track tell, and only then all cells.
#[derive(Drop)]
pub(crate) struct CellFinder {
    /// The cell that was found last.
    last: u32,
    /// The first cell of the sweep that was read last.
    tail: u32,
    /// The cell that was found behind each cell.
    behind: [u32; GUESSES],
}

impl CellFinder {
    ghost use Rattle.std.specs.Prelude.{IfSome, IfNone};
    ghost use Rattle.cell_net.specs.declared.cells.DirCell.{DirCell};
    ghost use Rattle.vss_report.specs.Found.{name_of_cell};
    ghost use Rattle.vss_report.specs.Names.{IsNamedCell};

    pub(crate) fn new() -> CellFinder {
        CellFinder {
            last: 0,
            tail: 0,
            behind: [0; GUESSES],
        }
    }

    /// A sweep begins: its first cell is near the first one of the sweep before.
    pub(crate) fn go_to_tail(&mut self) {
        self.last = self.tail;
    }

    /// The cell that was found last is the first of its sweep.
    pub(crate) fn keep_tail(&mut self) {
        self.tail = self.last;
    }

    /// The cell of that name. Linear in the cells where no guess is right.
    pub(crate) fn find(&mut self, scene: &Scene, cell: &NamedCell<'_>) -> Option<DirCell>
        ensures found { IfSome result (IsNamedCell scene.now.labels (name_of_cell cell.now)) }
        ensures none { IfNone result ((d : DirCell) → ¬ IsNamedCell scene.now.labels (name_of_cell cell.now) d) }
    {
        let slot = self.last as usize % GUESSES;
        let place = match guessed(&scene.labels, cell, self.behind[slot], self.last) {
            Some(place) => place,
            None => search(scene, cell)?,
        };
        self.behind[slot] = place;
        self.last = place;
        Some(DirCell {
            cell: CellId(place),
            end: cell.end,
        })
    }
}

ghost use Rattle.std.specs.Prelude.{◌<◌, ◌↔◌, ℕ, IfSome, IfNone, IsTrue, length};
ghost use Rattle.vss_report.specs.Found.{name_of_cell, cell_at};
ghost use Rattle.vss_report.specs.Names.{IsNamedCell};

/// The cell of that name, if it is this one, or else stands as far from the last one as their numbers do.
fn guessed(labels: &Labels, cell: &NamedCell<'_>, guess: u32, last: u32) -> Option<u32>
    ensures { IfSome result (λ place. IsNamedCell labels.now (name_of_cell cell.now) (cell_at place cell.now)) }
{
    if is_named(labels, guess, cell) {
        return Some(guess);
    }
    let label = labels.cells.get(last as usize)?;
    let near = last.wrapping_add(cell.index.wrapping_sub(label.index));
    if is_named(labels, near, cell) {
        return Some(near);
    }
    None
}

/// The cell of that name. Linear in the cells.
fn search(scene: &Scene, cell: &NamedCell<'_>) -> Option<u32>
    ensures found { IfSome result (λ place. IsNamedCell scene.now.labels (name_of_cell cell.now) (cell_at place cell.now)) }
    ensures none { IfNone result ((place : ℕ) → place < length scene.now.labels.cells → ¬ IsNamedCell scene.now.labels (name_of_cell cell.now) (cell_at place cell.now)) }
{
    for place in 0..scene.inst.cell_count() {
        if is_named(&scene.labels, place, cell) {
            return Some(place);
        }
    }
    None
}

/// Whether the cell of that number has the name.
fn is_named(labels: &Labels, place: u32, cell: &NamedCell<'_>) -> bool
    ensures { IsTrue result ↔ IsNamedCell labels.now (name_of_cell cell.now) (cell_at place cell.now) }
{
    match labels.cells.get(place as usize) {
        Some(label) => {
            label.index == cell.index && name_of_track(labels, label.track) == cell.track
        }
        None => false,
    }
}
