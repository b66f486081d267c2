//! The sweep of a line.
ghost use Rattle.std.specs.Prelude.{IfOk};
ghost use Rattle.vss_report.specs.Found.{IsCellsText, IsSweepOf};

use crate::cell_finder::CellFinder;
use crate::cells::cell;
use cell_net::{Scene, Sweep};
use std::alloc::{AllocError, Global};
use vss_lists::Items;

/// The sweep of the cells that stand in the text, a blank before each; nothing where the scene lacks one of them. Linear
/// in the text where the guesses of cells are right.
pub(crate) fn read_sweep(
    alloc: Global,
    scene: &Scene,
    finder: &mut CellFinder,
    text: &[u8],
) -> Result<Option<Sweep>, AllocError>
    requires { IsCellsText text.now }
    ensures { IfOk result (IsSweepOf scene.now.labels text.now) }
{
    finder.go_to_tail();
    let mut cells = Vec::new(alloc);
    let mut rest = text;
    while !rest.is_empty() {
        match cell(&rest[1..]) {
            Ok((named, behind)) => {
                let Some(found) = finder.find(scene, &named) else {
                    return Ok(None);
                };
                if cells.is_empty() {
                    finder.keep_tail();
                }
                cells.push(found)?;
                rest = behind;
            }
            Err(_) => unreachable!(),
        }
    }
    Ok(Some(Sweep {
        cells: Items::from_vec(cells),
    }))
}
