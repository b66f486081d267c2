//! The reader of a design.
ghost use Rattle.std.specs.Prelude.{◌≡◌, ◌≤◌, ◌^◌, All, length, IfOk, IfErr};
ghost use Rattle.cell_net.specs.Borders.{IsBorderSet};
ghost use Rattle.vss_report.specs.DesignFaults.{IsDesignReading};
ghost use Rattle.vss_report.specs.Taken.{IsTakenWhole, IsLineFault};

use crate::design_parts::DesignParts;
use crate::fault::ReportFault;
use crate::next_line::next_line;
use crate::place::Place;
use cell_net::{Layout, Plan, Scene, layout_refusals_are_exclusive};
use std::alloc::Global;
use vss_lists::Items;

/// The layout and the plan that the report states for the scene. Tests the whole text; one pass, with memory for the
/// design alone. Linear in the text and the places of the scene, up to the search for cells (see `CellFinder`).
///
/// `BadLine` and `UnknownName` at the first line with such a fault; `NoPart` where no line has one and the report states
/// no design.
pub fn read_design(
    alloc: Global,
    bytes: &[u8],
    scene: &Scene,
) -> Result<(Layout, Plan), ReportFault>
    requires { length bytes.now ≤ 2 ^ 30 }
    ensures reading { IsDesignReading scene.now.labels bytes.now result }
    ensures layout { IfOk result (λ found. IsBorderSet scene.now.inst found.0) }
    ensures runs { IfOk result (λ found. length found.1.runs ≡ length scene.now.inst.trains) }
    ensures short { IfOk result (λ found. All (λ r. length r.sweeps ≤ length bytes.now) found.1.runs) }
{
    layout_refusals_are_exclusive();
    let parts = match take_lines(alloc, bytes, scene) {
        Ok(parts) => parts,
        Err(fault) => return Err(fault),
    };
    if !parts.begun {
        return Err(ReportFault::NoPart);
    }
    let runs = Items::from_vec(parts.runs);
    match Layout::new(&scene.inst, parts.borders) {
        Ok(layout) => Ok((layout, Plan { runs })),
        Err(_) => unreachable!(),
    }
}

/// Takes the lines of the report, all of them.
fn take_lines(alloc: Global, bytes: &[u8], scene: &Scene) -> Result<DesignParts, ReportFault>
    requires { length bytes.now ≤ 2 ^ 30 }
    ensures parts { IfOk result (IsTakenWhole scene.now.labels bytes.now) }
    ensures fault { IfErr result (IsLineFault scene.now.labels bytes.now) }
{
    let mut parts = DesignParts::new(alloc);
    let mut place = Place::Start;
    let mut rest = bytes;
    let mut number = 1;
    while !place.is_finished() {
        match next_line(place, number, rest) {
            Ok((line, behind)) => {
                match parts.take(alloc, scene, &line, number) {
                    Ok(()) => {}
                    Err(fault) => return Err(fault),
                }
                place = place.after(&line);
                rest = behind;
                number += 1;
            }
            Err(fault) => return Err(fault),
        }
    }
    if !rest.is_empty() {
        return Err(ReportFault::BadLine(number));
    }
    Ok(parts)
}
