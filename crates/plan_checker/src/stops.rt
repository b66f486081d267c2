//! Whether the stops of a run are met.

ghost use Rattle.std.specs.Prelude.{◌≡◌, ◌+◌, ◌<◌, ◌↔◌, ◌^◌, All, IfOk, IsTrue, MatchOption, length, slice_index_or, false, true, ℕ};
ghost use Rattle.vss_lists.specs.Breaks.{HoldsOfEach, BreaksFirstAt};
ghost use Rattle.cell_net.specs.Rules.{IsGoodStop};
ghost use Rattle.cell_net.specs.Runs.{IsCellOf, IsMet, StandsIn};
ghost use Rattle.plan_checker.specs.RunRules.{IsMetAt};
ghost use Rattle.plan_checker.specs.Stations.{CountsAt, MarksCells, MarksStation};

use cell_net::{CellId, DirCell, Instance, StationId, StopSpec, TrainRun, TrainSpec};
use std::alloc::{AllocError, Global};

/// The place of the first stop that isn't met.
pub(crate) fn first_unmet_stop(
    alloc: Global,
    inst: &Instance,
    train: &TrainSpec,
    run: &TrainRun,
) -> Result<Option<u32>, AllocError>
    requires few { length train.now.stops < 2 ^ 32 }
    requires stops { All (IsGoodStop inst.now) train.now.stops }
    requires small { run.now.start + length run.now.sweeps < 2 ^ 32 }
    ensures { IfOk result (λ found. MatchOption found (HoldsOfEach (IsMetAt inst.now train.now run.now) train.now.stops)
        (BreaksFirstAt (IsMetAt inst.now train.now run.now) train.now.stops)) }
{
    let stops = train.stops.as_slice();
    for place in 0..stops.len() {
        match is_met(alloc, inst, train, run, stops[place]) {
            Ok(true) => {}
            Ok(false) => return Ok(Some(place as u32)),
            Err(error) => return Err(error),
        }
    }
    Ok(None)
}

fn is_met(
    alloc: Global,
    inst: &Instance,
    train: &TrainSpec,
    run: &TrainRun,
    stop: StopSpec,
) -> Result<bool, AllocError>
    requires stop { IsGoodStop inst.now stop }
    requires small { run.now.start + length run.now.sweeps < 2 ^ 32 }
    ensures { IfOk result (λ met. IsTrue met ↔ IsMet inst.now train.now run.now stop) }
{
    let inside = cells_inside(alloc, inst, stop.station)?;
    Ok(stands_long_enough(inst, train, run, stop, &inside))
}

/// Marks the cells of the station.
fn cells_inside(alloc: Global, inst: &Instance, station: StationId) -> Result<Vec<bool>, AllocError>
    requires { station.0 < length inst.now.stations }
    ensures { IfOk result (λ inside. MarksStation inst.now station inside.items) }
{
    let mut inside = no_marks(alloc, inst.cell_count())?;
    mark(inside.as_mut_slice(), inst.station(station));
    Ok(inside)
}

fn no_marks(alloc: Global, count: u32) -> Result<Vec<bool>, AllocError>
    ensures len { IfOk result (λ marks. length marks.items ≡ count) }
    ensures none { IfOk result (λ marks. (cell : ℕ) → slice_index_or marks.items cell false ≡ false) }
{
    let mut marks = Vec::new(alloc);
    for _ in 0..count {
        marks.push(false)?;
    }
    Ok(marks)
}

fn mark(inside: &mut [bool], cells: &[CellId])
    requires none { (cell : ℕ) → slice_index_or inside.old cell false ≡ false }
    requires within { All (λ c. c.0 < length inside.old) cells.now }
    ensures { MarksCells cells.now inside.new }
{
    for cell in cells {
        inside[cell.0 as usize] = true;
    }
}

/// Whether the train stands in the station for as many steps in a row as the stop asks for.
fn stands_long_enough(
    inst: &Instance,
    train: &TrainSpec,
    run: &TrainRun,
    stop: StopSpec,
    inside: &[bool],
) -> bool
    requires inside { MarksStation inst.now stop.station inside.now }
    requires dwells { 0 < stop.dwell }
    requires small { run.now.start + length run.now.sweeps < 2 ^ 32 }
    ensures { IsTrue result ↔ IsMet inst.now train.now run.now stop }
{
    let mut stood = 0u32;
    for place in 0..run.sweeps.len() {
        if counts_at(inst, train, run, stop, inside, place) {
            stood += 1;
            if stood == stop.dwell {
                return true;
            }
        } else {
            stood = 0;
        }
    }
    false
}

/// Whether the step of this place is within the stop's window and the train stands in the station.
fn counts_at(
    inst: &Instance,
    train: &TrainSpec,
    run: &TrainRun,
    stop: StopSpec,
    inside: &[bool],
    place: usize,
) -> bool
    requires inside { MarksStation inst.now stop.station inside.now }
    requires small { run.now.start + length run.now.sweeps < 2 ^ 32 }
    requires within { place < length run.now.sweeps }
    ensures { IsTrue result ↔ CountsAt inst.now train.now run.now stop (run.now.start + place) }
{
    let start = run.start;
    let step = start + place as u32;
    stop.from <= step && step < stop.until && stands_at(inst, train, run, stop, inside, place)
}

/// Whether the train stands in the station at this place of its run.
fn stands_at(
    inst: &Instance,
    train: &TrainSpec,
    run: &TrainRun,
    stop: StopSpec,
    inside: &[bool],
    place: usize,
) -> bool
    requires inside { MarksStation inst.now stop.station inside.now }
    requires within { place < length run.now.sweeps }
    ensures { IsTrue result ↔ StandsIn inst.now train.now run.now stop.station (run.now.start + place) }
{
    match run.sweeps.get(place) {
        None => false,
        Some(sweep) => stands(inst, train, stop, inside, sweep.cells.as_slice()),
    }
}

fn stands(
    inst: &Instance,
    train: &TrainSpec,
    stop: StopSpec,
    inside: &[bool],
    cells: &[DirCell],
) -> bool
    requires inside { MarksStation inst.now stop.station inside.now }
    ensures { IsTrue result ↔ ((length cells.now ≡ train.now.length) × All (λ d. IsCellOf inst.now stop.station d.cell) cells.now) }
{
    cells.len() == train.length as usize && are_inside(inst, stop, inside, cells)
}

fn are_inside(inst: &Instance, stop: StopSpec, inside: &[bool], cells: &[DirCell]) -> bool
    requires { MarksStation inst.now stop.station inside.now }
    ensures { IsTrue result ↔ All (λ d. IsCellOf inst.now stop.station d.cell) cells.now }
{
    for directed in cells {
        if !is_inside(inst, stop, inside, directed.cell) {
            return false;
        }
    }
    true
}

fn is_inside(inst: &Instance, stop: StopSpec, inside: &[bool], cell: CellId) -> bool
    requires { MarksStation inst.now stop.station inside.now }
    ensures { IsTrue result ↔ IsCellOf inst.now stop.station cell }
{
    match inside.get(cell.0 as usize) {
        Some(marked) => *marked,
        None => false,
    }
}
