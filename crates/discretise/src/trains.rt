//! Trains and their stops, in cells and steps.

ghost use Rattle.std.specs.Prelude.{◌≡◌, ◌<◌, ◌≤◌, [], All, IfOk, length, map, slice_index_or};
ghost use Rattle.std.specs.List.{AllZip};
ghost use Rattle.cell_net.specs.declared.limits.TheConstants.{STEPS};
ghost use Rattle.discretise.specs.Rounding.{HasSteps, step_count as steps_of_horizon};
ghost use Rattle.cell_net.specs.Space.{head_of, tail_of};
ghost use Rattle.discretise.specs.Trains.{HasItsEnds, HasOneEnd, HasShortStops, IsOneEnd, IsShortStop, IsTrainBetween, stop_of as stop_in_steps};
ghost use Rattle.discretise.specs.Refusals.{FitsGrid};

use crate::ends::TrackEnd;
use crate::rounding::{
    advance_of, cells_of, dwell_steps, last_step, latest_entry, step_from, steps_until,
};
use cell_net::{CellEnd, DirCell, End, StationId, StopSpec, TrainSpec};
use std::alloc::{AllocError, Global};
use timetable::{StopPart, Timetable, TrainPart};
use vss_lists::Items;

/// The trains on the grid, where these are the ends of tracks at each node. Linear in trains and stops.
pub(crate) fn trains_of(
    alloc: Global,
    timetable: &Timetable,
    ends: &[Items<TrackEnd>],
) -> Result<Vec<TrainSpec>, AllocError>
    requires steps { HasSteps timetable.now }
    requires few { steps_of_horizon timetable.now ≤ STEPS }
    requires trains { All HasShortStops timetable.now.trains }
    requires fit { All (FitsGrid timetable.now) timetable.now.trains }
    requires ends { All (HasItsEnds ends.now) timetable.now.trains }
    ensures { IfOk result (λ trains. AllZip (IsTrainBetween ends.now timetable.now) timetable.now.trains trains.items) }
{
    let parts = timetable.trains.as_slice();
    let mut trains = Vec::with_capacity(alloc, parts.len())?;
    for at in 0..parts.len() {
        let train = train_of(alloc, timetable, ends, &parts[at])?;
        trains.push(train)?;
    }
    Ok(trains)
}

fn train_of(
    alloc: Global,
    timetable: &Timetable,
    ends: &[Items<TrackEnd>],
    part: &TrainPart,
) -> Result<TrainSpec, AllocError>
    requires steps { HasSteps timetable.now }
    requires few { steps_of_horizon timetable.now ≤ STEPS }
    requires train { HasShortStops part.now }
    requires fits { FitsGrid timetable.now part.now }
    requires ends { HasItsEnds ends.now part.now }
    ensures { IfOk result (λ train. IsTrainBetween ends.now timetable.now part.now train) }
{
    let start = step_from(timetable, part.entry_s);
    let by = last_step(timetable, part.arrive_s);
    let latest = latest_entry(timetable, start, by, part.entry_until_s);
    let stops = stops_of(alloc, timetable, part.stops.as_slice())?;
    let from = only_end(ends, part.from);
    let to = only_end(ends, part.to);
    Ok(TrainSpec {
        length: cells_of(timetable, part.length_m) as u32,
        advance: advance_of(timetable, part.speed_kmh) as u32,
        entry: away_from(from),
        goal: towards(to),
        start: start as u32,
        latest: latest as u32,
        by: by as u32,
        stops: Items::from_vec(stops),
    })
}

/// The only end of a track at the node.
fn only_end(ends: &[Items<TrackEnd>], node: u32) -> CellEnd
    requires within { node < length ends.now }
    requires one { HasOneEnd (slice_index_or ends.now node []) }
    ensures { IsOneEnd (slice_index_or ends.now node []) result }
{
    ends[node as usize].as_slice()[0].end
}

/// In the cell of that end, heading away from it.
fn away_from(end: CellEnd) -> DirCell
    ensures { tail_of result ≡ end }
{
    DirCell {
        cell: end.cell,
        end: match end.end {
            End::Low => End::High,
            End::High => End::Low,
        },
    }
}

/// In the cell of that end, heading towards it.
fn towards(end: CellEnd) -> DirCell
    ensures { head_of result ≡ end }
{
    DirCell {
        cell: end.cell,
        end: end.end,
    }
}

fn stops_of(
    alloc: Global,
    timetable: &Timetable,
    parts: &[StopPart],
) -> Result<Vec<StopSpec>, AllocError>
    requires steps { HasSteps timetable.now }
    requires short { All IsShortStop parts.now }
    ensures { IfOk result (λ stops. stops.items ≡ map (stop_in_steps timetable.now) parts.now) }
{
    let mut stops = Vec::with_capacity(alloc, parts.len())?;
    for at in 0..parts.len() {
        stops.push(stop_of(timetable, parts[at]))?;
    }
    Ok(stops)
}

fn stop_of(timetable: &Timetable, part: StopPart) -> StopSpec
    requires steps { HasSteps timetable.now }
    requires short { IsShortStop part }
    ensures { result ≡ stop_in_steps timetable.now part }
{
    StopSpec {
        station: StationId(part.station),
        from: step_from(timetable, part.from_s) as u32,
        until: steps_until(timetable, part.until_s) as u32,
        dwell: dwell_steps(timetable, part.dwell_s) as u32,
    }
}
