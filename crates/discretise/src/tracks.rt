//! Tracks on the grid.

ghost use Rattle.std.specs.Prelude.{◌≡◌, ◌≤◌, ◌↔◌, ◌<◌, ◌+◌, ◌-◌, ◌^◌, IsTrue, IfOk, Some, length, slice_get, sum_by};
ghost use Rattle.timetable.specs.Timetables.{IsTimetable};
ghost use Rattle.discretise.specs.Rounding.{HasSteps, length_in_cells as cells_of_length};
ghost use Rattle.discretise.specs.Tracks.{AreGridTracks, AreInRange, AreSmall, IsGridTrack, cut_total as cuts_of_tracks};
ghost use Rattle.discretise.specs.Refusals.{HasFewCells};

use crate::rounding::{cells_of, limit_of};
use cell_net::limits::CELLS;
use rail_net::{Net, TrackPart};
use std::alloc::{AllocError, Global};
use timetable::Timetable;

/// A track in numbers: its own, those of the nodes where it begins and ends, that of its section, how
/// many cells a train may advance on it in a step, whether virtual borders may stand on it, how many
/// cells it has, and the numbers of its first cell and of the node of its first inner cut.
#[derive(Clone, Copy, Debug)]
pub struct GridTrack {
    pub number: u32,
    pub from: u32,
    pub to: u32,
    pub section: u32,
    pub limit: u32,
    pub is_virtual: bool,
    pub count: u32,
    pub first: u32,
    pub cut: u32,
}

/// Whether the tracks have no more than 1,000 cells. Linear in the tracks up to where they have.
pub(crate) fn has_few_cells(tracks: &[TrackPart], timetable: &Timetable) -> bool
    requires { HasSteps timetable.now }
    ensures { IsTrue result ↔ (sum_by (λ x. cells_of_length timetable.now x.length_m) tracks.now ≤ CELLS) }
{
    let mut total: u64 = 0;
    for at in 0..tracks.len() {
        total = total.saturating_add(cells_of(timetable, tracks[at].length_m));
        if total > u64::from(CELLS) {
            return false;
        }
    }
    true
}

/// How many cuts the tracks have. Linear in them.
pub(crate) fn cut_total(tracks: &[GridTrack]) -> u32
    requires { cuts_of_tracks tracks.now ≤ CELLS }
    ensures { result ≡ cuts_of_tracks tracks.now }
{
    let mut total = 0;
    for at in 0..tracks.len() {
        total += tracks[at].count.saturating_sub(1);
    }
    total
}

/// The tracks of the network on the grid. Linear in them but for hashed look-ups of names.
pub(crate) fn grid_tracks(
    alloc: Global,
    net: &Net,
    timetable: &Timetable,
) -> Result<Vec<GridTrack>, AllocError>
    requires timetable { IsTimetable net.now timetable.now }
    requires few { HasFewCells net.now timetable.now }
    ensures tracks { IfOk result (λ gs. AreGridTracks net.now timetable.now gs.items) }
    ensures ranges { IfOk result (λ gs. AreInRange (length net.now.nodes) gs.items) }
    ensures small { IfOk result (λ gs. AreSmall gs.items) }
    ensures nodes { IfOk result (λ _. length net.now.nodes + CELLS < 2 ^ 32) }
{
    let parts = net.parts();
    let tracks = parts.tracks.as_slice();
    let nodes = parts.nodes.len();
    // A document never has so many nodes.
    if nodes >= (u32::MAX - CELLS) as usize {
        return Err(AllocError);
    }
    let mut gs = Vec::with_capacity(alloc, tracks.len())?;
    let mut first = 0;
    let mut cut = nodes as u32;
    for number in 0..tracks.len() {
        let track = grid_track(net, timetable, &tracks[number], number as u32, first, cut);
        first += track.count;
        cut += track.count.saturating_sub(1);
        gs.push(track)?;
    }
    Ok(gs)
}

/// The track of that number on the grid, where its first cell and cut are these.
fn grid_track(
    net: &Net,
    timetable: &Timetable,
    part: &TrackPart,
    number: u32,
    first: u32,
    cut: u32,
) -> GridTrack
    requires timetable { IsTimetable net.now timetable.now }
    requires its { slice_get net.now.tracks number ≡ Some part.now }
    requires few { cells_of_length timetable.now part.now.length_m ≤ CELLS }
    ensures { IsGridTrack net.now timetable.now number first cut part.now result }
{
    let parts = net.parts();
    let limit = limit_of(timetable, part.limit_kmh) as u32;
    let count = cells_of(timetable, part.length_m) as u32;
    let Some(from) = net.node_named(part.from.as_str()) else {
        unreachable!();
    };
    let Some(to) = net.node_named(part.to.as_str()) else {
        unreachable!();
    };
    GridTrack {
        number,
        from,
        to,
        section: net.section_of(number),
        limit,
        is_virtual: part.virtual_ok,
        count,
        first,
        cut,
    }
}
