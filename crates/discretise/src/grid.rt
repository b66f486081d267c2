//! The tracks of a network on the grid, with what is made of them first.

ghost use Rattle.std.specs.Prelude.{IfOk, IfErr};
ghost use Rattle.vss_lists.specs.Orders.{AreKept};
ghost use Rattle.timetable.specs.Timetables.{IsTimetable};
ghost use Rattle.discretise.specs.Grids.{IsGridOf};
ghost use Rattle.discretise.specs.Refusals.{HasFewCells, RefusesCut, size_rules};

use crate::ends::{TrackEnd, ends_by_node};
use crate::places::{candidates_on, free_joints};
use crate::refusal::{CutFault, CutRefusal};
use crate::rounding::step_count;
use crate::rules::named;
use crate::tracks::{GridTrack, grid_tracks, has_few_cells};
use cell_net::NodeId;
use cell_net::limits::{CANDIDATES, STEPS, TRAINS};
use rail_net::{ListKind, Net};
use std::alloc::{AllocError, Global};
use timetable::Timetable;
use vss_lists::Items;

/// The tracks on the grid, their ends at each node, the joints where a border may stand, and the
/// candidates.
#[derive(Drop)]
pub(crate) struct Grid {
    pub tracks: Vec<GridTrack>,
    pub ends: Vec<Items<TrackEnd>>,
    pub joints: Vec<u32>,
    pub candidates: Vec<NodeId>,
}

/// The grid of the network and the timetable, unless there is too much of something. Linear in the
/// network, and in cells, of which there are at most 1,000.
pub(crate) fn grid_of(alloc: Global, net: &Net, timetable: &Timetable) -> Result<Grid, CutRefusal>
    requires { IsTimetable net.now timetable.now }
    ensures grid { IfOk result (λ grid. IsGridOf net.now timetable.now grid.tracks.items grid.ends.items grid.joints.items grid.candidates.items) }
    ensures kept { IfOk result (λ _. AreKept (size_rules net.now timetable.now)) }
    ensures refusal { IfErr result (RefusesCut (size_rules net.now timetable.now)) }
{
    if !has_few_cells(net.parts().tracks.as_slice(), timetable) {
        return Err(named(CutFault::TooManyCells, ListKind::Document, 0));
    }
    let Ok(grid) = laid_out(alloc, net, timetable) else {
        return Err(CutRefusal::Memory);
    };
    let seen = grid.candidates.as_slice();
    let count = seen.len();
    if count > CANDIDATES as usize {
        return Err(named(CutFault::TooManyCandidates, ListKind::Document, 0));
    }
    let trains = timetable.trains.len();
    if trains > TRAINS as usize {
        return Err(named(CutFault::TooManyTrains, ListKind::Document, 0));
    }
    let steps = step_count(timetable);
    if steps > u64::from(STEPS) {
        return Err(named(CutFault::TooManySteps, ListKind::Document, 0));
    }
    Ok(grid)
}

fn laid_out(alloc: Global, net: &Net, timetable: &Timetable) -> Result<Grid, AllocError>
    requires timetable { IsTimetable net.now timetable.now }
    requires few { HasFewCells net.now timetable.now }
    ensures { IfOk result (λ grid. IsGridOf net.now timetable.now grid.tracks.items grid.ends.items grid.joints.items grid.candidates.items) }
{
    let tracks = grid_tracks(alloc, net, timetable)?;
    let ends = ends_by_node(alloc, net.parts().nodes.len(), &tracks)?;
    let joints = free_joints(alloc, net, timetable, &tracks, &ends)?;
    let candidates = candidates_on(alloc, &joints, &tracks)?;
    Ok(Grid {
        tracks,
        ends,
        joints,
        candidates,
    })
}
