//! The scene of a network and a timetable.

ghost use Rattle.std.specs.Prelude.{◌<◌, ◌^◌, IfOk, length};
ghost use Rattle.vss_lists.specs.Orders.{AreKept};
ghost use Rattle.timetable.specs.Timetables.{IsTimetable};
ghost use Rattle.discretise.specs.Grids.{IsGridOf};
ghost use Rattle.discretise.specs.Refusals.{cut_rules};
ghost use Rattle.discretise.specs.Scenes.{AreParts, IsScene, IsSceneOf};

use crate::cells::cells_on;
use crate::grid::{Grid, grid_of};
use crate::joins::joins_of;
use crate::kept::kept_places;
use crate::labels::labels_of;
use crate::refusal::CutRefusal;
use crate::rounding::step_count;
use crate::rules::{test_tracks, test_trains};
use crate::stations::stations_of;
use crate::tracks::cut_total;
use crate::trains::trains_of;
use cell_net::{BuildRefusal, Instance, InstanceParts, Labels, Scene, refusals_are_exclusive};
use rail_net::Net;
use std::alloc::{AllocError, Global};
use timetable::Timetable;
use vss_lists::Items;

/// The scene of the network and the timetable, which was read for it: the instance that they are cut
/// into, with its labels; or the first rule of the grid that is broken, at its lowest item. Linear in
/// the network, the timetable, cells, joins and candidates, up to the sorting of joins and cell ends;
/// numbers that are too high for the grid are refused before anything is made of them.
pub fn scene_of(alloc: Global, net: &Net, timetable: &Timetable) -> Result<Scene, CutRefusal>
    requires { IsTimetable net.now timetable.now }
    ensures { IsSceneOf net.now timetable.now result }
{
    let grid = match grid_of(alloc, net, timetable) {
        Ok(grid) => grid,
        Err(refusal) => return Err(refusal),
    };
    match test_tracks(net.parts(), timetable) {
        Ok(()) => {}
        Err(refusal) => return Err(refusal),
    }
    match test_trains(timetable) {
        Ok(()) => {}
        Err(refusal) => return Err(refusal),
    }
    match built(alloc, net, timetable, grid) {
        Ok(scene) => Ok(scene),
        Err(_) => Err(CutRefusal::Memory),
    }
}

fn built(alloc: Global, net: &Net, timetable: &Timetable, grid: Grid) -> Result<Scene, AllocError>
    requires timetable { IsTimetable net.now timetable.now }
    requires kept { AreKept (cut_rules net.now timetable.now) }
    requires grid { IsGridOf net.now timetable.now grid.tracks.items grid.ends.items grid.joints.items grid.candidates.items }
    ensures { IfOk result (λ scene. IsScene net.now timetable.now scene.inst scene.labels) }
{
    let _parts = net.parts();
    refusals_are_exclusive();
    let labels = labels_of(alloc, net, timetable, &grid)?;
    let parts = parts_of(alloc, net, timetable, grid)?;
    match Instance::build(alloc, parts) {
        Ok(inst) => Ok(Scene { inst, labels }),
        Err(refusal) => match refusal {
            BuildRefusal::Memory => Err(AllocError),
            _ => unreachable!(),
        },
    }
}

fn parts_of(
    alloc: Global,
    net: &Net,
    timetable: &Timetable,
    grid: Grid,
) -> Result<InstanceParts, AllocError>
    requires timetable { IsTimetable net.now timetable.now }
    requires kept { AreKept (cut_rules net.now timetable.now) }
    requires grid { IsGridOf net.now timetable.now grid.tracks.items grid.ends.items grid.joints.items grid.candidates.items }
    ensures parts { IfOk result (AreParts net.now timetable.now grid.tracks.items grid.joints.items) }
    ensures joins { IfOk result (λ parts. length parts.joins < 2 ^ 32) }
{
    let parts = net.parts();
    let tracks = grid.tracks.as_slice();
    let ends = grid.ends.as_slice();
    let places = grid.candidates.as_slice();
    let nodes = parts.nodes.len() as u32 + cut_total(tracks);
    let cells = cells_on(alloc, tracks)?;
    let joins = joins_of(alloc, net, tracks, ends)?;
    if joins.as_slice().len() > u32::MAX as usize {
        return Err(AllocError);
    }
    let kept = kept_places(alloc, net, timetable, tracks, places, nodes as usize)?;
    let stations = stations_of(alloc, net, tracks)?;
    let trains = trains_of(alloc, timetable, ends)?;
    Ok(InstanceParts {
        nodes,
        sections: parts.sections.len() as u32,
        cells: Items::from_vec(cells),
        joins: Items::from_vec(joins),
        candidates: Items::from_vec(grid.candidates),
        kept: Items::from_vec(kept),
        stations: Items::from_vec(stations),
        trains: Items::from_vec(trains),
        steps: step_count(timetable) as u32,
    })
}
