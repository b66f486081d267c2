//! The labels of a scene.

ghost use Rattle.std.specs.Prelude.{◌≡◌, IfOk};
ghost use Rattle.rail_net.specs.Parts.{track_names as names_of_tracks};
ghost use Rattle.timetable.specs.Timetables.{IsTimetable, train_names as names_of_trains};
ghost use Rattle.discretise.specs.Grids.{IsGridOf};
ghost use Rattle.discretise.specs.Scenes.{AreNames};

use crate::cells::cell_labels;
use crate::grid::Grid;
use crate::places::place_labels;
use cell_net::Labels;
use rail_net::Net;
use std::alloc::{AllocError, Global};
use timetable::Timetable;
use vss_lists::{Items, Text};

/// The names of tracks, cells, candidates and trains. Linear in them.
pub(crate) fn labels_of(
    alloc: Global,
    net: &Net,
    timetable: &Timetable,
    grid: &Grid,
) -> Result<Labels, AllocError>
    requires timetable { IsTimetable net.now timetable.now }
    requires grid { IsGridOf net.now timetable.now grid.now.tracks.items grid.now.ends.items grid.now.joints.items grid.now.candidates.items }
    ensures { IfOk result (AreNames net.now timetable.now grid.now.tracks.items grid.now.joints.items) }
{
    let tracks = track_names(alloc, net)?;
    let cells = cell_labels(alloc, &grid.tracks)?;
    let places = place_labels(alloc, net, timetable, &grid.joints, &grid.tracks)?;
    let trains = train_names(alloc, timetable)?;
    Ok(Labels {
        tracks: Items::from_vec(tracks),
        cells: Items::from_vec(cells),
        places: Items::from_vec(places),
        trains: Items::from_vec(trains),
    })
}

fn track_names(alloc: Global, net: &Net) -> Result<Vec<Text>, AllocError>
    ensures { IfOk result (λ names. names.items ≡ names_of_tracks net.now) }
{
    let tracks = net.parts().tracks.as_slice();
    let mut names = Vec::with_capacity(alloc, tracks.len())?;
    for at in 0..tracks.len() {
        names.push(copied(alloc, tracks[at].name.as_str())?)?;
    }
    Ok(names)
}

fn train_names(alloc: Global, timetable: &Timetable) -> Result<Vec<Text>, AllocError>
    ensures { IfOk result (λ names. names.items ≡ names_of_trains timetable.now) }
{
    let trains = timetable.trains.as_slice();
    let mut names = Vec::with_capacity(alloc, trains.len())?;
    for at in 0..trains.len() {
        names.push(copied(alloc, trains[at].name.as_str())?)?;
    }
    Ok(names)
}

/// A text of one's own.
fn copied(alloc: Global, text: &str) -> Result<Text, AllocError>
    ensures { IfOk result (λ copy. copy ≡ text.now) }
{
    Ok(Text::from_string(String::from_str(alloc, text)?))
}
