//! The cells of stations.

ghost use Rattle.std.specs.Prelude.{◌≡◌, ◌+◌, ◌++◌, if◌then◌else◌, false, true, IfOk, OnOk, Some, length};
ghost use Rattle.std.specs.List.{AllZip};
ghost use Rattle.discretise.specs.Tracks.{AreInRange, AreSmall, IsSmall};
ghost use Rattle.discretise.specs.Stations.{AreMarkedNames, IsStationOf, MarksName, cell_ids};

use crate::tracks::GridTrack;
use cell_net::CellId;
use rail_net::{GroupPart, Net};
use std::alloc::{AllocError, Global};
use vss_lists::Items;

/// The cells of each station. For each of them linear in the tracks, those that it lists and its cells, but for
/// hashed look-ups of names.
pub(crate) fn stations_of(
    alloc: Global,
    net: &Net,
    tracks: &[GridTrack],
) -> Result<Vec<Items<CellId>>, AllocError>
    requires range { AreInRange (length net.now.nodes) tracks.now }
    requires count { length tracks.now ≡ length net.now.tracks }
    requires small { AreSmall tracks.now }
    ensures { IfOk result (λ stations. AllZip (IsStationOf net.now tracks.now) net.now.stations stations.items) }
{
    let groups = net.parts().stations.as_slice();
    let mut stations = Vec::with_capacity(alloc, groups.len())?;
    for at in 0..groups.len() {
        let cells = cells_of_station(alloc, net, tracks, &groups[at])?;
        stations.push(Items::from_vec(cells))?;
    }
    Ok(stations)
}

fn cells_of_station(
    alloc: Global,
    net: &Net,
    tracks: &[GridTrack],
    station: &GroupPart,
) -> Result<Vec<CellId>, AllocError>
    requires range { AreInRange (length net.now.nodes) tracks.now }
    requires count { length tracks.now ≡ length net.now.tracks }
    requires small { AreSmall tracks.now }
    ensures { IfOk result (λ cells. IsStationOf net.now tracks.now station.now cells.items) }
{
    let marks = marked_tracks(alloc, net, station)?;
    let mut cells = Vec::new(alloc);
    for at in 0..tracks.len() {
        let track = tracks[at];
        add_if_marked(&mut cells, &track, marks[track.number as usize])?;
    }
    Ok(cells)
}

/// Marks the tracks that the station lists.
fn marked_tracks(alloc: Global, net: &Net, station: &GroupPart) -> Result<Vec<bool>, AllocError>
    ensures { IfOk result (λ marks. AreMarkedNames net.now station.now.tracks marks.items) }
{
    let names = station.tracks.as_slice();
    let mut marks = vec![in alloc; false; net.parts().tracks.len()]?;
    for at in 0..names.len() {
        mark(&mut marks, net, names[at].as_str());
    }
    Ok(marks)
}

/// Marks the track of that name, where there is one.
fn mark(marks: &mut Vec<bool>, net: &Net, name: &str)
    requires { length marks.old.items ≡ length net.now.tracks }
    ensures { MarksName net.now name.now marks.old.items marks.new.items }
{
    let _parts = net.parts();
    match net.track_named(name) {
        Some(number) => marks[number as usize] = true,
        None => {}
    }
}

/// Adds the cells of the track where it is marked.
fn add_if_marked(
    cells: &mut Vec<CellId>,
    track: &GridTrack,
    is_marked: bool,
) -> Result<(), AllocError>
    requires { IsSmall track.now }
    ensures { OnOk result (cells.new.items ≡ (if is_marked then cells.old.items ++ cell_ids track.now else cells.old.items)) }
{
    if is_marked {
        add_ids(cells, track)?;
    }
    Ok(())
}

fn add_ids(cells: &mut Vec<CellId>, track: &GridTrack) -> Result<(), AllocError>
    requires { IsSmall track.now }
    ensures { OnOk result (cells.new.items ≡ cells.old.items ++ cell_ids track.now) }
{
    for place in 0..track.count {
        cells.push(CellId(track.first + place))?;
    }
    Ok(())
}
