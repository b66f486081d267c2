//! Cells and their names.

ghost use Rattle.std.specs.Prelude.{◌≡◌, ◌<◌, ◌≤◌, ◌++◌, ◌+◌, IfOk, OnOk};
ghost use Rattle.discretise.specs.Tracks.{AreSmall, IsSmall};
ghost use Rattle.discretise.specs.Cells.{cell_in as cell_of_track, cell_labels as labels_of_tracks, cells_in, cells_on as cells_of_tracks, labels_in, node_before as node_of_track};

use crate::tracks::GridTrack;
use cell_net::{CellLabel, CellSpec, NodeId, SectionId};
use std::alloc::{AllocError, Global};

/// The cells of the tracks. Linear in the cells.
pub(crate) fn cells_on(alloc: Global, tracks: &[GridTrack]) -> Result<Vec<CellSpec>, AllocError>
    requires { AreSmall tracks.now }
    ensures { IfOk result (λ cells. cells.items ≡ cells_of_tracks tracks.now) }
{
    let mut cells = Vec::new(alloc);
    for at in 0..tracks.len() {
        add_cells(&mut cells, &tracks[at])?;
    }
    Ok(cells)
}

fn add_cells(cells: &mut Vec<CellSpec>, track: &GridTrack) -> Result<(), AllocError>
    requires { IsSmall track.now }
    ensures { OnOk result (cells.new.items ≡ cells.old.items ++ cells_in track.now) }
{
    for place in 0..track.count {
        cells.push(cell_in(track, place))?;
    }
    Ok(())
}

fn cell_in(track: &GridTrack, place: u32) -> CellSpec
    requires range { IsSmall track.now }
    requires within { place < track.now.count }
    ensures { result ≡ cell_of_track track.now place }
{
    CellSpec {
        low: NodeId(node_before(track, place)),
        high: NodeId(node_before(track, place + 1)),
        section: SectionId(track.section),
        limit: track.limit,
    }
}

/// The number of the node before that cell of the track.
fn node_before(track: &GridTrack, place: u32) -> u32
    requires range { IsSmall track.now }
    requires within { place ≤ track.now.count }
    ensures { result ≡ node_of_track track.now place }
{
    if place == 0 {
        track.from
    } else if place == track.count {
        track.to
    } else {
        track.cut + (place - 1)
    }
}

/// The names of the cells of the tracks. Linear in the cells.
pub(crate) fn cell_labels(alloc: Global, tracks: &[GridTrack]) -> Result<Vec<CellLabel>, AllocError>
    ensures { IfOk result (λ labels. labels.items ≡ labels_of_tracks tracks.now) }
{
    let mut labels = Vec::new(alloc);
    for at in 0..tracks.len() {
        add_labels(&mut labels, &tracks[at])?;
    }
    Ok(labels)
}

fn add_labels(labels: &mut Vec<CellLabel>, track: &GridTrack) -> Result<(), AllocError>
    ensures { OnOk result (labels.new.items ≡ labels.old.items ++ labels_in track.now) }
{
    for index in 0..track.count {
        labels.push(CellLabel {
            track: track.number,
            index,
        })?;
    }
    Ok(())
}
