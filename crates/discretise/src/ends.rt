//! The ends of tracks at each node.

ghost use Rattle.std.specs.Prelude.{◌≡◌, ◌<◌, ◌++◌, ◌∷◌, [], All, IfOk, OnOk, length, slice_index_or, slice_set};
ghost use Rattle.discretise.specs.Tracks.{AreInRange, AreSmall, IsSmall};
ghost use Rattle.discretise.specs.Joins.{AreEndsByNode, low_end as low_of_track, high_end as high_of_track};
ghost use Rattle.discretise.specs.declared.ends.TrackEnd.{TrackEnd};

use crate::tracks::GridTrack;
use cell_net::{CellEnd, CellId, End};
use std::alloc::{AllocError, Global};
use vss_lists::Items;

/// An end of a track: the track's number, and the end of its first or last cell.
#[derive(Clone, Copy, Debug)]
pub struct TrackEnd {
    pub track: u32,
    pub end: CellEnd,
}

/// For each of so many nodes, the ends of tracks there, by track. Linear in nodes and tracks.
pub(crate) fn ends_by_node(
    alloc: Global,
    nodes: usize,
    tracks: &[GridTrack],
) -> Result<Vec<Items<TrackEnd>>, AllocError>
    requires range { AreInRange nodes tracks.now }
    requires small { AreSmall tracks.now }
    ensures { IfOk result (λ rows. AreEndsByNode nodes tracks.now rows.items) }
{
    let mut rows = empty_rows(alloc, nodes)?;
    for at in 0..tracks.len() {
        let track = tracks[at];
        put(&mut rows, track.from as usize, low_end(&track))?;
        put(&mut rows, track.to as usize, high_end(&track))?;
    }
    Ok(rows)
}

fn empty_rows(alloc: Global, count: usize) -> Result<Vec<Items<TrackEnd>>, AllocError>
    ensures count { IfOk result (λ rows. length rows.items ≡ count) }
    ensures none { IfOk result (λ rows. All (λ r. r ≡ []) rows.items) }
{
    let mut rows = Vec::with_capacity(alloc, count)?;
    for _ in 0..count {
        rows.push(Items::new(alloc))?;
    }
    Ok(rows)
}

fn put(rows: &mut Vec<Items<TrackEnd>>, row: usize, end: TrackEnd) -> Result<(), AllocError>
    requires { row < length rows.old.items }
    ensures { OnOk result (rows.new.items ≡ slice_set rows.old.items row (slice_index_or rows.old.items row [] ++ end ∷ [])) }
{
    rows[row].push(end)?;
    Ok(())
}

/// The low end of the track's first cell.
pub(crate) fn low_end(track: &GridTrack) -> TrackEnd
    ensures { result ≡ low_of_track track.now }
{
    TrackEnd {
        track: track.number,
        end: CellEnd {
            cell: CellId(track.first),
            end: End::Low,
        },
    }
}

/// The high end of its last cell.
pub(crate) fn high_end(track: &GridTrack) -> TrackEnd
    requires { IsSmall track.now }
    ensures { result ≡ high_of_track track.now }
{
    TrackEnd {
        track: track.number,
        end: CellEnd {
            cell: CellId(track.first + (track.count - 1)),
            end: End::High,
        },
    }
}
