//! What tracks bring to the nodes at their ends, and sections to the groups of their tracks.

ghost use Rattle.std.specs.Prelude.{◌≡◌, ◌<◌, ◌^◌, IfOk, length, []};
ghost use Rattle.node_groups.specs.Groups.{GroupsByReach};
ghost use Rattle.node_groups.specs.Touch.{Touch};
ghost use Rattle.rail_net.specs.Tables.{border_flag, flags_of, paired as paired_entries, segments_from, spread as spread_entries};

use crate::ends::TrackEnds;
use crate::entries::Entry;
use crate::parts::TrackPart;
use node_groups::{Segment, groups_of};
use std::alloc::{AllocError, Global};

/// For each track, its value under both its nodes. Linear in the tracks.
pub(crate) fn spread(
    alloc: Global,
    ends: &[TrackEnds],
    values: &[u32],
) -> Result<Vec<Entry>, AllocError>
    requires { length values.now ≡ length ends.now }
    ensures { IfOk result (λ entries. entries.items ≡ spread_entries ends.now values.now) }
{
    let mut entries = Vec::new(alloc);
    for at in 0..ends.len() {
        let value = values[at];
        entries.push(Entry {
            key: ends[at].from,
            value,
        })?;
        entries.push(Entry {
            key: ends[at].to,
            value,
        })?;
    }
    Ok(entries)
}

/// Each value under the key at its place. Linear in the keys.
pub(crate) fn paired(alloc: Global, keys: &[u32], values: &[u32]) -> Result<Vec<Entry>, AllocError>
    requires { length values.now ≡ length keys.now }
    ensures { IfOk result (λ entries. entries.items ≡ paired_entries keys.now values.now) }
{
    let mut entries = Vec::with_capacity(alloc, keys.len())?;
    for at in 0..keys.len() {
        entries.push(Entry {
            key: keys[at],
            value: values[at],
        })?;
    }
    Ok(entries)
}

/// For each track, 1 where no virtual border may stand on it, and else 0. Linear in the tracks.
pub(crate) fn flags(alloc: Global, tracks: &[TrackPart]) -> Result<Vec<u32>, AllocError>
    ensures { IfOk result (λ flags. flags.items ≡ flags_of tracks.now) }
{
    let mut flags = Vec::with_capacity(alloc, tracks.len())?;
    for at in 0..tracks.len() {
        flags.push(flag(&tracks[at]))?;
    }
    Ok(flags)
}

fn flag(track: &TrackPart) -> u32
    ensures { result ≡ border_flag track.now }
{
    if track.virtual_ok { 0 } else { 1 }
}

/// For each track, a number that it shares with the tracks of its section that are reached from it
/// over shared nodes. In the time of sorting the tracks' ends.
pub(crate) fn groups(
    alloc: Global,
    ends: &[TrackEnds],
    homes: &[u32],
) -> Result<Vec<u32>, AllocError>
    requires few { length ends.now < 2 ^ 32 }
    requires len { length homes.now ≡ length ends.now }
    ensures len { IfOk result (λ groups. length groups.items ≡ length ends.now) }
    ensures reach { IfOk result (λ groups. GroupsByReach (Touch (segments_from ends.now homes.now) []) groups.items) }
{
    let segments = segments(alloc, ends, homes)?;
    let groups = groups_of(alloc, &segments, &[])?;
    Ok(groups)
}

fn segments(alloc: Global, ends: &[TrackEnds], homes: &[u32]) -> Result<Vec<Segment>, AllocError>
    requires { length homes.now ≡ length ends.now }
    ensures { IfOk result (λ segments. segments.items ≡ segments_from ends.now homes.now) }
{
    let mut segments = Vec::with_capacity(alloc, ends.len())?;
    for at in 0..ends.len() {
        let TrackEnds { from, to } = ends[at];
        segments.push(Segment {
            low: from,
            high: to,
            part: homes[at],
        })?;
    }
    Ok(segments)
}
