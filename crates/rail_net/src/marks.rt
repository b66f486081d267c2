//! What is counted and marked of nodes, tracks and sections before the rules are tested.

ghost use Rattle.std.specs.Prelude.{◌≡◌, ◌++◌, map, length, IfOk};
ghost use Rattle.std.specs.List.{range_with_len};
ghost use Rattle.vss_lists.specs.Breaks.{HoldsOfEach};
ghost use Rattle.rail_net.specs.Parts.{HasFewItems};
ghost use Rattle.rail_net.specs.Refusals.{HasNewNodes, HasNewTracks};
ghost use Rattle.rail_net.specs.Rules.{IsListedOnce};
ghost use Rattle.rail_net.specs.Tables.{AreMarkedApart, AreBars, AreDegrees, AreTrackEnds, AreHomes, AreListingCounts, AreListings, AreSplits, flags_of, spread as spread_entries, zero_under};

use crate::ends::{TrackEnds, begin_counts, end_counts};
use crate::entries::{Entry, counts, mixed};
use crate::joining::{flags, groups, paired, spread};
use crate::parts::NetParts;
use std::alloc::{AllocError, Global};

/// How many tracks begin and end at each node.
#[derive(Drop)]
pub(crate) struct Degrees {
    pub begins: Vec<usize>,
    pub ends: Vec<usize>,
}

/// Counts the ends at each node. Linear in nodes and tracks.
pub(crate) fn degrees_of(
    alloc: Global,
    parts: &NetParts,
    ends: &[TrackEnds],
) -> Result<Degrees, AllocError>
    requires new { HasNewNodes parts.now }
    requires ends { AreTrackEnds parts.now ends.now }
    ensures { IfOk result (λ d. AreDegrees parts.now d.begins.items d.ends.items) }
{
    let nodes = parts.nodes.len();
    let begins = begin_counts(alloc, nodes, ends)?;
    let ends = end_counts(alloc, nodes, ends)?;
    Ok(Degrees { begins, ends })
}

/// How often sections list each track. Linear in tracks and listings.
pub(crate) fn listing_counts(
    alloc: Global,
    parts: &NetParts,
    listings: &[Entry],
) -> Result<Vec<usize>, AllocError>
    requires new { HasNewTracks parts.now }
    requires listings { AreListings parts.now listings.now }
    ensures { IfOk result (λ counts. AreListingCounts parts.now counts.items) }
{
    let counts = counts(alloc, parts.tracks.len(), listings)?;
    Ok(counts)
}

/// Marks the nodes whose tracks are of different sections. Linear in nodes and tracks.
pub(crate) fn splits_of(
    alloc: Global,
    parts: &NetParts,
    ends: &[TrackEnds],
    homes: &[u32],
) -> Result<Vec<bool>, AllocError>
    requires new { HasNewNodes parts.now }
    requires ends { AreTrackEnds parts.now ends.now }
    requires homes { AreHomes parts.now homes.now }
    requires once { HoldsOfEach (IsListedOnce parts.now) parts.now.tracks }
    ensures { IfOk result (λ marks. AreSplits parts.now marks.items) }
{
    let entries = spread(alloc, ends, homes)?;
    let marks = mixed(alloc, parts.nodes.len(), &entries)?;
    Ok(marks)
}

/// Marks the nodes where a track ends on which no virtual border may stand. Linear in nodes and
/// tracks.
pub(crate) fn bars_of(
    alloc: Global,
    parts: &NetParts,
    ends: &[TrackEnds],
) -> Result<Vec<bool>, AllocError>
    requires few { HasFewItems parts.now }
    requires new { HasNewNodes parts.now }
    requires ends { AreTrackEnds parts.now ends.now }
    ensures { IfOk result (λ marks. AreBars parts.now marks.items) }
{
    let entries = bar_entries(alloc, parts, ends)?;
    let marks = mixed(alloc, parts.nodes.len(), &entries)?;
    Ok(marks)
}

/// Under each node 0, and 1 for each end of a track on which no virtual border may stand.
fn bar_entries(
    alloc: Global,
    parts: &NetParts,
    ends: &[TrackEnds],
) -> Result<Vec<Entry>, AllocError>
    requires few { HasFewItems parts.now }
    requires ends { AreTrackEnds parts.now ends.now }
    ensures { IfOk result (λ entries. entries.items ≡ map zero_under (range_with_len 0 (length parts.now.nodes)) ++ spread_entries ends.now (flags_of parts.now.tracks)) }
{
    let flags = flags(alloc, parts.tracks.as_slice())?;
    let bars = spread(alloc, ends, &flags)?;
    let mut entries = zeros(alloc, parts.nodes.len() as u32)?;
    entries.extend_from_slice(&bars)?;
    Ok(entries)
}

/// The value 0 under each key.
fn zeros(alloc: Global, keys: u32) -> Result<Vec<Entry>, AllocError>
    ensures { IfOk result (λ entries. entries.items ≡ map zero_under (range_with_len 0 keys)) }
{
    let mut entries = Vec::with_capacity(alloc, keys as usize)?;
    for key in 0..keys {
        entries.push(Entry { key, value: 0 })?;
    }
    Ok(entries)
}

/// Marks the sections whose tracks are not connected. In the time of sorting the tracks' ends.
pub(crate) fn apart_of(
    alloc: Global,
    parts: &NetParts,
    ends: &[TrackEnds],
    homes: &[u32],
) -> Result<Vec<bool>, AllocError>
    requires few { HasFewItems parts.now }
    requires new { HasNewNodes parts.now }
    requires ends { AreTrackEnds parts.now ends.now }
    requires homes { AreHomes parts.now homes.now }
    requires once { HoldsOfEach (IsListedOnce parts.now) parts.now.tracks }
    ensures { IfOk result (λ marks. AreMarkedApart parts.now marks.items) }
{
    let groups = groups(alloc, ends, homes)?;
    let entries = paired(alloc, homes, &groups)?;
    let marks = mixed(alloc, parts.sections.len(), &entries)?;
    Ok(marks)
}
