//! The nodes of each track, by their numbers.

ghost use Rattle.std.specs.Prelude.{◌≡◌, ◌<◌, ◌==◌, ℕ, All, IfOk, IfErr, MatchOption, length, slice_index, count_by};
ghost use Rattle.vss_lists.specs.Breaks.{HoldsOfEach};
ghost use Rattle.rail_net.specs.Breaks.{IsBreak};
ghost use Rattle.rail_net.specs.Parts.{HasFewItems};
ghost use Rattle.rail_net.specs.Rules.{HasNodes, KnowsNodes};
ghost use Rattle.rail_net.specs.Tables.{AreTrackEnds, AreNamesOf, AreNodes};

use crate::names::Break;
use crate::parts::{NetParts, TrackPart};
use crate::tables::NetNames;
use std::alloc::{AllocError, Global};

/// The nodes where a track begins and ends, by their numbers.
#[derive(Clone, Copy, Debug)]
pub(crate) struct TrackEnds {
    pub from: u32,
    pub to: u32,
}

/// The nodes of each track; or the first track of which one isn't there. Linear in the tracks.
pub(crate) fn ends_of(
    alloc: Global,
    parts: &NetParts,
    names: &NetNames,
) -> Result<Vec<TrackEnds>, Break>
    requires few { HasFewItems parts.now }
    requires names { AreNamesOf parts.now names.now }
    ensures ends { IfOk result (λ ends. AreTrackEnds parts.now ends.items) }
    ensures known { IfOk result (λ _. HoldsOfEach (KnowsNodes parts.now) parts.now.tracks) }
    ensures unknown { IfErr result (IsBreak (KnowsNodes parts.now) parts.now.tracks) }
{
    let tracks = parts.tracks.as_slice();
    let Ok(mut ends) = Vec::with_capacity(alloc, tracks.len()) else {
        return Err(Break::Memory);
    };
    for place in 0..tracks.len() {
        let Some(its) = ends_of_track(names, &tracks[place]) else {
            return Err(Break::At(place as u32));
        };
        match ends.push(its) {
            Ok(()) => {}
            Err(_) => return Err(Break::Memory),
        }
    }
    Ok(ends)
}

/// The nodes of a track, if both are there.
fn ends_of_track(names: &NetNames, track: &TrackPart) -> Option<TrackEnds>
    ensures { MatchOption result (¬ HasNodes names.now.nodes track.now) (λ its. AreNodes names.now.nodes track.now its) }
{
    let from = names.nodes.number_of(track.from.as_str())?;
    let to = names.nodes.number_of(track.to.as_str())?;
    Some(TrackEnds { from, to })
}

/// How many tracks begin at each of so many nodes. Linear in nodes and tracks.
pub(crate) fn begin_counts(
    alloc: Global,
    nodes: usize,
    ends: &[TrackEnds],
) -> Result<Vec<usize>, AllocError>
    requires { All (λ e. e.from < nodes) ends.now }
    ensures len { IfOk result (λ counts. length counts.items ≡ nodes) }
    ensures counts { IfOk result (λ counts. (node : ℕ) → node < nodes → slice_index counts.items node ≡ count_by (λ e. e.from == node) ends.now) }
{
    let mut counts = vec![in alloc; 0; nodes]?;
    add_begins(counts.as_mut_slice(), ends);
    Ok(counts)
}

fn add_begins(counts: &mut [usize], ends: &[TrackEnds])
    requires from { All (λ e. e.from < length counts.old) ends.now }
    requires none { (node : ℕ) → node < length counts.old → slice_index counts.old node ≡ 0 }
    ensures { (node : ℕ) → node < length counts.old → slice_index counts.new node ≡ count_by (λ e. e.from == node) ends.now }
{
    for at in 0..ends.len() {
        counts[ends[at].from as usize] += 1;
    }
}

/// How many tracks end at each of so many nodes. Linear in nodes and tracks.
pub(crate) fn end_counts(
    alloc: Global,
    nodes: usize,
    ends: &[TrackEnds],
) -> Result<Vec<usize>, AllocError>
    requires { All (λ e. e.to < nodes) ends.now }
    ensures len { IfOk result (λ counts. length counts.items ≡ nodes) }
    ensures counts { IfOk result (λ counts. (node : ℕ) → node < nodes → slice_index counts.items node ≡ count_by (λ e. e.to == node) ends.now) }
{
    let mut counts = vec![in alloc; 0; nodes]?;
    add_ends(counts.as_mut_slice(), ends);
    Ok(counts)
}

fn add_ends(counts: &mut [usize], ends: &[TrackEnds])
    requires to { All (λ e. e.to < length counts.old) ends.now }
    requires none { (node : ℕ) → node < length counts.old → slice_index counts.old node ≡ 0 }
    ensures { (node : ℕ) → node < length counts.old → slice_index counts.new node ≡ count_by (λ e. e.to == node) ends.now }
{
    for at in 0..ends.len() {
        counts[ends[at].to as usize] += 1;
    }
}
