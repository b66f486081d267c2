//! The candidates where a border is kept.

ghost use Rattle.std.specs.Prelude.{◌≡◌, ◌<◌, ◌+◌, ◌-◌, ◌^◌, ◌++◌, ◌∷◌, [], if◌then◌else◌, false, true, All, IfOk, OnOk, Some, length};
ghost use Rattle.vss_lists.specs.Breaks.{HoldsOfEach};
ghost use Rattle.rail_net.specs.Borders.{IsBorderJoint, IsWithinTrack, StandsWell};
ghost use Rattle.rail_net.specs.Parts.{IsNode};
ghost use Rattle.timetable.specs.Timetables.{IsTimetable};
ghost use Rattle.discretise.specs.Tracks.{AreGridTracks, AreSmall, cut_total};
ghost use Rattle.discretise.specs.Places.{AreKeptPlaces, AreMarkedFor, IsCutAt, StandsAtNode};
ghost use Rattle.discretise.specs.Refusals.{AreWholeSteps, IsOnGrid};

use crate::tracks::GridTrack;
use cell_net::{CandidateId, NodeId};
use rail_net::{BorderPart, Net};
use std::alloc::{AllocError, Global};
use timetable::Timetable;

/// The candidates where borders of the network stand. Linear in nodes, borders and candidates but for hashed
/// look-ups of names.
pub(crate) fn kept_places(
    alloc: Global,
    net: &Net,
    timetable: &Timetable,
    tracks: &[GridTrack],
    candidates: &[NodeId],
    nodes: usize,
) -> Result<Vec<CandidateId>, AllocError>
    requires timetable { IsTimetable net.now timetable.now }
    requires tracks { AreGridTracks net.now timetable.now tracks.now }
    requires small { AreSmall tracks.now }
    requires nodes { nodes ≡ length net.now.nodes + cut_total tracks.now }
    requires few { length candidates.now < 2 ^ 32 }
    requires within { All (λ n. n.0 < nodes) candidates.now }
    requires on_grid { HoldsOfEach (IsOnGrid timetable.now) net.now.borders }
    ensures { IfOk result (λ kept. AreKeptPlaces net.now timetable.now tracks.now candidates.now kept.items) }
{
    let marks = marked_nodes(alloc, net, timetable, tracks, nodes)?;
    let mut kept = Vec::new(alloc);
    for number in 0..candidates.len() {
        let is_kept = marks[candidates[number].0 as usize];
        add_if(&mut kept, CandidateId(number as u32), is_kept)?;
    }
    Ok(kept)
}

/// Marks the nodes where borders of the network stand.
fn marked_nodes(
    alloc: Global,
    net: &Net,
    timetable: &Timetable,
    tracks: &[GridTrack],
    nodes: usize,
) -> Result<Vec<bool>, AllocError>
    requires timetable { IsTimetable net.now timetable.now }
    requires tracks { AreGridTracks net.now timetable.now tracks.now }
    requires small { AreSmall tracks.now }
    requires nodes { nodes ≡ length net.now.nodes + cut_total tracks.now }
    requires on_grid { HoldsOfEach (IsOnGrid timetable.now) net.now.borders }
    ensures { IfOk result (λ marks. AreMarkedFor net.now timetable.now tracks.now net.now.borders nodes marks.items) }
{
    let borders = net.parts().borders.as_slice();
    let mut marks = vec![in alloc; false; nodes]?;
    for at in 0..borders.len() {
        let node = node_of(net, timetable, tracks, &borders[at]);
        marks[node as usize] = true;
    }
    Ok(marks)
}

/// The number of the node where the border stands.
fn node_of(net: &Net, timetable: &Timetable, tracks: &[GridTrack], border: &BorderPart) -> u32
    requires timetable { IsTimetable net.now timetable.now }
    requires tracks { AreGridTracks net.now timetable.now tracks.now }
    requires small { AreSmall tracks.now }
    requires stands { StandsWell net.now border.now }
    requires on_grid { IsOnGrid timetable.now 0 border.now }
    ensures stands { StandsAtNode net.now timetable.now tracks.now border.now result }
    ensures within { result < length net.now.nodes + cut_total tracks.now }
{
    match border {
        BorderPart::Cut { track, at_m } => {
            node_of_cut(net, timetable, tracks, track.as_str(), *at_m)
        }
        BorderPart::Joint { name } => node_of_joint(net, name.as_str()),
    }
}

fn node_of_cut(
    net: &Net,
    timetable: &Timetable,
    tracks: &[GridTrack],
    track: &str,
    at_m: u64,
) -> u32
    requires timetable { IsTimetable net.now timetable.now }
    requires tracks { AreGridTracks net.now timetable.now tracks.now }
    requires small { AreSmall tracks.now }
    requires stands { IsWithinTrack net.now track.now at_m }
    requires on_grid { AreWholeSteps timetable.now at_m }
    ensures stands { IsCutAt net.now timetable.now tracks.now track.now at_m result }
    ensures within { result < length net.now.nodes + cut_total tracks.now }
{
    let _parts = net.parts();
    let Some(number) = net.track_named(track) else {
        unreachable!();
    };
    let steps = at_m / timetable.space_step_m;
    tracks[number as usize].cut + (steps - 1) as u32
}

fn node_of_joint(net: &Net, name: &str) -> u32
    requires { IsBorderJoint net.now name.now }
    ensures is { IsNode net.now name.now result }
    ensures within { result < length net.now.nodes }
{
    let Some(number) = net.node_named(name) else {
        unreachable!();
    };
    number
}

/// Adds the candidate where its border is kept.
fn add_if(
    kept: &mut Vec<CandidateId>,
    candidate: CandidateId,
    is_kept: bool,
) -> Result<(), AllocError>
    ensures { OnOk result (kept.new.items ≡ (if is_kept then kept.old.items ++ candidate ∷ [] else kept.old.items)) }
{
    if is_kept {
        kept.push(candidate)?;
    }
    Ok(())
}
