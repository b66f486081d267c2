//! The places where a virtual border may stand, their names, and which of them are kept.

ghost use Rattle.std.specs.Prelude.{◌≡◌, ◌<◌, ◌+◌, ◌++◌, ◌↔◌, ◌∷◌, [], if◌then◌else◌, IsTrue, true, All, IfOk, OnOk, Some, length, map};
ghost use Rattle.rail_net.specs.declared.parts.NodeKind.TheVariants.{Joint};
ghost use Rattle.discretise.specs.Rounding.{HasSteps};
ghost use Rattle.discretise.specs.Tracks.{AreGridTracks, AreInRange, AreSmall, IsSmall};
ghost use Rattle.discretise.specs.Joins.{AreEndsByNode};
ghost use Rattle.discretise.specs.Cells.{node};
ghost use Rattle.discretise.specs.Places.{AreFreeJoints, AreFreeEnds, AreEndsOfOneSection, AreOfSection, AreOpenEnds, nodes_of_candidates as candidates_of_tracks, cuts_in, joint_label, labels_of_cuts, place_labels as labels_of_places};
ghost use Rattle.discretise.specs.declared.ends.TrackEnd.{TrackEnd};

use crate::ends::TrackEnd;
use crate::tracks::GridTrack;
use cell_net::{NodeId, PlaceLabel};
use rail_net::{Net, NodeKind};
use std::alloc::{AllocError, Global};
use timetable::Timetable;
use vss_lists::{Items, Text};

/// The joints where a border may stand. Linear in nodes and tracks.
pub(crate) fn free_joints(
    alloc: Global,
    net: &Net,
    timetable: &Timetable,
    tracks: &[GridTrack],
    ends: &[Items<TrackEnd>],
) -> Result<Vec<u32>, AllocError>
    requires tracks { AreGridTracks net.now timetable.now tracks.now }
    requires range { AreInRange (length net.now.nodes) tracks.now }
    requires ends { AreEndsByNode (length net.now.nodes) tracks.now ends.now }
    ensures { IfOk result (λ joints. AreFreeJoints net.now joints.items) }
{
    let nodes = net.parts().nodes.as_slice();
    let mut joints = Vec::new(alloc);
    for number in 0..nodes.len() {
        let is_free = is_free_joint(&nodes[number].kind, tracks, ends[number].as_slice());
        add_if(&mut joints, number as u32, is_free)?;
    }
    Ok(joints)
}

/// Adds the number where it is wanted.
fn add_if(numbers: &mut Vec<u32>, number: u32, is_wanted: bool) -> Result<(), AllocError>
    ensures { OnOk result (numbers.new.items ≡ (if is_wanted then numbers.old.items ++ number ∷ [] else numbers.old.items)) }
{
    if is_wanted {
        numbers.push(number)?;
    }
    Ok(())
}

/// Whether a node of that kind, with these ends of tracks, is a joint where a border may stand.
fn is_free_joint(kind: &NodeKind, tracks: &[GridTrack], ends: &[TrackEnd]) -> bool
    requires { All (λ e. e.track < length tracks.now) ends.now }
    ensures { IsTrue result ↔ AreFreeEnds tracks.now kind.now ends.now }
{
    match kind {
        NodeKind::Joint => are_open(tracks, ends) && are_of_one_section(tracks, ends),
        NodeKind::EndNode | NodeKind::Point { .. } | NodeKind::Crossing { .. } => false,
    }
}

/// Whether virtual borders may stand on the tracks of all these ends.
fn are_open(tracks: &[GridTrack], ends: &[TrackEnd]) -> bool
    requires { All (λ e. e.track < length tracks.now) ends.now }
    ensures { IsTrue result ↔ AreOpenEnds tracks.now ends.now }
{
    for at in 0..ends.len() {
        if !tracks[ends[at].track as usize].is_virtual {
            return false;
        }
    }
    true
}

/// Whether the tracks of all these ends are of the section of the first of them.
fn are_of_one_section(tracks: &[GridTrack], ends: &[TrackEnd]) -> bool
    requires { All (λ e. e.track < length tracks.now) ends.now }
    ensures { IsTrue result ↔ AreEndsOfOneSection tracks.now ends.now }
{
    let Some(first) = ends.first() else {
        return true;
    };
    are_of_section(tracks, ends, tracks[first.track as usize].section)
}

fn are_of_section(tracks: &[GridTrack], ends: &[TrackEnd], section: u32) -> bool
    requires { All (λ e. e.track < length tracks.now) ends.now }
    ensures { IsTrue result ↔ AreOfSection tracks.now section ends.now }
{
    for at in 0..ends.len() {
        if tracks[ends[at].track as usize].section != section {
            return false;
        }
    }
    true
}

/// The candidates: these joints, and then the cuts of tracks where virtual borders may stand. Linear in
/// them and the tracks.
pub(crate) fn candidates_on(
    alloc: Global,
    joints: &[u32],
    tracks: &[GridTrack],
) -> Result<Vec<NodeId>, AllocError>
    requires { AreSmall tracks.now }
    ensures { IfOk result (λ nodes. nodes.items ≡ candidates_of_tracks joints.now tracks.now) }
{
    let mut nodes = Vec::new(alloc);
    add_joints(&mut nodes, joints)?;
    for at in 0..tracks.len() {
        if tracks[at].is_virtual {
            add_cuts(&mut nodes, &tracks[at])?;
        }
    }
    Ok(nodes)
}

fn add_joints(nodes: &mut Vec<NodeId>, joints: &[u32]) -> Result<(), AllocError>
    ensures { OnOk result (nodes.new.items ≡ nodes.old.items ++ map node joints.now) }
{
    for at in 0..joints.len() {
        nodes.push(NodeId(joints[at]))?;
    }
    Ok(())
}

fn add_cuts(nodes: &mut Vec<NodeId>, track: &GridTrack) -> Result<(), AllocError>
    requires { IsSmall track.now }
    ensures { OnOk result (nodes.new.items ≡ nodes.old.items ++ cuts_in track.now) }
{
    for cut in 0..track.count.saturating_sub(1) {
        nodes.push(NodeId(track.cut + cut))?;
    }
    Ok(())
}

/// The names of the candidates. Linear in them and the tracks.
pub(crate) fn place_labels(
    alloc: Global,
    net: &Net,
    timetable: &Timetable,
    joints: &[u32],
    tracks: &[GridTrack],
) -> Result<Vec<PlaceLabel>, AllocError>
    requires steps { HasSteps timetable.now }
    requires joints { All (λ n. n < length net.now.nodes) joints.now }
    requires small { AreSmall tracks.now }
    ensures { IfOk result (λ labels. labels.items ≡ labels_of_places net.now timetable.now joints.now tracks.now) }
{
    let mut labels = joint_labels(alloc, net, joints)?;
    for at in 0..tracks.len() {
        if tracks[at].is_virtual {
            add_cut_labels(&mut labels, timetable, &tracks[at])?;
        }
    }
    Ok(labels)
}

fn joint_labels(alloc: Global, net: &Net, joints: &[u32]) -> Result<Vec<PlaceLabel>, AllocError>
    requires { All (λ n. n < length net.now.nodes) joints.now }
    ensures { IfOk result (λ labels. labels.items ≡ map (joint_label net.now) joints.now) }
{
    let nodes = net.parts().nodes.as_slice();
    let mut labels = Vec::new(alloc);
    for at in 0..joints.len() {
        let name = String::from_str(alloc, nodes[joints[at] as usize].name.as_str())?;
        labels.push(PlaceLabel::Joint {
            name: Text::from_string(name),
        })?;
    }
    Ok(labels)
}

fn add_cut_labels(
    labels: &mut Vec<PlaceLabel>,
    timetable: &Timetable,
    track: &GridTrack,
) -> Result<(), AllocError>
    requires steps { HasSteps timetable.now }
    requires range { IsSmall track.now }
    ensures { OnOk result (labels.new.items ≡ labels.old.items ++ labels_of_cuts timetable.now track.now) }
{
    for cut in 0..track.count.saturating_sub(1) {
        labels.push(PlaceLabel::Cut {
            track: track.number,
            at_m: (u64::from(cut) + 1) * timetable.space_step_m,
        })?;
    }
    Ok(())
}
