//! The items of a document's lists.

ghost use Rattle.std.specs.Prelude.{◌≡◌, ⊤, IfOk};
ghost use Rattle.vss_json.specs.Values.{json_of};
ghost use Rattle.vss_json.specs.Readings.{Gives};
ghost use Rattle.net_reader.specs.Document.{ListsSome, at_item as fault_at, border_at, group_at, kind_of as kind_reading, node_part, section_at, station_at, track_at};

use crate::member::Member;
use rail_net::{BorderPart, GroupPart, NodeKind, NodePart, TrackPart};
use std::alloc::Global;
use vss_json::{
    Json, Reader, ShapeFault, WalkFault, has_member, number, object, optional_flag,
    optional_number, pairs, text, texts,
};

/// What the walk over a network document gives.
pub(crate) type Walk<T> = Result<T, WalkFault<Member>>;

/// A member that is missing or isn't what it has to be.
pub(crate) fn at(member: Member, item: u32) -> ShapeFault<Member>
    ensures { result ≡ fault_at member item }
{
    ShapeFault { member, item }
}

/// Reads nodes.
#[derive(Clone, Copy)]
pub(crate) struct Nodes;

impl Reader<NodePart, Member> for Nodes {
    ghost reading = { λ r. node_part };

    ghost keeps = { λ r node. ⊤ };

    fn read(&self, alloc: Global, value: &Json, item: u32) -> Walk<NodePart> {
        node(alloc, value, item)
    }
}

#[tactic(auto, unfolding(crate::specs::Document::node_part))]
fn node(alloc: Global, value: &Json, item: u32) -> Walk<NodePart>
    ensures { Gives (node_part item (json_of value.now)) result }
{
    object(value, at(Member::Nodes, item))?;
    let name = text(alloc, value, "name", at(Member::NodesName, item))?;
    let word = text(alloc, value, "kind", at(Member::NodesKind, item))?;
    let kind = kind_of(alloc, value, item, word.as_str())?;
    Ok(NodePart { name, kind })
}

/// The kind of that word, with what it names.
#[tactic(auto, unfolding(crate::specs::Document::kind_of))]
fn kind_of(alloc: Global, value: &Json, item: u32, word: &str) -> Walk<NodeKind>
    ensures { Gives (kind_reading item word.now (json_of value.now)) result }
{
    if word == "end" {
        Ok(NodeKind::EndNode)
    } else if word == "joint" {
        Ok(NodeKind::Joint)
    } else if word == "point" {
        let tip = text(alloc, value, "tip", at(Member::NodesTip, item))?;
        Ok(NodeKind::Point { tip })
    } else if word == "crossing" {
        let (first, second) = pairs(alloc, value, "pairs", at(Member::NodesPairs, item))?;
        Ok(NodeKind::Crossing { first, second })
    } else {
        Err(WalkFault::Shape(at(Member::NodesKind, item)))
    }
}

/// Reads tracks.
#[derive(Clone, Copy)]
pub(crate) struct Tracks;

impl Reader<TrackPart, Member> for Tracks {
    ghost reading = { λ r. track_at };

    ghost keeps = { λ r track. ⊤ };

    fn read(&self, alloc: Global, value: &Json, item: u32) -> Walk<TrackPart> {
        track(alloc, value, item)
    }
}

#[tactic(auto, unfolding(crate::specs::Document::track_at))]
fn track(alloc: Global, value: &Json, item: u32) -> Walk<TrackPart>
    ensures { Gives (track_at item (json_of value.now)) result }
{
    object(value, at(Member::Tracks, item))?;
    let name = text(alloc, value, "name", at(Member::TracksName, item))?;
    let from = text(alloc, value, "from", at(Member::TracksFrom, item))?;
    let to = text(alloc, value, "to", at(Member::TracksTo, item))?;
    let length_m = number(value, "length_m", at(Member::TracksLengthM, item))?;
    let limit_kmh = optional_number(value, "limit_kmh", at(Member::TracksLimitKmh, item))?;
    let flag = optional_flag(value, "virtual", at(Member::TracksVirtual, item))?;
    Ok(TrackPart {
        name,
        from,
        to,
        length_m,
        limit_kmh,
        virtual_ok: flag.unwrap_or(true),
    })
}

/// Reads sections.
#[derive(Clone, Copy)]
pub(crate) struct Sections;

impl Reader<GroupPart, Member> for Sections {
    ghost reading = { λ r. section_at };

    ghost keeps = { λ r group. ListsSome group };

    fn read(&self, alloc: Global, value: &Json, item: u32) -> Walk<GroupPart> {
        let members = GroupMembers {
            group: Member::Sections,
            name: Member::SectionsName,
            tracks: Member::SectionsTracks,
        };
        group(alloc, value, item, members)
    }
}

/// Reads stations.
#[derive(Clone, Copy)]
pub(crate) struct Stations;

impl Reader<GroupPart, Member> for Stations {
    ghost reading = { λ r. station_at };

    ghost keeps = { λ r group. ListsSome group };

    fn read(&self, alloc: Global, value: &Json, item: u32) -> Walk<GroupPart> {
        let members = GroupMembers {
            group: Member::Stations,
            name: Member::StationsName,
            tracks: Member::StationsTracks,
        };
        group(alloc, value, item, members)
    }
}

/// The members of a list of groups.
#[derive(Clone, Copy)]
struct GroupMembers {
    group: Member,
    name: Member,
    tracks: Member,
}

#[tactic(auto, unfolding(crate::specs::Document::group_at))]
fn group(alloc: Global, value: &Json, item: u32, members: GroupMembers) -> Walk<GroupPart>
    ensures read { Gives (group_at members.group members.name members.tracks item (json_of value.now)) result }
    ensures some { IfOk result ListsSome }
{
    object(value, at(members.group, item))?;
    let name = text(alloc, value, "name", at(members.name, item))?;
    let tracks = texts(alloc, value, "tracks", at(members.tracks, item))?;
    Ok(GroupPart { name, tracks })
}

/// Reads borders.
#[derive(Clone, Copy)]
pub(crate) struct Borders;

impl Reader<BorderPart, Member> for Borders {
    ghost reading = { λ r. border_at };

    ghost keeps = { λ r border. ⊤ };

    fn read(&self, alloc: Global, value: &Json, item: u32) -> Walk<BorderPart> {
        border(alloc, value, item)
    }
}

#[tactic(auto, unfolding(crate::specs::Document::border_at))]
fn border(alloc: Global, value: &Json, item: u32) -> Walk<BorderPart>
    ensures { Gives (border_at item (json_of value.now)) result }
{
    object(value, at(Member::Borders, item))?;
    if has_member(value, "joint") {
        let name = text(alloc, value, "joint", at(Member::BordersJoint, item))?;
        Ok(BorderPart::Joint { name })
    } else {
        let track = text(alloc, value, "track", at(Member::BordersTrack, item))?;
        let at_m = number(value, "at_m", at(Member::BordersAtM, item))?;
        Ok(BorderPart::Cut { track, at_m })
    }
}
