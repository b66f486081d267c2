//! The rules on what items refer to.

ghost use Rattle.std.specs.Prelude.{◌↔◌, IsTrue, Contains, MatchOption};
ghost use Rattle.vss_lists.specs.Breaks.{BreaksFirstAt, HoldsOfEach};
ghost use Rattle.rail_net.specs.Borders.{IsKnownBorder};
ghost use Rattle.rail_net.specs.Parts.{HasFewItems};
ghost use Rattle.rail_net.specs.Rules.{AreKnown, KnowsNamed, KnowsPair, KnowsTracks, ListsTracks};
ghost use Rattle.rail_net.specs.Tables.{AreNamesOf};

use crate::names::NameIndex;
use crate::parts::{BorderPart, GroupPart, NetParts, NodeKind, NodePart};
use crate::tables::NetNames;
use std::marker::Model;
use vss_lists::{Rule, Text, first_break};

/// The first node that names a track which isn't there.
pub(crate) fn first_unknown_node(parts: &NetParts, names: &NetNames) -> Option<u32>
    requires few { HasFewItems parts.now }
    requires names { AreNamesOf parts.now names.now }
    ensures { MatchOption result (HoldsOfEach (KnowsTracks parts.now) parts.now.nodes) (BreaksFirstAt (KnowsTracks parts.now) parts.now.nodes) }
{
    first_break(&References { parts, names }, parts.nodes.as_slice())
}

/// The first border whose track or node isn't there.
pub(crate) fn first_unknown_border(parts: &NetParts, names: &NetNames) -> Option<u32>
    requires few { HasFewItems parts.now }
    requires names { AreNamesOf parts.now names.now }
    ensures { MatchOption result (HoldsOfEach (IsKnownBorder parts.now) parts.now.borders) (BreaksFirstAt (IsKnownBorder parts.now) parts.now.borders) }
{
    first_break(&References { parts, names }, parts.borders.as_slice())
}

/// The first station with a track that isn't there.
pub(crate) fn first_unknown_station(parts: &NetParts, names: &NetNames) -> Option<u32>
    requires few { HasFewItems parts.now }
    requires names { AreNamesOf parts.now names.now }
    ensures { MatchOption result (HoldsOfEach (ListsTracks parts.now) parts.now.stations) (BreaksFirstAt (ListsTracks parts.now) parts.now.stations) }
{
    first_break(&References { parts, names }, parts.stations.as_slice())
}

/// The rules on references, with the names that are there. Contracts see them as the parts.
#[derive(Drop)]
struct References<'a> {
    parts: &'a NetParts,
    names: &'a NetNames,
}

impl<'a> Model for References<'a> {
    ghost use Rattle.rail_net.specs.Tables.{AreNamesOf};
    ghost use Rattle.rail_net.specs.declared.parts.NetParts.{NetParts};

    ghost Value = { NetParts };

    ghost view = { λ r. r.parts.now };

    ghost invariant = { λ r. AreNamesOf r.parts.now r.names.now };
}

impl<'a> Rule<NodePart> for References<'a> {
    ghost holds = { λ p place node. KnowsTracks p place node };

    fn holds(&self, _place: u32, node: &NodePart) -> bool {
        knows_tracks(&self.names.tracks, &node.kind)
    }
}

impl<'a> Rule<BorderPart> for References<'a> {
    ghost holds = { λ p place border. IsKnownBorder p place border };

    fn holds(&self, _place: u32, border: &BorderPart) -> bool {
        match border {
            BorderPart::Cut { track, .. } => is_known(&self.names.tracks, track.as_str()),
            BorderPart::Joint { name } => is_known(&self.names.nodes, name.as_str()),
        }
    }
}

impl<'a> Rule<GroupPart> for References<'a> {
    ghost holds = { λ p place group. ListsTracks p place group };

    fn holds(&self, _place: u32, group: &GroupPart) -> bool {
        are_known(&self.names.tracks, group.tracks.as_slice())
    }
}

/// Whether the tracks that the node names are there.
fn knows_tracks(tracks: &NameIndex, kind: &NodeKind) -> bool
    ensures { IsTrue result ↔ KnowsNamed tracks.now kind.now }
{
    match kind {
        NodeKind::EndNode | NodeKind::Joint => true,
        NodeKind::Point { tip } => is_known(tracks, tip.as_str()),
        NodeKind::Crossing { first, second } => {
            knows_pair(tracks, first) && knows_pair(tracks, second)
        }
    }
}

fn knows_pair(names: &NameIndex, pair: &(Text, Text)) -> bool
    ensures { IsTrue result ↔ KnowsPair names.now pair.now }
{
    is_known(names, pair.0.as_str()) && is_known(names, pair.1.as_str())
}

fn is_known(names: &NameIndex, name: &str) -> bool
    ensures { IsTrue result ↔ Contains names.now name.now }
{
    match names.number_of(name) {
        Some(_number) => true,
        None => false,
    }
}

fn are_known(names: &NameIndex, texts: &[Text]) -> bool
    ensures { IsTrue result ↔ AreKnown names.now texts.now }
{
    for at in 0..texts.len() {
        if !is_known(names, texts[at].as_str()) {
            return false;
        }
    }
    true
}
