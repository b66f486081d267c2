//! The rules on nodes and the tracks that end there.

ghost use Rattle.std.specs.Prelude.{◌≡◌, ◌<◌, ◌↔◌, ◌⊎◌, IsTrue, MatchOption, Some, slice_get};
ghost use Rattle.vss_lists.specs.Breaks.{BreaksFirstAt, HoldsOfEach};
ghost use Rattle.rail_net.specs.Parts.{HasFewItems};
ghost use Rattle.rail_net.specs.Refusals.{HasNewTracks};
ghost use Rattle.rail_net.specs.Rules.{FourDiffer, HasDegree, HasPairs, HasPairsHere, HasTip, HasTipHere, IsHere, degree as degree_of};
ghost use Rattle.rail_net.specs.Sections.{IsOneSection, IsWholeNode};
ghost use Rattle.rail_net.specs.Tables.{AreDegrees, AreNamesOf, AreSplits};

use super::at::{RuleAt, first_break_at};
use crate::parts::{NetParts, NodeKind, NodePart, TrackPart};
use crate::tables::NetNames;
use std::marker::Model;
use vss_lists::{Rule, Text, first_break};

/// The first node with more or fewer track ends than its kind has.
pub(crate) fn first_bad_degree(parts: &NetParts, begins: &[usize], ends: &[usize]) -> Option<u32>
    requires few { HasFewItems parts.now }
    requires degrees { AreDegrees parts.now begins.now ends.now }
    ensures { MatchOption result (HoldsOfEach (HasDegree parts.now) parts.now.nodes) (BreaksFirstAt (HasDegree parts.now) parts.now.nodes) }
{
    let rule = DegreeRule {
        parts,
        begins,
        ends,
    };
    first_break_at(&rule, parts.nodes.as_slice())
}

/// How many tracks begin and end at each node. Contracts see them as the parts.
#[derive(Drop)]
struct DegreeRule<'a> {
    parts: &'a NetParts,
    begins: &'a [usize],
    ends: &'a [usize],
}

impl<'a> Model for DegreeRule<'a> {
    ghost use Rattle.rail_net.specs.Tables.{AreDegrees};
    ghost use Rattle.rail_net.specs.declared.parts.NetParts.{NetParts};

    ghost Value = { NetParts };

    ghost view = { λ r. r.parts.now };

    ghost invariant = { λ r. AreDegrees r.parts.now r.begins.now r.ends.now };
}

impl<'a> RuleAt<NodePart> for DegreeRule<'a> {
    ghost items = { λ p. p.nodes };

    ghost holds = { λ p place node. HasDegree p place node };

    fn holds_at(&self, place: u32, node: &NodePart) -> bool {
        has_degree(self.parts, self.begins, self.ends, place, node)
    }
}

fn has_degree(
    parts: &NetParts,
    begins: &[usize],
    ends: &[usize],
    place: u32,
    node: &NodePart,
) -> bool
    requires degrees { AreDegrees parts.now begins.now ends.now }
    requires its { slice_get parts.now.nodes place ≡ Some node.now }
    ensures { IsTrue result ↔ HasDegree parts.now place node.now }
{
    let at = place as usize;
    begins[at].saturating_add(ends[at]) == degree(&node.kind)
}

/// How many track ends a node of that kind has.
fn degree(kind: &NodeKind) -> usize
    ensures degree { result ≡ degree_of kind.now }
    ensures few { result < 5 }
{
    match kind {
        NodeKind::EndNode => 1,
        NodeKind::Joint => 2,
        NodeKind::Point { .. } => 3,
        NodeKind::Crossing { .. } => 4,
    }
}

/// The first point whose tip has no end there.
pub(crate) fn first_bad_tip(parts: &NetParts, names: &NetNames) -> Option<u32>
    requires few { HasFewItems parts.now }
    requires names { AreNamesOf parts.now names.now }
    requires new { HasNewTracks parts.now }
    ensures { MatchOption result (HoldsOfEach (HasTipHere parts.now) parts.now.nodes) (BreaksFirstAt (HasTipHere parts.now) parts.now.nodes) }
{
    first_break(&TipRule { parts, names }, parts.nodes.as_slice())
}

/// The rule of tips, with the names that are there. Contracts see it as the parts.
#[derive(Drop)]
struct TipRule<'a> {
    parts: &'a NetParts,
    names: &'a NetNames,
}

impl<'a> Model for TipRule<'a> {
    ghost use Rattle.rail_net.specs.Refusals.{HasNewTracks};
    ghost use Rattle.rail_net.specs.Tables.{AreNamesOf};
    ghost use Rattle.rail_net.specs.declared.parts.NetParts.{NetParts};

    ghost Value = { NetParts };

    ghost view = { λ r. r.parts.now };

    ghost invariant = { λ r. AreNamesOf r.parts.now r.names.now × HasNewTracks r.parts.now };
}

impl<'a> Rule<NodePart> for TipRule<'a> {
    ghost holds = { λ p place node. HasTipHere p place node };

    fn holds(&self, _place: u32, node: &NodePart) -> bool {
        has_tip(self.parts, self.names, node)
    }
}

fn has_tip(parts: &NetParts, names: &NetNames, node: &NodePart) -> bool
    requires names { AreNamesOf parts.now names.now }
    requires new { HasNewTracks parts.now }
    ensures { IsTrue result ↔ HasTip parts.now node.now.name node.now.kind }
{
    match &node.kind {
        NodeKind::Point { tip } => is_here(parts, names, node.name.as_str(), tip.as_str()),
        NodeKind::EndNode | NodeKind::Joint | NodeKind::Crossing { .. } => true,
    }
}

/// Whether the track of that name has an end at the node of that name.
fn is_here(parts: &NetParts, names: &NetNames, node: &str, track: &str) -> bool
    requires names { AreNamesOf parts.now names.now }
    requires new { HasNewTracks parts.now }
    ensures { IsTrue result ↔ IsHere parts.now node.now track.now }
{
    match names.tracks.number_of(track) {
        Some(number) => {
            let tracks = parts.tracks.as_slice();
            let at = number as usize;
            has_end(&tracks[at], node)
        }
        None => false,
    }
}

/// Whether the track begins or ends at the node of that name.
pub(crate) fn has_end(track: &TrackPart, node: &str) -> bool
    ensures { IsTrue result ↔ ((track.now.from ≡ node.now) ⊎ (track.now.to ≡ node.now)) }
{
    track.from.as_str() == node || track.to.as_str() == node
}

/// The first crossing whose pairs aren't four different tracks with an end there.
pub(crate) fn first_bad_pairs(parts: &NetParts, names: &NetNames) -> Option<u32>
    requires few { HasFewItems parts.now }
    requires names { AreNamesOf parts.now names.now }
    requires new { HasNewTracks parts.now }
    ensures { MatchOption result (HoldsOfEach (HasPairsHere parts.now) parts.now.nodes) (BreaksFirstAt (HasPairsHere parts.now) parts.now.nodes) }
{
    let tips = TipRule { parts, names };
    first_break(&PairsRule { tips }, parts.nodes.as_slice())
}

/// The rule of pairs, with what the rule of tips has. Contracts see it as the parts.
#[derive(Drop)]
struct PairsRule<'a> {
    tips: TipRule<'a>,
}

impl<'a> Model for PairsRule<'a> {
    ghost use Rattle.rail_net.specs.declared.parts.NetParts.{NetParts};

    ghost Value = { NetParts };

    ghost view = { λ r. r.tips };
}

impl<'a> Rule<NodePart> for PairsRule<'a> {
    ghost holds = { λ p place node. HasPairsHere p place node };

    fn holds(&self, _place: u32, node: &NodePart) -> bool {
        has_pairs(self.tips.parts, self.tips.names, node)
    }
}

fn has_pairs(parts: &NetParts, names: &NetNames, node: &NodePart) -> bool
    requires names { AreNamesOf parts.now names.now }
    requires new { HasNewTracks parts.now }
    ensures { IsTrue result ↔ HasPairs parts.now node.now.name node.now.kind }
{
    match &node.kind {
        NodeKind::Crossing { first, second } => {
            let here = node.name.as_str();
            four_differ(first, second)
                && is_here(parts, names, here, first.0.as_str())
                && is_here(parts, names, here, first.1.as_str())
                && is_here(parts, names, here, second.0.as_str())
                && is_here(parts, names, here, second.1.as_str())
        }
        NodeKind::EndNode | NodeKind::Joint | NodeKind::Point { .. } => true,
    }
}

fn four_differ(first: &(Text, Text), second: &(Text, Text)) -> bool
    ensures { IsTrue result ↔ FourDiffer first.now.0 first.now.1 second.now.0 second.now.1 }
{
    let (a, b) = (first.0.as_str(), first.1.as_str());
    let (c, d) = (second.0.as_str(), second.1.as_str());
    a != b && a != c && a != d && b != c && b != d && c != d
}

/// The first point or crossing whose tracks are of different sections.
pub(crate) fn first_split_node(parts: &NetParts, splits: &[bool]) -> Option<u32>
    requires few { HasFewItems parts.now }
    requires splits { AreSplits parts.now splits.now }
    ensures { MatchOption result (HoldsOfEach (IsWholeNode parts.now) parts.now.nodes) (BreaksFirstAt (IsWholeNode parts.now) parts.now.nodes) }
{
    first_break_at(&WholeRule { parts, splits }, parts.nodes.as_slice())
}

/// Which nodes have tracks of different sections. Contracts see them as the parts.
#[derive(Drop)]
struct WholeRule<'a> {
    parts: &'a NetParts,
    splits: &'a [bool],
}

impl<'a> Model for WholeRule<'a> {
    ghost use Rattle.rail_net.specs.Tables.{AreSplits};
    ghost use Rattle.rail_net.specs.declared.parts.NetParts.{NetParts};

    ghost Value = { NetParts };

    ghost view = { λ r. r.parts.now };

    ghost invariant = { λ r. AreSplits r.parts.now r.splits.now };
}

impl<'a> RuleAt<NodePart> for WholeRule<'a> {
    ghost items = { λ p. p.nodes };

    ghost holds = { λ p place node. IsWholeNode p place node };

    fn holds_at(&self, place: u32, node: &NodePart) -> bool {
        is_whole(self.parts, self.splits, place, node)
    }
}

fn is_whole(parts: &NetParts, splits: &[bool], place: u32, node: &NodePart) -> bool
    requires splits { AreSplits parts.now splits.now }
    requires its { slice_get parts.now.nodes place ≡ Some node.now }
    ensures { IsTrue result ↔ IsOneSection parts.now node.now.name node.now.kind }
{
    match &node.kind {
        NodeKind::EndNode | NodeKind::Joint => true,
        NodeKind::Point { .. } | NodeKind::Crossing { .. } => !splits[place as usize],
    }
}
