//! Networks: parts that keep every rule.

ghost use Rattle.std.specs.Prelude.{◌≡◌, ◌<◌, ◌↔◌, ℕ, length, IsTrue, IfErr, IfOk, MatchOption};
ghost use Rattle.rail_net.specs.Parts.{AreNamed, HasFewItems, IsNode, IsTrackOfSection, IsStation, IsTrack};
ghost use Rattle.rail_net.specs.Passages.{ArePair, HasPassage, IsAtNode, LeadsOver};
ghost use Rattle.rail_net.specs.Refusals.{IsNet, Refuses, net_rules};

use crate::build::test_rules;
use crate::parts::{NetParts, NodeKind};
use crate::refusal::NetRefusal;
use crate::rules::has_end;
use crate::tables::NetIndex;
use std::alloc::Global;
use std::marker::Model;
use vss_lists::Text;

/// Parts that keep every rule, with an index of their names and sections. Contracts see a network as
/// its parts.
#[derive(Drop)]
pub struct Net {
    parts: NetParts,
    index: NetIndex,
}

impl Model for Net {
    ghost use Rattle.rail_net.specs.Refusals.{IsNet};
    ghost use Rattle.rail_net.specs.Tables.{IsIndexOf};
    ghost use Rattle.rail_net.specs.declared.parts.NetParts.{NetParts};

    ghost Value = { NetParts };

    ghost view = { λ n. n.parts };

    ghost invariant = { λ n. IsNet n.parts × IsIndexOf n.parts n.index };
}

impl Net {
    /// Keeps the parts, if they keep every rule. Linear in their sizes but for hashed look-ups of
    /// names and the sorting of the tracks' ends. Want of memory may come at any parts; as after every
    /// refusal, they are dropped then.
    pub fn new(alloc: Global, parts: NetParts) -> Result<Net, NetRefusal>
        requires few { HasFewItems parts }
        requires named { AreNamed parts }
        ensures parts { IfOk result (λ net. net ≡ parts) }
        ensures rules { IfOk result IsNet }
        ensures refusal { IfErr result (Refuses (net_rules parts)) }
    {
        match test_rules(alloc, &parts) {
            Ok(index) => Ok(Net { parts, index }),
            Err(refusal) => Err(refusal),
        }
    }

    /// The parts. Takes no memory, as every call below.
    pub fn parts(&self) -> &NetParts
        ensures parts { result.now ≡ self.now }
        ensures rules { IsNet self.now }
    {
        &self.parts
    }

    /// The number of the node of that name; in the time of hashing it.
    pub fn node_named(&self, name: &str) -> Option<u32>
        ensures { MatchOption result ((node : ℕ) → ¬ IsNode self.now name.now node) (λ node. IsNode self.now name.now node) }
    {
        self.index.names.nodes.number_of(name)
    }

    /// The number of the track of that name; in the time of hashing it.
    pub fn track_named(&self, name: &str) -> Option<u32>
        ensures { MatchOption result ((track : ℕ) → ¬ IsTrack self.now name.now track) (λ track. IsTrack self.now name.now track) }
    {
        self.index.names.tracks.number_of(name)
    }

    /// The number of the station of that name; in the time of hashing it.
    pub fn station_named(&self, name: &str) -> Option<u32>
        ensures { MatchOption result ((station : ℕ) → ¬ IsStation self.now name.now station) (λ station. IsStation self.now name.now station) }
    {
        self.index.names.stations.number_of(name)
    }

    /// The number of the section that lists the track of that number.
    pub fn section_of(&self, track: u32) -> u32
        requires { track < length self.now.tracks }
        ensures section { IsTrackOfSection self.now result track }
        ensures only { (section : ℕ) → IsTrackOfSection self.now section track → section ≡ result }
    {
        let homes = self.index.homes.as_slice();
        homes[track as usize]
    }

    /// Whether the track has an end at the node, both by their numbers.
    pub fn is_at(&self, node: u32, track: u32) -> bool
        ensures { IsTrue result ↔ IsAtNode self.now node track }
    {
        is_at_node(&self.parts, node as usize, track as usize)
    }

    /// Whether a passage leads over the node between two tracks that end there, all by their
    /// numbers.
    pub fn passage(&self, node: u32, one: u32, other: u32) -> bool
        requires one { IsAtNode self.now node one }
        requires other { IsAtNode self.now node other }
        ensures { IsTrue result ↔ HasPassage self.now node one other }
    {
        is_passage(&self.parts, node as usize, one as usize, other as usize)
    }
}

fn is_at_node(parts: &NetParts, node: usize, track: usize) -> bool
    ensures { IsTrue result ↔ IsAtNode parts.now node track }
{
    let nodes = parts.nodes.as_slice();
    let tracks = parts.tracks.as_slice();
    if node < nodes.len() && track < tracks.len() {
        let name = nodes[node].name.as_str();
        let part = &tracks[track];
        has_end(part, name)
    } else {
        false
    }
}

fn is_passage(parts: &NetParts, node: usize, one: usize, other: usize) -> bool
    requires node { node < length parts.now.nodes }
    requires one { one < length parts.now.tracks }
    requires other { other < length parts.now.tracks }
    ensures { IsTrue result ↔ HasPassage parts.now node one other }
{
    let nodes = parts.nodes.as_slice();
    let tracks = parts.tracks.as_slice();
    let first = tracks[one].name.as_str();
    let second = tracks[other].name.as_str();
    leads_over(&nodes[node].kind, first, second)
}

/// Whether a passage leads over a node of that kind between two tracks of these names.
fn leads_over(kind: &NodeKind, one: &str, other: &str) -> bool
    ensures { IsTrue result ↔ LeadsOver kind.now one.now other.now }
{
    match kind {
        NodeKind::EndNode => false,
        NodeKind::Joint => one != other,
        NodeKind::Point { tip } => {
            one != other && (one == tip.as_str() || other == tip.as_str())
        }
        NodeKind::Crossing { first, second } => {
            are_pair(first, one, other) || are_pair(second, one, other)
        }
    }
}

/// Whether the names are those of the pair, in either order.
fn are_pair(pair: &(Text, Text), one: &str, other: &str) -> bool
    ensures { IsTrue result ↔ ArePair pair.now one.now other.now }
{
    let first = pair.0.as_str();
    let second = pair.1.as_str();
    (one == first && other == second) || (one == second && other == first)
}
