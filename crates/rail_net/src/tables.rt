//! The names of a network with their numbers, and how a broken rule is told.

ghost use Rattle.std.specs.Prelude.{◌≡◌, ◌<◌, ◌^◌, length, IfOk, IfErr};
ghost use Rattle.vss_lists.specs.Breaks.{HoldsOfEach};
ghost use Rattle.vss_lists.specs.Orders.{AreKept};
ghost use Rattle.rail_net.specs.Breaks.{IsBreak, refusal_of};
ghost use Rattle.rail_net.specs.Parts.{HasFewItems, node_names, section_names, station_names, track_names};
ghost use Rattle.rail_net.specs.Rules.{HasNewName};
ghost use Rattle.rail_net.specs.Tables.{AreNamesOf};
ghost use Rattle.rail_net.specs.Refusals.{name_rules, Refuses, broken_by_item};

use crate::names::{Break, NameIndex, Named, index_of};
use crate::parts::{GroupPart, NetParts, NodePart, TrackPart};
use crate::refusal::{ListKind, NetFault, NetRefusal, Spot};
use std::alloc::Global;

/// The names of nodes, tracks and stations.
#[derive(Drop)]
pub(crate) struct NetNames {
    pub nodes: NameIndex,
    pub tracks: NameIndex,
    pub stations: NameIndex,
}

/// What is kept of a network beside its parts.
#[derive(Drop)]
pub(crate) struct NetIndex {
    pub names: NetNames,
    /// The section of each track.
    pub homes: Vec<u32>,
}

/// The names of the parts, unless one is repeated in its list. Linear in the names.
pub(crate) fn names_of(alloc: Global, parts: &NetParts) -> Result<NetNames, NetRefusal>
    requires { HasFewItems parts.now }
    ensures names { IfOk result (AreNamesOf parts.now) }
    ensures kept { IfOk result (λ _. AreKept (name_rules parts.now)) }
    ensures refusal { IfErr result (Refuses (name_rules parts.now)) }
{
    let nodes = match names_of_nodes(alloc, parts) {
        Ok(names) => names,
        Err(found) => return Err(refused(found, NetFault::DuplicateName, ListKind::Nodes)),
    };
    let tracks = match names_of_tracks(alloc, parts) {
        Ok(names) => names,
        Err(found) => return Err(refused(found, NetFault::DuplicateName, ListKind::Tracks)),
    };
    match names_of_sections(alloc, parts) {
        Ok(_) => {}
        Err(found) => return Err(refused(found, NetFault::DuplicateName, ListKind::Sections)),
    }
    let stations = match names_of_stations(alloc, parts) {
        Ok(names) => names,
        Err(found) => return Err(refused(found, NetFault::DuplicateName, ListKind::Stations)),
    };
    Ok(NetNames {
        nodes,
        tracks,
        stations,
    })
}

fn names_of_nodes(alloc: Global, parts: &NetParts) -> Result<NameIndex, Break>
    requires { length parts.now.nodes < 2 ^ 32 }
    ensures names { IfOk result (λ names. names ≡ node_names parts.now) }
    ensures new { IfOk result (λ _. HoldsOfEach (HasNewName (λ x. x.name) parts.now.nodes) parts.now.nodes) }
    ensures old { IfErr result (IsBreak (HasNewName (λ x. x.name) parts.now.nodes) parts.now.nodes) }
{
    index_of(alloc, parts.nodes.as_slice())
}

fn names_of_tracks(alloc: Global, parts: &NetParts) -> Result<NameIndex, Break>
    requires { length parts.now.tracks < 2 ^ 32 }
    ensures names { IfOk result (λ names. names ≡ track_names parts.now) }
    ensures new { IfOk result (λ _. HoldsOfEach (HasNewName (λ x. x.name) parts.now.tracks) parts.now.tracks) }
    ensures old { IfErr result (IsBreak (HasNewName (λ x. x.name) parts.now.tracks) parts.now.tracks) }
{
    index_of(alloc, parts.tracks.as_slice())
}

fn names_of_sections(alloc: Global, parts: &NetParts) -> Result<NameIndex, Break>
    requires { length parts.now.sections < 2 ^ 32 }
    ensures names { IfOk result (λ names. names ≡ section_names parts.now) }
    ensures new { IfOk result (λ _. HoldsOfEach (HasNewName (λ x. x.name) parts.now.sections) parts.now.sections) }
    ensures old { IfErr result (IsBreak (HasNewName (λ x. x.name) parts.now.sections) parts.now.sections) }
{
    index_of(alloc, parts.sections.as_slice())
}

fn names_of_stations(alloc: Global, parts: &NetParts) -> Result<NameIndex, Break>
    requires { length parts.now.stations < 2 ^ 32 }
    ensures names { IfOk result (λ names. names ≡ station_names parts.now) }
    ensures new { IfOk result (λ _. HoldsOfEach (HasNewName (λ x. x.name) parts.now.stations) parts.now.stations) }
    ensures old { IfErr result (IsBreak (HasNewName (λ x. x.name) parts.now.stations) parts.now.stations) }
{
    index_of(alloc, parts.stations.as_slice())
}

/// The refusal that tells where a list breaks a rule.
pub(crate) fn refused(found: Break, kind: NetFault, list: ListKind) -> NetRefusal
    ensures { result ≡ refusal_of kind list found }
{
    match found {
        Break::At(item) => named(kind, list, item),
        Break::Memory => NetRefusal::Memory,
    }
}

/// The refusal of an item.
pub(crate) fn named(kind: NetFault, list: ListKind, item: u32) -> NetRefusal
    ensures { result ≡ broken_by_item kind list item }
{
    NetRefusal::Named {
        kind,
        spot: Spot { list, item },
    }
}

impl Named for NodePart {
    ghost name_of = { λ n. n.name };

    fn name(&self) -> &str {
        self.name.as_str()
    }
}

impl Named for TrackPart {
    ghost name_of = { λ t. t.name };

    fn name(&self) -> &str {
        self.name.as_str()
    }
}

impl Named for GroupPart {
    ghost name_of = { λ g. g.name };

    fn name(&self) -> &str {
        self.name.as_str()
    }
}
