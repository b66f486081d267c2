//! The test that names are names.

ghost use Rattle.std.specs.Prelude.{◌≡◌, IfErr, MatchOption, OnOk};
ghost use Rattle.vss_lists.specs.Breaks.{BreaksFirstAt, HoldsOfEach};
ghost use Rattle.vss_lists.specs.Orders.{AreKept, IsFirstBroken};
ghost use Rattle.vss_names.specs.Names.{IsName};
ghost use Rattle.rail_net.specs.Parts.{HasFewItems};
ghost use Rattle.net_reader.specs.Readings.{in_list as list_item, naming_rules};

use rail_net::{GroupPart, ListKind, NetParts, NodePart, Spot, TrackPart};
use vss_lists::{Rule, first_break};
use vss_names::is_name;

/// Tests the names of nodes, tracks, sections and stations: the first that is none.
pub(crate) fn test_names(parts: &NetParts) -> Result<(), Spot>
    requires { HasFewItems parts.now }
    ensures kept { OnOk result (AreKept (naming_rules parts.now)) }
    ensures broken { IfErr result (IsFirstBroken (naming_rules parts.now)) }
{
    match first_bad_node(parts) {
        None => {}
        Some(item) => return Err(in_list(ListKind::Nodes, item)),
    }
    match first_bad_track(parts) {
        None => {}
        Some(item) => return Err(in_list(ListKind::Tracks, item)),
    }
    match first_bad_section(parts) {
        None => {}
        Some(item) => return Err(in_list(ListKind::Sections, item)),
    }
    match first_bad_station(parts) {
        None => {}
        Some(item) => return Err(in_list(ListKind::Stations, item)),
    }
    Ok(())
}

fn first_bad_node(parts: &NetParts) -> Option<u32>
    requires { HasFewItems parts.now }
    ensures { MatchOption result (HoldsOfEach (λ place x. IsName x.name) parts.now.nodes) (BreaksFirstAt (λ place x. IsName x.name) parts.now.nodes) }
{
    first_break(&NameRule, parts.nodes.as_slice())
}

fn first_bad_track(parts: &NetParts) -> Option<u32>
    requires { HasFewItems parts.now }
    ensures { MatchOption result (HoldsOfEach (λ place x. IsName x.name) parts.now.tracks) (BreaksFirstAt (λ place x. IsName x.name) parts.now.tracks) }
{
    first_break(&NameRule, parts.tracks.as_slice())
}

fn first_bad_section(parts: &NetParts) -> Option<u32>
    requires { HasFewItems parts.now }
    ensures { MatchOption result (HoldsOfEach (λ place x. IsName x.name) parts.now.sections) (BreaksFirstAt (λ place x. IsName x.name) parts.now.sections) }
{
    first_break(&NameRule, parts.sections.as_slice())
}

fn first_bad_station(parts: &NetParts) -> Option<u32>
    requires { HasFewItems parts.now }
    ensures { MatchOption result (HoldsOfEach (λ place x. IsName x.name) parts.now.stations) (BreaksFirstAt (λ place x. IsName x.name) parts.now.stations) }
{
    first_break(&NameRule, parts.stations.as_slice())
}

fn in_list(list: ListKind, item: u32) -> Spot
    ensures { result ≡ list_item list item }
{
    Spot { list, item }
}

/// The name of an item is a name.
#[derive(Clone, Copy)]
struct NameRule;

impl Rule<NodePart> for NameRule {
    ghost holds = { λ r place node. IsName node.name };

    fn holds(&self, _place: u32, node: &NodePart) -> bool {
        is_name(node.name.as_str())
    }
}

impl Rule<TrackPart> for NameRule {
    ghost holds = { λ r place track. IsName track.name };

    fn holds(&self, _place: u32, track: &TrackPart) -> bool {
        is_name(track.name.as_str())
    }
}

impl Rule<GroupPart> for NameRule {
    ghost holds = { λ r place group. IsName group.name };

    fn holds(&self, _place: u32, group: &GroupPart) -> bool {
        is_name(group.name.as_str())
    }
}
