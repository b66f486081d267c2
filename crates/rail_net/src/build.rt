//! The rules of networks, tested in their order.

ghost use Rattle.std.specs.Prelude.{IfOk, IfErr};
ghost use Rattle.vss_lists.specs.Orders.{AreKept};
ghost use Rattle.rail_net.specs.Parts.{HasFewItems};
ghost use Rattle.rail_net.specs.Refusals.{HasNewNodes, HasNewTracks, Refuses, net_rules, node_rules, number_rules, reference_rules, section_rules};
ghost use Rattle.rail_net.specs.Tables.{AreTrackEnds, AreHomes, AreListings, AreNamesOf, AreSplits, IsIndexOf};

use crate::ends::{TrackEnds, ends_of};
use crate::entries::Entry;
use crate::marks::{apart_of, bars_of, degrees_of, listing_counts, splits_of};
use crate::parts::NetParts;
use crate::refusal::{ListKind, NetFault, NetRefusal};
use crate::rules::{
    first_apart, first_bad_border, first_bad_degree, first_bad_length, first_bad_limit,
    first_bad_pairs, first_bad_tip, first_listed_twice, first_loop, first_split_node,
    first_unknown_border, first_unknown_node, first_unknown_station,
};
use crate::sections::{homes_of, listings_of};
use crate::tables::{NetIndex, NetNames, named, names_of, refused};
use std::alloc::Global;

/// Tests every rule, in the order of the refusals.
pub(crate) fn test_rules(alloc: Global, parts: &NetParts) -> Result<NetIndex, NetRefusal>
    requires { HasFewItems parts.now }
    ensures index { IfOk result (IsIndexOf parts.now) }
    ensures kept { IfOk result (λ _. AreKept (net_rules parts.now)) }
    ensures refusal { IfErr result (Refuses (net_rules parts.now)) }
{
    let names = match names_of(alloc, parts) {
        Ok(names) => names,
        Err(refusal) => return Err(refusal),
    };
    let found = match test_references(alloc, parts, &names) {
        Ok(found) => found,
        Err(refusal) => return Err(refusal),
    };
    match test_nodes(alloc, parts, &names, &found.ends) {
        Ok(()) => {}
        Err(refusal) => return Err(refusal),
    }
    let sections = match test_sections(alloc, parts, &found.ends, &found.listings) {
        Ok(sections) => sections,
        Err(refusal) => return Err(refusal),
    };
    match test_numbers(alloc, parts, &names, &found.ends, &sections.splits) {
        Ok(()) => {}
        Err(refusal) => return Err(refusal),
    }
    Ok(NetIndex {
        names,
        homes: sections.homes,
    })
}

/// The nodes and the listings of the tracks, by their numbers.
#[derive(Drop)]
struct Found {
    ends: Vec<TrackEnds>,
    listings: Vec<Entry>,
}

/// Tests that what items refer to is there.
fn test_references(alloc: Global, parts: &NetParts, names: &NetNames) -> Result<Found, NetRefusal>
    requires few { HasFewItems parts.now }
    requires names { AreNamesOf parts.now names.now }
    ensures ends { IfOk result (λ found. AreTrackEnds parts.now found.ends.items) }
    ensures listings { IfOk result (λ found. AreListings parts.now found.listings.items) }
    ensures kept { IfOk result (λ _. AreKept (reference_rules parts.now)) }
    ensures refusal { IfErr result (Refuses (reference_rules parts.now)) }
{
    match first_unknown_node(parts, names) {
        None => {}
        Some(item) => return Err(named(NetFault::UnknownName, ListKind::Nodes, item)),
    }
    let ends = match ends_of(alloc, parts, names) {
        Ok(ends) => ends,
        Err(found) => return Err(refused(found, NetFault::UnknownName, ListKind::Tracks)),
    };
    let listings = match listings_of(alloc, parts, names) {
        Ok(listings) => listings,
        Err(found) => return Err(refused(found, NetFault::UnknownName, ListKind::Sections)),
    };
    match first_unknown_border(parts, names) {
        None => {}
        Some(item) => return Err(named(NetFault::UnknownName, ListKind::Borders, item)),
    }
    match first_unknown_station(parts, names) {
        None => {}
        Some(item) => return Err(named(NetFault::UnknownName, ListKind::Stations, item)),
    }
    Ok(Found { ends, listings })
}

/// Tests that tracks and nodes fit together.
fn test_nodes(
    alloc: Global,
    parts: &NetParts,
    names: &NetNames,
    ends: &[TrackEnds],
) -> Result<(), NetRefusal>
    requires few { HasFewItems parts.now }
    requires names { AreNamesOf parts.now names.now }
    requires new_nodes { HasNewNodes parts.now }
    requires new_tracks { HasNewTracks parts.now }
    requires ends { AreTrackEnds parts.now ends.now }
    ensures kept { IfOk result (λ _. AreKept (node_rules parts.now)) }
    ensures refusal { IfErr result (Refuses (node_rules parts.now)) }
{
    let Ok(degrees) = degrees_of(alloc, parts, ends) else {
        return Err(NetRefusal::Memory);
    };
    match first_bad_degree(parts, &degrees.begins, &degrees.ends) {
        None => {}
        Some(item) => return Err(named(NetFault::NodeDegree, ListKind::Nodes, item)),
    }
    match first_bad_tip(parts, names) {
        None => {}
        Some(item) => return Err(named(NetFault::TipNotHere, ListKind::Nodes, item)),
    }
    match first_bad_pairs(parts, names) {
        None => {}
        Some(item) => return Err(named(NetFault::PairsNotHere, ListKind::Nodes, item)),
    }
    match first_loop(parts) {
        None => {}
        Some(item) => return Err(named(NetFault::LoopTrack, ListKind::Tracks, item)),
    }
    Ok(())
}

/// The section of each track, and the nodes whose tracks are of different ones.
#[derive(Drop)]
struct Parted {
    homes: Vec<u32>,
    splits: Vec<bool>,
}

/// Tests that tracks are parted into sections.
fn test_sections(
    alloc: Global,
    parts: &NetParts,
    ends: &[TrackEnds],
    listings: &[Entry],
) -> Result<Parted, NetRefusal>
    requires few { HasFewItems parts.now }
    requires new_nodes { HasNewNodes parts.now }
    requires new_tracks { HasNewTracks parts.now }
    requires ends { AreTrackEnds parts.now ends.now }
    requires listings { AreListings parts.now listings.now }
    ensures homes { IfOk result (λ parted. AreHomes parts.now parted.homes.items) }
    ensures splits { IfOk result (λ parted. AreSplits parts.now parted.splits.items) }
    ensures kept { IfOk result (λ _. AreKept (section_rules parts.now)) }
    ensures refusal { IfErr result (Refuses (section_rules parts.now)) }
{
    let homes = match homes_of(alloc, parts, listings) {
        Ok(homes) => homes,
        Err(found) => return Err(refused(found, NetFault::TrackInNoSection, ListKind::Tracks)),
    };
    let Ok(counts) = listing_counts(alloc, parts, listings) else {
        return Err(NetRefusal::Memory);
    };
    match first_listed_twice(parts, &counts) {
        None => {}
        Some(item) => return Err(named(NetFault::TrackInTwoSections, ListKind::Tracks, item)),
    }
    let Ok(splits) = splits_of(alloc, parts, ends, &homes) else {
        return Err(NetRefusal::Memory);
    };
    match first_split_node(parts, &splits) {
        None => {}
        Some(item) => return Err(named(NetFault::SplitSection, ListKind::Nodes, item)),
    }
    let Ok(apart) = apart_of(alloc, parts, ends, &homes) else {
        return Err(NetRefusal::Memory);
    };
    match first_apart(parts, &apart) {
        None => {}
        Some(item) => return Err(named(NetFault::SectionApart, ListKind::Sections, item)),
    }
    Ok(Parted { homes, splits })
}

/// Tests that borders stand well and that numbers are in their ranges.
fn test_numbers(
    alloc: Global,
    parts: &NetParts,
    names: &NetNames,
    ends: &[TrackEnds],
    splits: &[bool],
) -> Result<(), NetRefusal>
    requires few { HasFewItems parts.now }
    requires names { AreNamesOf parts.now names.now }
    requires new_nodes { HasNewNodes parts.now }
    requires new_tracks { HasNewTracks parts.now }
    requires ends { AreTrackEnds parts.now ends.now }
    requires splits { AreSplits parts.now splits.now }
    ensures kept { IfOk result (λ _. AreKept (number_rules parts.now)) }
    ensures refusal { IfErr result (Refuses (number_rules parts.now)) }
{
    let Ok(bars) = bars_of(alloc, parts, ends) else {
        return Err(NetRefusal::Memory);
    };
    match first_bad_border(parts, names, splits, &bars) {
        None => {}
        Some(item) => return Err(named(NetFault::BorderPlace, ListKind::Borders, item)),
    }
    match first_bad_length(parts) {
        None => {}
        Some(item) => return Err(named(NetFault::LengthRange, ListKind::Tracks, item)),
    }
    match first_bad_limit(parts) {
        None => {}
        Some(item) => return Err(named(NetFault::LimitRange, ListKind::Tracks, item)),
    }
    Ok(())
}
