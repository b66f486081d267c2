//! Joins of cell ends: at cuts, and where passages lead over nodes.

ghost use Rattle.std.specs.Prelude.{◌≡◌, ◌<◌, ◌+◌, ◌++◌, ◌∷◌, [], ◌^◌, IfOk, OnOk, length, map};
ghost use Rattle.rail_net.specs.Passages.{IsAtNode};
ghost use Rattle.discretise.specs.Tracks.{AreSmall, IsSmall};
ghost use Rattle.discretise.specs.Joins.{AddsJoins, AreAtNode, AreAtNodes, AreEndsByNode, AreJoins, cut_join as join_of_cut, cut_joins as joins_of_cuts, cut_joins_in, node_pairs, pair_with, pairs_of};
ghost use Rattle.discretise.specs.declared.ends.TrackEnd.{TrackEnd};

use crate::ends::TrackEnd;
use crate::tracks::GridTrack;
use cell_net::{CellEnd, CellId, End, JoinSpec};
use rail_net::Net;
use std::alloc::{AllocError, Global};
use vss_lists::Items;

/// The joins of the tracks, whose ends at each node these are. Linear in cells and nodes.
pub(crate) fn joins_of(
    alloc: Global,
    net: &Net,
    tracks: &[GridTrack],
    ends: &[Items<TrackEnd>],
) -> Result<Vec<JoinSpec>, AllocError>
    requires nodes { length net.now.nodes < 2 ^ 32 }
    requires small { AreSmall tracks.now }
    requires ends { AreEndsByNode (length net.now.nodes) tracks.now ends.now }
    requires there { AreAtNodes net.now ends.now }
    ensures { IfOk result (λ joins. AreJoins net.now tracks.now joins.items) }
{
    let mut joins = cut_joins(alloc, tracks)?;
    add_node_joins(&mut joins, net, ends)?;
    Ok(joins)
}

fn cut_joins(alloc: Global, tracks: &[GridTrack]) -> Result<Vec<JoinSpec>, AllocError>
    requires { AreSmall tracks.now }
    ensures { IfOk result (λ joins. joins.items ≡ joins_of_cuts tracks.now) }
{
    let mut joins = Vec::new(alloc);
    for at in 0..tracks.len() {
        add_cut_joins(&mut joins, &tracks[at])?;
    }
    Ok(joins)
}

fn add_cut_joins(joins: &mut Vec<JoinSpec>, track: &GridTrack) -> Result<(), AllocError>
    requires { IsSmall track.now }
    ensures { OnOk result (joins.new.items ≡ joins.old.items ++ cut_joins_in track.now) }
{
    for place in 0..track.count.saturating_sub(1) {
        joins.push(cut_join(track, place))?;
    }
    Ok(())
}

fn cut_join(track: &GridTrack, place: u32) -> JoinSpec
    requires range { IsSmall track.now }
    requires within { place < track.now.count }
    ensures { result ≡ join_of_cut track.now place }
{
    JoinSpec {
        one: CellEnd {
            cell: CellId(track.first + place),
            end: End::High,
        },
        other: CellEnd {
            cell: CellId(track.first + place + 1),
            end: End::Low,
        },
    }
}

/// Adds the joins at each node.
fn add_node_joins(
    joins: &mut Vec<JoinSpec>,
    net: &Net,
    ends: &[Items<TrackEnd>],
) -> Result<(), AllocError>
    requires few { length ends.now < 2 ^ 32 }
    requires there { AreAtNodes net.now ends.now }
    ensures { OnOk result (AddsJoins net.now (node_pairs ends.now) joins.old.items joins.new.items) }
{
    for node in 0..ends.len() {
        add_joins_at(joins, net, node as u32, ends[node].as_slice())?;
    }
    Ok(())
}

/// Adds the joins of these ends at the node.
fn add_joins_at(
    joins: &mut Vec<JoinSpec>,
    net: &Net,
    node: u32,
    ends: &[TrackEnd],
) -> Result<(), AllocError>
    requires { AreAtNode net.now node ends.now }
    ensures { OnOk result (AddsJoins net.now (pairs_of node ends.now) joins.old.items joins.new.items) }
{
    for at in 0..ends.len() {
        add_joins_with(joins, net, node, ends[at], &ends[at + 1..])?;
    }
    Ok(())
}

/// Adds the joins of an end with each of the others.
fn add_joins_with(
    joins: &mut Vec<JoinSpec>,
    net: &Net,
    node: u32,
    end: TrackEnd,
    others: &[TrackEnd],
) -> Result<(), AllocError>
    requires one { IsAtNode net.now node end.track }
    requires others { AreAtNode net.now node others.now }
    ensures { OnOk result (AddsJoins net.now (map (pair_with node end) others.now) joins.old.items joins.new.items) }
{
    for at in 0..others.len() {
        add_join(joins, net, node, end, others[at])?;
    }
    Ok(())
}

/// Adds the join of two ends at the node, where a passage leads between their tracks.
fn add_join(
    joins: &mut Vec<JoinSpec>,
    net: &Net,
    node: u32,
    end: TrackEnd,
    other: TrackEnd,
) -> Result<(), AllocError>
    requires one { IsAtNode net.now node end.track }
    requires other { IsAtNode net.now node other.track }
    ensures { OnOk result (AddsJoins net.now (pair_with node end other ∷ []) joins.old.items joins.new.items) }
{
    if net.passage(node, end.track, other.track) {
        joins.push(JoinSpec {
            one: end.end,
            other: other.end,
        })?;
    }
    Ok(())
}
