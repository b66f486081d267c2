//! Which candidate is at a node: looked up for nodes of low numbers, and else searched for by halves.
ghost use Rattle.std.specs.Prelude.{◌≡◌, ◌≢◌, ◌<◌, ◌≤◌, All, IfOk, MatchOption, length, slice_index_or};
ghost use Rattle.std.specs.List.Sorted.{IsPartitionPoint};
ghost use Rattle.gap_clauses.specs.Searched.{AreCandidateNodes, ArePlacesOf, IsPlaceOfNode};

use cell_net::NodeId;
use std::alloc::{AllocError, Global};
use std::marker::Model;

/// Nodes of these numbers or above are searched for, however high the numbers are.
const LOOKED_UP: u32 = 4096;

/// The nodes of the candidates, rising. Four bytes a candidate, and four for each lower node, up to
/// 16,384 for all.
#[derive(Debug, Drop)]
pub(crate) struct CandidateNodes {
    nodes: Vec<NodeId>,
    // by the number of a node: the place of its candidate, or how many candidates there are
    places: Vec<u32>,
}

impl Model for CandidateNodes {
    ghost use Rattle.std.specs.Prelude.{List};
    ghost use Rattle.cell_net.specs.declared.ids.NodeId.{NodeId};
    ghost use Rattle.gap_clauses.specs.Searched.{AreCandidateNodes, ArePlacesOf};

    ghost Value = { List NodeId };

    ghost view = { λ c. c.nodes.items };

    ghost invariant = { λ c. AreCandidateNodes c.nodes.items × ArePlacesOf c.nodes.items c.places.items };
}

impl CandidateNodes {
    /// Of these nodes; logarithmic in them for each node that is looked up.
    pub(crate) fn build(alloc: Global, nodes: &[NodeId]) -> Result<CandidateNodes, AllocError>
        requires { AreCandidateNodes nodes.now }
        ensures { IfOk result (λ candidates. candidates ≡ nodes.now) }
    {
        let places = places_of(alloc, nodes)?;
        let nodes = Vec::from_slice(alloc, nodes)?;
        Ok(CandidateNodes { nodes, places })
    }

    /// How many candidates there are.
    pub(crate) fn len(&self) -> usize
        ensures value { result ≡ length self.now }
        ensures nodes { AreCandidateNodes self.now }
    {
        self.nodes.len()
    }

    /// The place of the candidate at the node; in constant time for a node that is looked up, else
    /// logarithmic in the candidates.
    pub(crate) fn place_of(&self, node: NodeId) -> Option<usize>
        ensures { MatchOption result (All (λ n. n.0 ≢ node.0) self.now) (λ at. (at < length self.now) × ((d : NodeId) → (slice_index_or self.now at d).0 ≡ node.0)) }
    {
        if node.0 as usize >= self.places.len() {
            return place_among(node, &self.nodes);
        }
        let at = self.places[node.0 as usize] as usize;
        if at < self.nodes.len() {
            Some(at)
        } else {
            None
        }
    }
}

/// By the number of a node, up to the last candidate's: the place of its candidate, or how many
/// candidates there are.
fn places_of(alloc: Global, nodes: &[NodeId]) -> Result<Vec<u32>, AllocError>
    requires { AreCandidateNodes nodes.now }
    ensures { IfOk result (λ places. ArePlacesOf nodes.now places.items) }
{
    let count = looked_up(nodes);
    let mut places = Vec::with_capacity(alloc, count as usize)?;
    for number in 0..count {
        places.push(place_or_count(NodeId(number), nodes))?;
    }
    Ok(places)
}

/// How many nodes are looked up.
fn looked_up(nodes: &[NodeId]) -> u32
    ensures { result ≤ 4096 }
{
    match nodes.last() {
        Some(last) => {
            if last.0 < LOOKED_UP {
                last.0 + 1
            } else {
                LOOKED_UP
            }
        }
        None => 0,
    }
}

/// The place of the node among the candidates' nodes, or how many these are.
fn place_or_count(node: NodeId, nodes: &[NodeId]) -> u32
    requires { AreCandidateNodes nodes.now }
    ensures { IsPlaceOfNode nodes.now node.0 result }
{
    match place_among(node, nodes) {
        Some(at) => at as u32,
        None => nodes.len() as u32,
    }
}

/// The place of the node among the candidates' nodes, which rise; logarithmic in these.
fn place_among(node: NodeId, candidates: &[NodeId]) -> Option<usize>
    requires { AreCandidateNodes candidates.now }
    ensures { MatchOption result (All (λ n. n.0 ≢ node.0) candidates.now) (λ at. (at < length candidates.now) × ((d : NodeId) → (slice_index_or candidates.now at d).0 ≡ node.0)) }
{
    let at = count_below(node, candidates);
    if at == candidates.len() {
        return None;
    }
    if candidates[at].0 == node.0 {
        Some(at)
    } else {
        None
    }
}

/// How many of the candidates' nodes, which rise, are below the node.
fn count_below(node: NodeId, candidates: &[NodeId]) -> usize
    requires { AreCandidateNodes candidates.now }
    ensures within { result ≤ length candidates.now }
    ensures split { IsPartitionPoint (λ n. n.0 < node.0) (λ n. node.0 ≤ n.0) candidates.now result }
{
    candidates.partition_point(|candidate| candidate.0 < node.0)
}
