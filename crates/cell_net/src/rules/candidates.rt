//! The rule of candidates.

ghost use Rattle.std.specs.Prelude.{◌≡◌, ◌≢◌, ◌⊎◌, ◌↔◌, All, Contains, IsTrue, MatchOption, ◌<◌, ◌^◌, length};
ghost use Rattle.vss_lists.specs.Breaks.{HoldsOfEach, BreaksFirstAt};
ghost use Rattle.node_groups.specs.Ends.{IsInOrder};
ghost use Rattle.cell_net.specs.CellEnds.{AreCellEnds, AreOfTwo};
ghost use Rattle.cell_net.specs.Rules.{IsGoodCandidate, JoinsTwoCells};

use super::rising::is_above_last;
use crate::ids::NodeId;
use crate::limits::CANDIDATES;
use crate::parts::InstanceParts;
use node_groups::{End, ends_at};
use std::marker::Model;
use vss_lists::{Rule, first_break};

/// The place of the first candidate that breaks its rule, by the ends of all cells in order; logarithmic in
/// them for each candidate, without memory.
pub(crate) fn first_bad_candidate(parts: &InstanceParts, ends: &[End]) -> Option<u32>
    requires candidates { length parts.now.candidates < 2 ^ 32 }
    requires ends { AreCellEnds parts.now ends.now }
    requires order { IsInOrder ends.now }
    ensures { MatchOption result (HoldsOfEach (IsGoodCandidate parts.now) parts.now.candidates) (BreaksFirstAt (IsGoodCandidate parts.now) parts.now.candidates) }
{
    first_break(&CandidateRule { parts, ends }, parts.candidates.as_slice())
}

/// The rule of candidates, with the ends of all cells in order. Contracts see it as the parts.
#[derive(Drop)]
struct CandidateRule<'a> {
    parts: &'a InstanceParts,
    ends: &'a [End],
}

impl<'a> Model for CandidateRule<'a> {
    ghost use Rattle.node_groups.specs.Ends.{IsInOrder};
    ghost use Rattle.cell_net.specs.declared.parts.InstanceParts.{InstanceParts};
    ghost use Rattle.cell_net.specs.CellEnds.{AreCellEnds};

    ghost Value = { InstanceParts };

    ghost view = { λ r. r.parts.now };

    ghost invariant = { λ r. AreCellEnds r.parts.now r.ends.now × IsInOrder r.ends.now };
}

impl<'a> Rule<NodeId> for CandidateRule<'a> {
    ghost holds = { λ p place node. IsGoodCandidate p place node };

    fn holds(&self, place: u32, node: &NodeId) -> bool {
        place < CANDIDATES
            && is_above_last(self.parts.candidates.as_slice(), place, node)
            && node.0 < self.parts.nodes
            && joins_two_cells(self.parts, self.ends, *node)
    }
}

/// Whether exactly two cells have the node at an end, and they are of one section.
fn joins_two_cells(parts: &InstanceParts, ends: &[End], node: NodeId) -> bool
    requires ends { AreCellEnds parts.now ends.now }
    requires order { IsInOrder ends.now }
    ensures { IsTrue result ↔ JoinsTwoCells parts.now node }
{
    match two_ends(ends_at(ends, node.0)) {
        None => false,
        Some((one, other)) => one.part == other.part,
    }
}

/// An end of each of the two cells that the ends are of, if they are of two.
fn two_ends(ends: &[End]) -> Option<(End, End)>
    ensures { MatchOption result ((one other : End) → ¬ AreOfTwo ends.now one other) (λ found. AreOfTwo ends.now found.0 found.1) }
{
    let one = *ends.first()?;
    let other = end_of_another(ends, one)?;
    if are_all_of(ends, one, other) {
        Some((one, other))
    } else {
        None
    }
}

/// The first of the ends that isn't of the same cell.
fn end_of_another(ends: &[End], one: End) -> Option<End>
    ensures { MatchOption result (All (λ e. e.place ≡ one.place) ends.now) (λ other. Contains ends.now other × (other.place ≢ one.place)) }
{
    for end in ends {
        if end.place != one.place {
            return Some(*end);
        }
    }
    None
}

fn are_all_of(ends: &[End], one: End, other: End) -> bool
    ensures { IsTrue result ↔ All (λ e. (e.place ≡ one.place) ⊎ (e.place ≡ other.place)) ends.now }
{
    ends.iter()
        .all(|end| end.place == one.place || end.place == other.place)
}
