//! The rule of joins.

ghost use Rattle.std.specs.Prelude.{◌≡◌, ◌↔◌, IsTrue, MatchOption, Some, ◌<◌, ◌^◌, length};
ghost use Rattle.vss_lists.specs.Breaks.{HoldsOfEach, BreaksFirstAt};
ghost use Rattle.cell_net.specs.Rules.{IsGoodJoin, IsNodeOf, node_at};
ghost use Rattle.cell_net.specs.declared.ids.NodeId.{NodeId};

use crate::cells::{CellEnd, CellSpec, End, JoinSpec, is_same_end};
use crate::ids::NodeId;
use crate::parts::InstanceParts;
use vss_lists::{Rule, first_break};

/// The place of the first join that breaks its rule.
pub(crate) fn first_bad_join(parts: &InstanceParts) -> Option<u32>
    requires { length parts.now.joins < 2 ^ 32 }
    ensures { MatchOption result (HoldsOfEach (IsGoodJoin parts.now) parts.now.joins) (BreaksFirstAt (IsGoodJoin parts.now) parts.now.joins) }
{
    first_break(&JoinRule { parts }, parts.joins.as_slice())
}

#[derive(Clone, Copy)]
struct JoinRule<'a> {
    parts: &'a InstanceParts,
}

impl<'a> Rule<JoinSpec> for JoinRule<'a> {
    ghost holds = { λ r place join. IsGoodJoin r.parts.now place join };

    fn holds(&self, _place: u32, join: &JoinSpec) -> bool {
        !is_same_end(join.one, join.other) && are_at_one_node(self.parts, join.one, join.other)
    }
}

fn are_at_one_node(parts: &InstanceParts, one: CellEnd, other: CellEnd) -> bool
    ensures { IsTrue result ↔ ((node : NodeId) × IsNodeOf parts.now one node × IsNodeOf parts.now other node) }
{
    match node_of(parts, one) {
        None => false,
        Some(node) => is_node_of(parts, other, node),
    }
}

#[tactic(auto, using(crate::proofs::RuleLemmas::one_node))]
fn is_node_of(parts: &InstanceParts, end: CellEnd, node: NodeId) -> bool
    ensures { IsTrue result ↔ IsNodeOf parts.now end node }
{
    match node_of(parts, end) {
        None => false,
        Some(here) => here.0 == node.0,
    }
}

/// The node of a cell's end, if it is a cell.
#[tactic(auto, unfolding(crate::specs::Rules::IsNodeOf))]
fn node_of(parts: &InstanceParts, end: CellEnd) -> Option<NodeId>
    ensures { MatchOption result ((node : NodeId) → ¬ IsNodeOf parts.now end node) (IsNodeOf parts.now end) }
{
    let cell = parts.cells.get(end.cell.0 as usize)?;
    Some(node_at(*cell, end.end))
}

fn node_at(cell: CellSpec, end: End) -> NodeId
    ensures { result ≡ node_at cell end }
{
    match end {
        End::Low => cell.low,
        End::High => cell.high,
    }
}
