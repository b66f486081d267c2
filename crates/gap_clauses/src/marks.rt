//! Marks of the candidates at nodes, and from which one to which one they stand.
ghost use Rattle.std.specs.Prelude.{◌≡◌, ◌<◌, ◌≤◌, ◌++◌, ◌||◌, ℕ, OnErr, OnOk, false, length, map, nat_eq, slice_index_or, take};
ghost use Rattle.std.specs.List.{filter, range_with_len};
ghost use Rattle.cell_net.specs.declared.ids.NodeId.{NodeId};
ghost use Rattle.gap_clauses.specs.Searched.{AreCandidateNodes, is_marked_candidate};
ghost use Rattle.gap_clauses.specs.Spans.{IsSpanOf, IsWidened};
ghost use Rattle.gap_clauses.specs.Views.{candidate_of};

use crate::candidates::CandidateNodes;
use cell_net::{CandidateId, NodeId};
use std::alloc::AllocError;

/// No mark stands below the first place, nor at the second one or above.
#[derive(Clone, Copy, Debug)]
pub(crate) struct Span {
    pub low: usize,
    pub end: usize,
}

/// Marks the candidate that is at the node, if one is; in constant time for a node that is looked up.
pub(crate) fn mark_at(
    node: NodeId,
    candidates: &CandidateNodes,
    marks: &mut [bool],
    span: &mut Span,
)
    requires nodes { AreCandidateNodes candidates.now }
    requires few { length candidates.now ≤ length marks.old }
    requires span { IsSpanOf (length candidates.now) marks.old span.old }
    ensures marks { (k : ℕ) (d : NodeId) → k < length candidates.now → slice_index_or marks.new k false ≡ (slice_index_or marks.old k false || nat_eq node.0 (slice_index_or candidates.now k d).0) }
    ensures span { IsSpanOf (length candidates.now) marks.new span.new }
{
    if let Some(at) = candidates.place_of(node) {
        marks[at] = true;
        *span = widened(*span, at);
    }
}

/// The span with the place.
fn widened(span: Span, at: usize) -> Span
    requires { at < 512 }
    ensures { IsWidened span at result }
{
    Span {
        low: if at < span.low { at } else { span.low },
        end: if at < span.end { span.end } else { at + 1 },
    }
}

/// Appends the marked ones of so many candidates; linear in the span.
pub(crate) fn push_marked(
    marks: &[bool],
    count: usize,
    span: Span,
    into: &mut Vec<CandidateId>,
) -> Result<(), AllocError>
    requires within { count ≤ length marks.now }
    requires few { count ≤ 512 }
    requires span { IsSpanOf count marks.now span }
    ensures ok { OnOk result (into.new.items ≡ into.old.items ++ filter (is_marked_candidate marks.now) (map candidate_of (range_with_len 0 count))) }
    ensures err { OnErr result (take (length into.old.items) into.new.items ≡ into.old.items) }
{
    for number in span.low..span.end {
        if marks[number] {
            into.push(CandidateId(number as u32))?;
        }
    }
    Ok(())
}

/// How many of so many candidates are marked; linear in the span.
pub(crate) fn count_marked(marks: &[bool], count: usize, span: Span) -> u32
    requires within { count ≤ length marks.now }
    requires few { count ≤ 512 }
    requires span { IsSpanOf count marks.now span }
    ensures { result ≡ length (filter (is_marked_candidate marks.now) (map candidate_of (range_with_len 0 count))) }
{
    let mut marked = 0;
    for number in span.low..span.end {
        if marks[number] {
            marked += 1;
        }
    }
    marked
}
