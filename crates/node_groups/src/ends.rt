//! The ends of segments, in an order that brings those at one node together.
ghost use Rattle.std.specs.Prelude.{◌≡◌, ◌<◌, ◌≤◌, ◌^◌, ◌↔◌, length, IsTrue, IfOk, IsPermutation};
ghost use Rattle.std.specs.List.Sorted.{IsNonDecreasing, IsNonDecreasingBy, IsPartitionPoint};
ghost use Rattle.node_groups.specs.Ends.{AreEndsOf, IsStretchAt, ends_from, MeetAt, IsInOrder};

use crate::segments::Segment;
use std::alloc::{AllocError, Global};

/// One end of a segment: the node that it stands at, the segment's part, and its place in the list.
#[derive(Clone, Copy, Debug, PartialEq, Eq, PartialOrd, Ord)]
pub struct End {
    /// The node that the end stands at.
    pub node: u32,
    /// The part of its segment.
    pub part: u32,
    /// The place of its segment in the list of segments, counted from 0.
    pub place: u32,
}

/// Both ends of each segment, by node, and at a node by part and then by place.
///
/// The time is that of sorting them.
pub fn sorted_ends(alloc: Global, segments: &[Segment]) -> Result<Vec<End>, AllocError>
    requires { length segments.now < 2 ^ 32 }
    ensures same { IfOk result (λ ends. IsPermutation (ends_from 0 segments.now) ends.items) }
    ensures ends { IfOk result (λ ends. AreEndsOf segments.now ends.items) }
    ensures order { IfOk result (λ ends. IsInOrder ends.items) }
{
    let mut ends = ends_of(alloc, segments)?;
    ends.sort_unstable();
    Ok(ends)
}

/// Both ends of each segment, in the order of the list.
fn ends_of(alloc: Global, segments: &[Segment]) -> Result<Vec<End>, AllocError>
    requires { length segments.now < 2 ^ 32 }
    ensures { IfOk result (λ ends. ends.items ≡ ends_from 0 segments.now) }
{
    let mut ends = Vec::with_capacity(alloc, 2 * segments.len())?;
    for place in 0..segments.len() {
        let Segment { low, high, part } = segments[place];
        let place = place as u32;
        ends.push(End {
            node: low,
            part,
            place,
        })?;
        ends.push(End {
            node: high,
            part,
            place,
        })?;
    }
    Ok(ends)
}

/// The ends at one node, of ends in order; logarithmic in the ends, without memory.
pub fn ends_at(ends: &[End], node: u32) -> &[End]
    requires { IsInOrder ends.now }
    ensures { IsStretchAt ends.now node result.now }
{
    let rest = &ends[count_below(ends, node)..];
    &rest[..count_up_to(rest, node)]
}

/// How many of the ends are at a node below this one; they stand first.
fn count_below(ends: &[End], node: u32) -> usize
    requires { IsNonDecreasingBy (λ e. e.node) ends.now }
    ensures within { result ≤ length ends.now }
    ensures split { IsPartitionPoint (λ e. e.node < node) (λ e. node ≤ e.node) ends.now result }
{
    ends.partition_point(|end| end.node < node)
}

/// How many of the ends are at a node up to this one; they stand first.
fn count_up_to(ends: &[End], node: u32) -> usize
    requires { IsNonDecreasingBy (λ e. e.node) ends.now }
    ensures within { result ≤ length ends.now }
    ensures split { IsPartitionPoint (λ e. e.node ≤ node) (λ e. node < e.node) ends.now result }
{
    ends.partition_point(|end| end.node <= node)
}

/// Whether the two ends stand at one node of one part, which is none of the barriers.
pub(crate) fn meet_at(first: End, second: End, barriers: &[u32]) -> bool
    requires { IsNonDecreasing barriers.now }
    ensures { IsTrue result ↔ MeetAt barriers.now first second }
{
    first.part == second.part
        && first.node == second.node
        && barriers.binary_search(&first.node).is_err()
}
