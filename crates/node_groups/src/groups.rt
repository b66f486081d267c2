//! Groups of segments by what they reach.
ghost use Rattle.std.specs.Prelude.{◌≡◌, ◌<◌, ◌^◌, length, IfOk, All};
ghost use Rattle.std.specs.List.Sorted.{IsNonDecreasing};
ghost use Rattle.node_groups.specs.Forest.{IsForest, AreAllRoots, JoinsBy};
ghost use Rattle.node_groups.specs.Ends.{IsInOrder, Shares};
ghost use Rattle.node_groups.specs.Touch.{Touch};
ghost use Rattle.node_groups.specs.Groups.{GroupsByReach, NamedByLowest};

use crate::ends::{End, meet_at, sorted_ends};
use crate::forest::{flatten, join, single_trees};
use crate::segments::Segment;
use std::alloc::{AllocError, Global};

/// Groups the segments by what they reach, in steps from a segment to one of the same part that shares a node with it which
/// is none of the barriers. Gives each segment the number of its group: the lowest place in that group.
///
/// The barriers may stand in any order, and twice. The time is that of sorting the segments' ends and the barriers.
pub fn groups_of(
    alloc: Global,
    segments: &[Segment],
    barriers: &[u32],
) -> Result<Vec<u32>, AllocError>
    requires { length segments.now < 2 ^ 32 }
    ensures len { IfOk result (λ groups. length groups.items ≡ length segments.now) }
    ensures same { IfOk result (λ groups. GroupsByReach (Touch segments.now barriers.now) groups.items) }
    ensures lowest { IfOk result (λ groups. NamedByLowest (Touch segments.now barriers.now) groups.items) }
{
    let ends = sorted_ends(alloc, segments)?;
    let mut sorted_barriers = Vec::from_slice(alloc, barriers)?;
    sorted_barriers.sort_unstable();
    groups_by_ends(alloc, segments.len(), &ends, &sorted_barriers)
}

/// The groups of the places below `count`, where ends that meet join the places of their segments.
pub(crate) fn groups_by_ends(
    alloc: Global,
    count: usize,
    ends: &[End],
    barriers: &[u32],
) -> Result<Vec<u32>, AllocError>
    requires few { count < 2 ^ 32 }
    requires places { All (λ e. e.place < count) ends.now }
    requires order { IsInOrder ends.now }
    requires barriers { IsNonDecreasing barriers.now }
    ensures len { IfOk result (λ groups. length groups.items ≡ count) }
    ensures same { IfOk result (λ groups. GroupsByReach (Shares ends.now barriers.now) groups.items) }
    ensures lowest { IfOk result (λ groups. NamedByLowest (Shares ends.now barriers.now) groups.items) }
{
    let mut groups = single_trees(alloc, count as u32)?;
    let parents = groups.as_mut_slice();
    join_ends(parents, ends, barriers);
    flatten(parents);
    Ok(groups)
}

/// Joins the places of all ends that meet.
fn join_ends(parents: &mut [u32], ends: &[End], barriers: &[u32])
    requires roots { AreAllRoots parents.old }
    requires places { All (λ e. e.place < length parents.old) ends.now }
    requires order { IsInOrder ends.now }
    requires barriers { IsNonDecreasing barriers.now }
    ensures forest { IsForest parents.new }
    ensures joined { JoinsBy parents.new (Shares ends.now barriers.now) }
{
    for at in 1..ends.len() {
        let before = ends[at - 1];
        let end = ends[at];
        if meet_at(before, end, barriers) {
            join(parents, before.place, end.place);
        }
    }
}
