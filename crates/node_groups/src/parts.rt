//! The first part whose segments are not connected.
ghost use Rattle.std.specs.Prelude.{◌<◌, ◌^◌, length, All, IfOk, IsPermutation};
ghost use Rattle.std.specs.List.Sorted.{IsNonDecreasingBy};
ghost use Rattle.node_groups.specs.Ends.{AreEndsOf, IsInOrder};
ghost use Rattle.node_groups.specs.Parts.{Finds, HasOneGroup, IsConnectedPart};

use crate::ends::End;
use crate::groups::groups_by_ends;
use crate::segments::Segment;
use std::alloc::{AllocError, Global};

/// The lowest part whose segments are not connected: two of them don't reach each other, in steps from a segment to one of
/// the same part that shares a node with it. `None` where all parts are connected. `ends` are the segments' own, in order.
///
/// The time is that of sorting the ends.
pub fn first_split_part(
    alloc: Global,
    segments: &[Segment],
    ends: &[End],
) -> Result<Option<u32>, AllocError>
    requires few { length segments.now < 2 ^ 32 }
    requires ends { AreEndsOf segments.now ends.now }
    requires order { IsInOrder ends.now }
    ensures { IfOk result (Finds (IsConnectedPart segments.now)) }
{
    let groups = groups_by_ends(alloc, segments.len(), ends, &[])?;
    let mut by_part = Vec::from_slice(alloc, ends)?;
    sort_by_part(&mut by_part);
    Ok(split_part(&by_part, &groups))
}

fn sort_by_part(ends: &mut Vec<End>)
    ensures same { IsPermutation ends.old.items ends.new.items }
    ensures rising { IsNonDecreasingBy (λ e. e.part) ends.new.items }
{
    ends.sort_unstable_by_key(|end| end.part);
}

/// The lowest part whose ends stand at places of two groups, of ends by rising parts.
fn split_part(ends: &[End], groups: &[u32]) -> Option<u32>
    requires rising { IsNonDecreasingBy (λ e. e.part) ends.now }
    requires places { All (λ e. e.place < length groups.now) ends.now }
    ensures { Finds (HasOneGroup ends.now groups.now) result }
{
    for at in 1..ends.len() {
        let before = ends[at - 1];
        let end = ends[at];
        if before.part == end.part && groups[before.place as usize] != groups[end.place as usize] {
            return Some(end.part);
        }
    }
    None
}
