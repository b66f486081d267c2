//! The rule of sections.

ghost use Rattle.std.specs.Prelude.{◌≡◌, ◌≤◌, IfOk, MatchOption, length, map};
ghost use Rattle.vss_lists.specs.Breaks.{FailsFirstAt, HoldsOfEach, HoldsOfNumbers};
ghost use Rattle.node_groups.specs.Ends.{AreEndsOf, IsInOrder};
ghost use Rattle.cell_net.specs.Rules.{IsGoodCell};
ghost use Rattle.cell_net.specs.Sections.{IsConnected};
ghost use Rattle.cell_net.specs.Segments.{segment_of};

use crate::limits::CELLS;
use crate::parts::InstanceParts;
use node_groups::{End, Segment, first_split_part};
use std::alloc::{AllocError, Global};

/// The lowest section whose cells are not connected; in the time of sorting the cells' ends.
pub(crate) fn first_bad_section(
    alloc: Global,
    parts: &InstanceParts,
    segments: &[Segment],
    ends: &[End],
) -> Result<Option<u32>, AllocError>
    requires cells { HoldsOfEach (IsGoodCell parts.now) parts.now.cells }
    requires segments { segments.now ≡ map segment_of parts.now.cells }
    requires few { length segments.now ≤ CELLS }
    requires ends { AreEndsOf segments.now ends.now }
    requires order { IsInOrder ends.now }
    ensures { IfOk result (λ first. MatchOption first (HoldsOfNumbers (IsConnected parts.now) parts.now.sections)
        (FailsFirstAt (IsConnected parts.now) parts.now.sections)) }
{
    let section = first_split_part(alloc, segments, ends)?;
    Ok(section)
}
