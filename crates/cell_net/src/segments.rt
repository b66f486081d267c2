//! Cells as segments between nodes.

ghost use Rattle.std.specs.Prelude.{◌≡◌, IfOk, map};
ghost use Rattle.cell_net.specs.Segments.{segment_of};

use crate::cells::CellSpec;
use crate::parts::InstanceParts;
use node_groups::Segment;
use std::alloc::{AllocError, Global};

/// The cells as segments between their nodes, each of its section as the part; linear in the cells.
pub fn segments_of(alloc: Global, parts: &InstanceParts) -> Result<Vec<Segment>, AllocError>
    ensures { IfOk result (λ segments. segments.items ≡ map segment_of parts.now.cells) }
{
    let mut segments = Vec::new(alloc);
    for cell in parts.cells.as_slice() {
        segments.push(segment_of(*cell))?;
    }
    Ok(segments)
}

fn segment_of(cell: CellSpec) -> Segment
    ensures { result ≡ segment_of cell }
{
    Segment {
        low: cell.low.0,
        high: cell.high.0,
        part: cell.section.0,
    }
}
