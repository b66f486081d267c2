//! The classes of cells that are linked under a layout.

ghost use Rattle.std.specs.Prelude.{◌≡◌, ◌<◌, ◌↔◌, IfOk, IsTrue, length};
ghost use Rattle.cell_net.specs.Borders.{IsBorderSet};
ghost use Rattle.layout_rules.specs.Classes.{AreClasses, class_of};
ghost use Rattle.cell_net.specs.Segments.{AreBarriers};

use cell_net::{CandidateId, CellId, Instance, Layout, segments_of};
use node_groups::groups_of;
use std::alloc::{AllocError, Global};
use std::marker::Model;

/// The classes of linked cells. Contracts see them as the list of each cell's class.
#[derive(Debug, Drop)]
pub struct Classes {
    classes: Vec<u32>,
}

impl Model for Classes {
    ghost use Rattle.std.specs.Prelude.{List, ℕ};

    ghost Value = { List ℕ };

    ghost view = { λ c. c.classes.items };
}

/// The classes of the cells that are linked under the layout, by one flood over each section; in the
/// time of sorting the cells' ends.
pub fn classes_of(alloc: Global, inst: &Instance, layout: &Layout) -> Result<Classes, AllocError>
    requires { IsBorderSet inst.now layout.now }
    ensures { IfOk result (AreClasses inst.now layout.now) }
{
    let segments = segments_of(alloc, inst.parts())?;
    let barriers = barriers_of(alloc, inst, layout.borders())?;
    let classes = groups_of(alloc, &segments, &barriers)?;
    Ok(Classes { classes })
}

impl Classes {
    /// Whether the two cells are linked, without memory.
    pub fn linked(&self, one: CellId, other: CellId) -> bool
        requires one { one.0 < length self.now }
        requires other { other.0 < length self.now }
        ensures { IsTrue result ↔ (class_of self.now one ≡ class_of self.now other) }
    {
        self.class(one) == self.class(other)
    }

    /// The number of the cell's class, which is that of its lowest cell.
    pub fn class(&self, cell: CellId) -> u32
        requires { cell.0 < length self.now }
        ensures { result ≡ class_of self.now cell }
    {
        self.classes[cell.0 as usize]
    }
}

fn barriers_of(
    alloc: Global,
    inst: &Instance,
    borders: &[CandidateId],
) -> Result<Vec<u32>, AllocError>
    requires { IsBorderSet inst.now borders.now }
    ensures { IfOk result (λ barriers. AreBarriers inst.now borders.now barriers.items) }
{
    let mut barriers = Vec::new(alloc);
    for border in borders {
        barriers.push(inst.candidate(*border).0)?;
    }
    Ok(barriers)
}
