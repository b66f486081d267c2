//! The rule of cells.

ghost use Rattle.std.specs.Prelude.{◌↔◌, IsTrue, ◌<◌, ◌^◌, length, MatchOption};
ghost use Rattle.vss_lists.specs.Breaks.{HoldsOfEach, BreaksFirstAt};
ghost use Rattle.cell_net.specs.Space.{IsCell};
ghost use Rattle.cell_net.specs.Rules.{IsGoodCell};

use crate::cells::CellSpec;
use crate::ids::CellId;
use crate::limits::{ADVANCE, CELLS};
use crate::parts::InstanceParts;
use vss_lists::{Rule, first_break};

/// The place of the first cell that breaks its rule.
pub(crate) fn first_bad_cell(parts: &InstanceParts) -> Option<u32>
    requires { length parts.now.cells < 2 ^ 32 }
    ensures { MatchOption result (HoldsOfEach (IsGoodCell parts.now) parts.now.cells) (BreaksFirstAt (IsGoodCell parts.now) parts.now.cells) }
{
    first_break(&CellRule { parts }, parts.cells.as_slice())
}

#[derive(Clone, Copy)]
struct CellRule<'a> {
    parts: &'a InstanceParts,
}

impl<'a> Rule<CellSpec> for CellRule<'a> {
    ghost holds = { λ r place cell. IsGoodCell r.parts.now place cell };

    fn holds(&self, place: u32, cell: &CellSpec) -> bool {
        let parts = self.parts;
        place < CELLS
            && cell.low.0 < parts.nodes
            && cell.high.0 < parts.nodes
            && cell.section.0 < parts.sections
            && cell.low.0 != cell.high.0
            && 0 < cell.limit
            && cell.limit <= ADVANCE
    }
}

/// Whether the cell of that number is one of the instance's.
pub(super) fn is_cell(parts: &InstanceParts, cell: CellId) -> bool
    ensures { IsTrue result ↔ IsCell parts.now cell }
{
    (cell.0 as usize) < parts.cells.len()
}
