//! The rule of stations.

ghost use Rattle.std.specs.Prelude.{◌↔◌, All, IsTrue, ◌<◌, ◌^◌, length, MatchOption};
ghost use Rattle.vss_lists.specs.Breaks.{HoldsOfEach, BreaksFirstAt};
ghost use Rattle.cell_net.specs.Space.{IsCell};
ghost use Rattle.cell_net.specs.Rules.{IsGoodStation};

use super::cells::is_cell;
use crate::ids::CellId;
use crate::parts::InstanceParts;
use vss_lists::{Items, Rule, first_break};

/// The place of the first station that breaks its rule.
pub(crate) fn first_bad_station(parts: &InstanceParts) -> Option<u32>
    requires { length parts.now.stations < 2 ^ 32 }
    ensures { MatchOption result (HoldsOfEach (IsGoodStation parts.now) parts.now.stations) (BreaksFirstAt (IsGoodStation parts.now) parts.now.stations) }
{
    first_break(&StationRule { parts }, parts.stations.as_slice())
}

#[derive(Clone, Copy)]
struct StationRule<'a> {
    parts: &'a InstanceParts,
}

impl<'a> Rule<Items<CellId>> for StationRule<'a> {
    ghost holds = { λ r place station. IsGoodStation r.parts.now place station };

    fn holds(&self, _place: u32, station: &Items<CellId>) -> bool {
        !station.is_empty() && are_cells(self.parts, station.as_slice())
    }
}

fn are_cells(parts: &InstanceParts, cells: &[CellId]) -> bool
    ensures { IsTrue result ↔ All (IsCell parts.now) cells.now }
{
    cells.iter().all(|cell| is_cell(parts, *cell))
}
