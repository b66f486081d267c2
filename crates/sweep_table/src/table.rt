//! The table of one train's sweeps.
ghost use Rattle.std.specs.Prelude.{◌≡◌, Some, length};
ghost use Rattle.std.specs.List.{list_all};
ghost use Rattle.sweep_table.specs.Tables.{IsTable};
ghost use Rattle.sweep_table.specs.Parts.{begins_with, ends_with, has_station_cell, stands_within, table_of};

use crate::ids::SweepId;
use crate::moves::Moves;
use crate::order::directed_number;
use cell_net::{CellId, DirCell, Instance, StationId};
use std::marker::Model;
use vss_rows::Rows;

/// The sweeps of one train in order, and which of them go on from which. Storage is eight bytes a
/// directed cell and 28 a sweep: sweeps that end with the same cells share one list of those that go
/// on from them, and sweeps that begin with the same cells one list of those that they go on from.
#[derive(Debug, Drop)]
pub struct SweepTable {
    pub(crate) train: u32,
    pub(crate) entry: DirCell,
    pub(crate) goal: DirCell,
    pub(crate) sweeps: Rows<DirCell>,
    /// The place of the sweep that is the first cells of each.
    pub(crate) firsts: Vec<u32>,
    /// The place of the sweep that is the last cells of each.
    pub(crate) lasts: Vec<u32>,
    /// The sweeps by their first cells.
    pub(crate) starting: Rows<SweepId>,
    /// The sweeps by their last cells.
    pub(crate) ending: Rows<SweepId>,
}

impl Model for SweepTable {
    ghost use Rattle.std.specs.Prelude.{map};
    ghost use Rattle.sweep_table.specs.Parts.{SweepParts, NameGroups, group_of};

    ghost Value = { SweepParts };

    ghost view = { λ t. record {
      train = t.train;
      entry = t.entry;
      goal = t.goal;
      sweeps = t.sweeps;
      next = map (group_of t.starting) t.lasts.items;
      prev = map (group_of t.ending) t.firsts.items;
    } };

    ghost invariant = { λ t. NameGroups t.sweeps t.lasts.items t.starting × NameGroups t.sweeps t.firsts.items t.ending };
}

impl Moves for SweepTable {
    ghost use Rattle.std.specs.Prelude.{length};
    ghost use Rattle.sweep_table.specs.Tables.{IsTable};
    ghost use Rattle.sweep_table.specs.Parts.{table_of};

    ghost items = { λ s. length s.sweeps };

    ghost table = { λ s p. table_of p s };

    ghost is_made_for = { λ s p. IsTable p (table_of p s) };

    fn len(&self) -> u32 {
        self.sweeps.len() as u32
    }

    fn cells(&self, id: SweepId) -> &[DirCell] {
        self.sweeps.row(id.0 as usize)
    }

    fn next_of(&self, id: SweepId) -> &[SweepId] {
        self.starting.row(self.lasts[id.0 as usize] as usize)
    }

    fn prev_of(&self, id: SweepId) -> &[SweepId] {
        self.ending.row(self.firsts[id.0 as usize] as usize)
    }

    fn is_entry(&self, id: SweepId) -> bool {
        begins_with(self.entry, self.sweeps.row(id.0 as usize))
    }

    fn is_goal(&self, id: SweepId) -> bool {
        ends_with(self.goal, self.sweeps.row(id.0 as usize))
    }

    fn stands_in(&self, id: SweepId, inst: &Instance, station: StationId) -> bool {
        stands_within(
            self.train as usize,
            inst.station(station),
            self.sweeps.row(id.0 as usize),
        )
    }
}

/// Whether the cells begin with the directed cell.
#[tactic(auto, unfolding(crate::specs::Parts::begins_with))]
fn begins_with(directed: DirCell, cells: &[DirCell]) -> bool
    ensures { result ≡ begins_with directed cells.now }
{
    match cells.first() {
        Some(first) => directed_number(*first) == directed_number(directed),
        None => false,
    }
}

/// Whether the cells end with the directed cell.
#[tactic(auto, unfolding(crate::specs::Parts::ends_with))]
pub(crate) fn ends_with(directed: DirCell, cells: &[DirCell]) -> bool
    ensures { result ≡ ends_with directed cells.now }
{
    match cells.last() {
        Some(last) => directed_number(*last) == directed_number(directed),
        None => false,
    }
}

/// Whether the cells are as many as the train is long, all of them cells of the station.
#[tactic(auto, unfolding(crate::specs::Parts::stands_within))]
fn stands_within(train: usize, station: &[CellId], cells: &[DirCell]) -> bool
    ensures { result ≡ stands_within train station.now cells.now }
{
    cells.len() == train && are_station_cells(station, cells)
}

fn are_station_cells(station: &[CellId], cells: &[DirCell]) -> bool
    ensures { result ≡ list_all (has_station_cell station.now) cells.now }
{
    cells
        .iter()
        .all(|directed| has_station_cell(station, *directed))
}

#[tactic(auto, unfolding(crate::specs::Parts::has_station_cell))]
fn has_station_cell(station: &[CellId], directed: DirCell) -> bool
    ensures { result ≡ has_station_cell station.now directed }
{
    station.iter().any(|cell| cell.0 == directed.cell.0)
}
