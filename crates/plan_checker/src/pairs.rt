//! The first pair of trains that aren't apart at a step.

ghost use Rattle.std.specs.Prelude.{◌<◌, ◌↔◌, IsTrue, MatchOption, Some, length};
ghost use Rattle.vss_lists.specs.Breaks.{HoldsOfEach};
ghost use Rattle.cell_net.specs.Space.{IsCell};
ghost use Rattle.cell_net.specs.Plans.{AreSeparated};
ghost use Rattle.plan_checker.specs.Clashes.{AreFirstLinked};
ghost use Rattle.plan_checker.specs.ClashSearch.{AreAllApart, AreTrainsApart, AreCellsOfTraffic, AreLinked, IsApartFromLater, IsClash, IsFirstClashAt, IsFirstClashOf, IsFirstLinkedTo, IsSeparated, IsGoodTraffic};

use crate::clash::Clash;
use crate::traffic::{Traffic, sweep_at};
use cell_net::{CellId, DirCell, TrainId};

/// The clash of the first pair of trains at the step.
pub(crate) fn first_clash_at(traffic: &Traffic, step: u32) -> Option<Clash>
    requires { IsGoodTraffic traffic.now }
    ensures { MatchOption result (AreAllApart traffic.now step) (IsFirstClashAt traffic.now step) }
{
    for a in 0..traffic.inst.train_count() {
        match first_clash_of(traffic, step, a) {
            Some(clash) => return Some(clash),
            None => {}
        }
    }
    None
}

/// The clash of a train at the step with the first later one.
fn first_clash_of(traffic: &Traffic, step: u32, a: u32) -> Option<Clash>
    requires sound { IsGoodTraffic traffic.now }
    requires train { a < length traffic.now.runs.now }
    ensures { MatchOption result (IsApartFromLater traffic.now step a) (IsFirstClashOf traffic.now step a) }
{
    let trains = traffic.inst.train_count();
    for b in a + 1..trains {
        match first_linked_at(traffic, step, a, b) {
            Some((e, f)) => {
                return Some(Clash {
                    a: TrainId(a),
                    b: TrainId(b),
                    step,
                    e,
                    f,
                });
            }
            None => {}
        }
    }
    None
}

/// The first linked cells of two trains at the step.
fn first_linked_at(traffic: &Traffic, step: u32, a: u32, b: u32) -> Option<(CellId, CellId)>
    requires sound { IsGoodTraffic traffic.now }
    requires one { a < length traffic.now.runs.now }
    requires other { b < length traffic.now.runs.now }
    ensures { MatchOption result (AreTrainsApart traffic.now step a b) (λ pair. IsClash traffic.now step a b pair.0 pair.1) }
{
    let one = sweep_at(&traffic.runs[a as usize], step)?;
    let other = sweep_at(&traffic.runs[b as usize], step)?;
    first_linked(traffic, one.cells.as_slice(), other.cells.as_slice())
}

/// The first linked cells, in the order of the one list, then of the other.
fn first_linked(traffic: &Traffic, one: &[DirCell], other: &[DirCell]) -> Option<(CellId, CellId)>
    requires sound { IsGoodTraffic traffic.now }
    requires one { AreCellsOfTraffic traffic.now one.now }
    requires other { AreCellsOfTraffic traffic.now other.now }
    ensures { MatchOption result
        (AreSeparated traffic.now.inst.now traffic.now.layout.now one.now other.now)
        (λ pair. AreFirstLinked traffic.now.inst.now traffic.now.layout.now one.now other.now pair.0 pair.1) }
{
    for directed in one {
        match first_linked_to(traffic, directed.cell, other) {
            Some(cell) => return Some((directed.cell, cell)),
            None => {}
        }
    }
    None
}

/// The first of the cells that is linked with this one.
fn first_linked_to(traffic: &Traffic, cell: CellId, cells: &[DirCell]) -> Option<CellId>
    requires sound { IsGoodTraffic traffic.now }
    requires cell { IsCell traffic.now.inst.now cell }
    requires cells { AreCellsOfTraffic traffic.now cells.now }
    ensures { MatchOption result (HoldsOfEach (IsSeparated traffic.now cell) cells.now) (IsFirstLinkedTo traffic.now cell cells.now) }
{
    for directed in cells {
        if are_linked(traffic, cell, directed.cell) {
            return Some(directed.cell);
        }
    }
    None
}

fn are_linked(traffic: &Traffic, one: CellId, other: CellId) -> bool
    requires sound { IsGoodTraffic traffic.now }
    requires one { IsCell traffic.now.inst.now one }
    requires other { IsCell traffic.now.inst.now other }
    ensures { IsTrue result ↔ AreLinked traffic.now one other }
{
    traffic.classes.linked(one, other)
}
