//! Sweeps: what a train touches in one step.

ghost use Rattle.std.specs.Prelude.{◌≡◌, ◌<◌, ◌↔◌, All, IsTrue, MatchOption, Some, length, slice_get};
ghost use Rattle.cell_net.specs.Runs.{IsSlowEnough, IsSweep, IsWithinLimit};
ghost use Rattle.cell_net.specs.Space.{IsCell};
ghost use Rattle.layout_rules.specs.Faults.{IsSweepFaultOf};
ghost use Rattle.cell_net.specs.declared.trains.TrainSpec.{TrainSpec};

use crate::paths::is_track_path;
use cell_net::{DirCell, Instance, Sweep, TrainId, TrainSpec};

/// Why a list of directed cells is no sweep of a train: the first in this order.
#[derive(Clone, Copy, Debug, PartialEq, Eq)]
pub enum SweepFault {
    /// No track path: empty, with a cell out of range, with cells that don't follow each other, or
    /// with a cell twice.
    Path,
    /// Fewer cells than the train is long.
    Length,
    /// An advance above the train's greatest one or above the limit of one of the cells.
    Speed,
}

/// What is wrong with the sweep, if it isn't one of the train; linear in its cells, without memory.
pub fn sweep_fault(inst: &Instance, train: TrainId, sweep: &Sweep) -> Option<SweepFault>
    requires { train.0 < length inst.now.trains }
    ensures { (t : TrainSpec) → slice_get inst.now.trains train.0 ≡ Some t →
        MatchOption result (IsSweep inst.now t sweep.now.cells) (IsSweepFaultOf inst.now t sweep.now.cells) }
{
    fault_of(inst, inst.train(train), sweep.cells.as_slice())
}

fn fault_of(inst: &Instance, train: &TrainSpec, cells: &[DirCell]) -> Option<SweepFault>
    ensures { MatchOption result (IsSweep inst.now train.now cells.now) (IsSweepFaultOf inst.now train.now cells.now) }
{
    if !is_track_path(inst, cells) {
        return Some(SweepFault::Path);
    }
    if cells.len() < train.length as usize {
        return Some(SweepFault::Length);
    }
    if !is_slow_enough(inst, train, cells) {
        return Some(SweepFault::Speed);
    }
    None
}

fn is_slow_enough(inst: &Instance, train: &TrainSpec, cells: &[DirCell]) -> bool
    requires { All (λ d. IsCell inst.now d.cell) cells.now }
    ensures { IsTrue result ↔ IsSlowEnough inst.now train.now cells.now }
{
    let count = cells.len() as u64;
    count <= u64::from(train.length) + u64::from(train.advance)
        && are_within_limits(inst, train, count, cells)
}

fn are_within_limits(inst: &Instance, train: &TrainSpec, count: u64, cells: &[DirCell]) -> bool
    requires { All (λ d. IsCell inst.now d.cell) cells.now }
    ensures { IsTrue result ↔ All (IsWithinLimit inst.now train.now count) cells.now }
{
    for directed in cells {
        if !is_within_limit(inst, train, count, *directed) {
            return false;
        }
    }
    true
}

fn is_within_limit(inst: &Instance, train: &TrainSpec, count: u64, directed: DirCell) -> bool
    requires { IsCell inst.now directed.cell }
    ensures { IsTrue result ↔ IsWithinLimit inst.now train.now count directed }
{
    let limit = inst.cell(directed.cell).limit;
    count <= u64::from(train.length) + u64::from(limit)
}
