//! The first sweep of a run that doesn't stand where it should.

ghost use Rattle.std.specs.Prelude.{◌≡◌, ◌+◌, ◌<◌, ◌↔◌, ◌^◌, IsTrue, MatchOption, Some, length, slice_get};
ghost use Rattle.vss_lists.specs.Orders.{AreKept, IsFirstBroken};
ghost use Rattle.cell_net.specs.Runs.{Continues};
ghost use Rattle.plan_checker.specs.RunRules.{GoesOnFromBefore, breach_of, rule_of_sweeps, rules_of_sweep};

use crate::breach::Breach;
use cell_net::{DirCell, Instance, Sweep, TrainId, TrainRun, TrainSpec};
use layout_rules::{SweepFault, sweep_fault};

/// The breach of the first sweep that is none of the train or doesn't go on from the one before.
pub(crate) fn first_bad_sweep(
    inst: &Instance,
    id: TrainId,
    train: &TrainSpec,
    run: &TrainRun,
) -> Option<Breach>
    requires train { slice_get inst.now.trains id.0 ≡ Some train.now }
    requires small { run.now.start + length run.now.sweeps < 2 ^ 32 }
    ensures { MatchOption result (rule_of_sweeps inst.now id train.now run.now).kept (rule_of_sweeps inst.now id train.now run.now).told }
{
    let sweeps = run.sweeps.as_slice();
    for place in 0..sweeps.len() {
        if let Some(breach) = sweep_breach(inst, id, train, run, place, &sweeps[place]) {
            return Some(breach);
        }
    }
    None
}

/// The first breach of the sweep at the place of the run.
fn sweep_breach(
    inst: &Instance,
    id: TrainId,
    train: &TrainSpec,
    run: &TrainRun,
    place: usize,
    sweep: &Sweep,
) -> Option<Breach>
    requires train { slice_get inst.now.trains id.0 ≡ Some train.now }
    requires small { run.now.start + place < 2 ^ 32 }
    ensures { MatchOption result (AreKept (rules_of_sweep inst.now id train.now run.now place sweep.now))
        (IsFirstBroken (rules_of_sweep inst.now id train.now run.now place sweep.now)) }
{
    let start = run.start;
    let step = start + place as u32;
    match sweep_fault(inst, id, sweep) {
        Some(fault) => Some(breach_of(fault, id, step)),
        None => {
            if goes_on(train, run.sweeps.as_slice(), place, sweep) {
                None
            } else {
                Some(Breach::Join { train: id, step })
            }
        }
    }
}

fn breach_of(fault: SweepFault, train: TrainId, step: u32) -> Breach
    ensures { result ≡ breach_of fault train step }
{
    match fault {
        SweepFault::Path => Breach::Path { train, step },
        SweepFault::Length => Breach::Length { train, step },
        SweepFault::Speed => Breach::Speed { train, step },
    }
}

fn goes_on(train: &TrainSpec, sweeps: &[Sweep], place: usize, sweep: &Sweep) -> bool
    ensures { IsTrue result ↔ GoesOnFromBefore train.now sweeps.now place sweep.now }
{
    match place.checked_sub(1) {
        None => true,
        Some(before) => match sweeps.get(before) {
            None => true,
            Some(last) => continues(train, last.cells.as_slice(), sweep.cells.as_slice()),
        },
    }
}

/// Whether the next sweep begins with the last cells of this one, as many as the train is long.
fn continues(train: &TrainSpec, cells: &[DirCell], next: &[DirCell]) -> bool
    ensures { IsTrue result ↔ Continues train.now cells.now next.now }
{
    let length = train.length as usize;
    let kept = &cells[cells.len().saturating_sub(length)..];
    let begun = &next[..length.min(next.len())];
    are_same(kept, begun)
}

fn are_same(one: &[DirCell], other: &[DirCell]) -> bool
    ensures { IsTrue result ↔ (one.now ≡ other.now) }
{
    one.len() == other.len() && agree(one, other)
}

fn agree(one: &[DirCell], other: &[DirCell]) -> bool
    requires { length one.now ≡ length other.now }
    ensures { IsTrue result ↔ (one.now ≡ other.now) }
{
    for place in 0..one.len() {
        if !is_same(one[place], other[place]) {
            return false;
        }
    }
    true
}

/// Whether the two are the same directed cell.
pub(crate) fn is_same(one: DirCell, other: DirCell) -> bool
    ensures { IsTrue result ↔ (one ≡ other) }
{
    one == other
}
