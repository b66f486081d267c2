//! Whether a run is one of its train, or its first breach.

ghost use Rattle.std.specs.Prelude.{◌≡◌, ◌+◌, ◌-◌, ◌<◌, ◌↔◌, ◌^◌, IfOk, IsTrue, MatchOption, Some, length, slice_get};
ghost use Rattle.vss_lists.specs.Orders.{IsFirstBroken};
ghost use Rattle.cell_net.specs.Rules.{IsInstance};
ghost use Rattle.cell_net.specs.Runs.{Arrives, Enters, IsRun};
ghost use Rattle.cell_net.specs.declared.trains.TrainSpec.{TrainSpec};
ghost use Rattle.plan_checker.specs.RunRules.{rules_of_run};

use crate::breach::Breach;
use crate::stops::first_unmet_stop;
use crate::sweeps::{first_bad_sweep, is_same};
use cell_net::{DirCell, Instance, TrainId, TrainRun, TrainSpec};
use std::alloc::{AllocError, Global};

/// The first breach of the run of the train of that number, if it has one; linear in the cells of its
/// sweeps and, for each stop, in the cells of the instance.
pub(crate) fn run_breach(
    alloc: Global,
    inst: &Instance,
    id: TrainId,
    run: &TrainRun,
) -> Result<Option<Breach>, AllocError>
    requires train { id.0 < length inst.now.trains }
    requires short { length run.now.sweeps < 2000000000 }
    ensures { (t : TrainSpec) → slice_get inst.now.trains id.0 ≡ Some t →
        IfOk result (λ found. MatchOption found (IsRun inst.now t run.now) (IsFirstBroken (rules_of_run inst.now id t run.now))) }
{
    breach_of_run(alloc, inst, id, inst.train(id), run)
}

fn breach_of_run(
    alloc: Global,
    inst: &Instance,
    id: TrainId,
    train: &TrainSpec,
    run: &TrainRun,
) -> Result<Option<Breach>, AllocError>
    requires rules { IsInstance inst.now }
    requires train { slice_get inst.now.trains id.0 ≡ Some train.now }
    requires short { length run.now.sweeps < 2000000000 }
    ensures { IfOk result (λ found. MatchOption found (IsRun inst.now train.now run.now)
        (IsFirstBroken (rules_of_run inst.now id train.now run.now))) }
{
    if !enters(train, run) {
        return Ok(Some(Breach::Entry { train: id }));
    }
    if let Some(breach) = first_bad_sweep(inst, id, train, run) {
        return Ok(Some(breach));
    }
    if !arrives(train, run) {
        let step = last_step(run);
        return Ok(Some(Breach::Late { train: id, step }));
    }
    match first_unmet_stop(alloc, inst, train, run)? {
        None => Ok(None),
        Some(stop) => Ok(Some(Breach::Stop { train: id, stop })),
    }
}

/// Whether the run begins within the train's window of entry, with its entry cell.
fn enters(train: &TrainSpec, run: &TrainRun) -> bool
    ensures { IsTrue result ↔ Enters train.now run.now }
{
    train.start <= run.start
        && run.start <= train.latest
        && match run.sweeps.get(0) {
            None => false,
            Some(first) => begins_with(first.cells.as_slice(), train.entry),
        }
}

fn begins_with(cells: &[DirCell], entry: DirCell) -> bool
    ensures { IsTrue result ↔ (slice_get cells.now 0 ≡ Some entry) }
{
    match cells.first() {
        None => false,
        Some(first) => is_same(*first, entry),
    }
}

/// Whether the last sweep ends with the goal cell, in time.
fn arrives(train: &TrainSpec, run: &TrainRun) -> bool
    requires { length run.now.sweeps < 2000000000 }
    ensures { IsTrue result ↔ Arrives train.now run.now }
{
    let sweeps = run.sweeps.as_slice();
    let by = u64::from(train.by);
    let end = u64::from(run.start) + sweeps.len() as u64;
    match sweeps.last() {
        None => false,
        Some(last) => { end <= by + 1 && ends_with(last.cells.as_slice(), train.goal) }
    }
}

fn ends_with(cells: &[DirCell], goal: DirCell) -> bool
    ensures { IsTrue result ↔ (slice_get cells.now (length cells.now - 1) ≡ Some goal) }
{
    match cells.last() {
        None => false,
        Some(last) => is_same(*last, goal),
    }
}

/// The step of the last sweep.
fn last_step(run: &TrainRun) -> u32
    requires some { 0 < length run.now.sweeps }
    requires small { run.now.start + length run.now.sweeps < 2 ^ 32 }
    ensures { result ≡ run.now.start + length run.now.sweeps - 1 }
{
    let start = run.start;
    start + (run.sweeps.len() as u32 - 1)
}
