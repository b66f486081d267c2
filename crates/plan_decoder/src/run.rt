//! The run of one train.
ghost use Rattle.std.specs.Prelude.{◌≡◌, ◌<◌, map, All, IfOk};
ghost use Rattle.plan_laws.specs.Chains.{sweep_of};
ghost use Rattle.plan_laws.specs.Telling.{IsInside, told_run};

use crate::chain::{chain_from, entry_at, first_step};
use cell_net::{Instance, Sweep, TrainRun};
use clause_encoder::TrainNumbers;
use std::alloc::{AllocError, Global};
use sweep_table::{Moves, SweepId};
use vss_lists::Items;

/// The run that the valuation tells of the train.
pub(crate) fn run_of<M: Moves>(
    alloc: Global,
    inst: &Instance,
    values: &[bool],
    table: &M,
    train: &TrainNumbers,
) -> Result<TrainRun, AllocError>
    requires made_for { M.is_made_for table.now inst.now }
    requires inside { IsInside values.now (M.table table.now inst.now) train.now }
    ensures { IfOk result (λ run. run ≡ told_run values.now (M.table table.now inst.now) train.now) }
{
    let _count = table.len();
    let start = first_step(values, train);
    let entry = entry_at(inst, values, table, train, start);
    let items = chain_from(alloc, inst, values, table, train, start, entry)?;
    let sweeps = sweeps_of(alloc, inst, table, items.as_slice())?;
    Ok(TrainRun {
        start,
        sweeps: Items::from_vec(sweeps),
    })
}

/// What the items touch, one after another.
fn sweeps_of<M: Moves>(
    alloc: Global,
    inst: &Instance,
    table: &M,
    items: &[SweepId],
) -> Result<Vec<Sweep>, AllocError>
    requires { All (λ v. v.0 < M.items table.now) items.now }
    ensures { IfOk result (λ sweeps. sweeps.items ≡ map (sweep_of (M.table table.now inst.now)) items.now) }
{
    let mut sweeps = Vec::new(alloc);
    for place in 0..items.len() {
        let cells = Vec::from_slice(alloc, table.cells(items[place]))?;
        sweeps.push(Sweep {
            cells: Items::from_vec(cells),
        })?;
    }
    Ok(sweeps)
}
