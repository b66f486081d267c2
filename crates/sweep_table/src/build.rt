//! How the table of a train's sweeps is made.
ghost use Rattle.std.specs.Prelude.{◌≡◌, ◌<◌, ◌≤◌, IfErr, IfOk, Some, length, slice_get};
ghost use Rattle.cell_net.specs.declared.trains.TrainSpec.{TrainSpec};
ghost use Rattle.sweep_table.specs.Parts.{IsOfTrain, table_of};
ghost use Rattle.sweep_table.specs.Tables.{IsTable};
ghost use Rattle.sweep_table.specs.Sweeps.{AreSweepsOf, IsTableOf, IsTableRefusal};

use crate::ends::{firsts_of, lasts_of};
use crate::groups::grouped;
use crate::grow::gather;
use crate::refusal::TableRefusal;
use crate::successors::successors_of;
use crate::table::SweepTable;
use cell_net::{DirCell, Instance, TrainId, TrainSpec};
use std::alloc::{AllocError, Global};
use vss_rows::Rows;

impl SweepTable {
    /// The table of the train's sweeps. Where no way along the passages comes back to a cell, it is linear in
    /// the directed cells of the sweeps, times the cells of one, up to a search for each sweep and a sort of
    /// the joins, and in the train's length times the cells and the joins. Where ways come back, more paths
    /// may be tried.
    pub fn build(alloc: Global, inst: &Instance, train: TrainId) -> Result<SweepTable, TableRefusal>
        requires { train.0 < length inst.now.trains }
        ensures sweeps { (t : TrainSpec) → slice_get inst.now.trains train.0 ≡ Some t → IfOk result (λ table. IsTableOf inst.now t (table_of inst.now table)) }
        ensures rules { IfOk result (λ table. IsTable inst.now (table_of inst.now table)) }
        ensures few { IfOk result (λ table. length table.sweeps ≤ 50000) }
        ensures refusal { (t : TrainSpec) → slice_get inst.now.trains train.0 ≡ Some t → IfErr result (IsTableRefusal inst.now t) }
    {
        let _parts = inst.parts();
        build_of(alloc, inst, inst.train(train))
    }
}

fn build_of(alloc: Global, inst: &Instance, train: &TrainSpec) -> Result<SweepTable, TableRefusal>
    requires { IsOfTrain inst.now train.now }
    ensures sweeps { IfOk result (λ table. IsTableOf inst.now train.now (table_of inst.now table)) }
    ensures rules { IfOk result (λ table. IsTable inst.now (table_of inst.now table)) }
    ensures few { IfOk result (λ table. length table.sweeps ≤ 50000) }
    ensures refusal { IfErr result (IsTableRefusal inst.now train.now) }
{
    match sweeps_of(alloc, inst, train) {
        Ok(sweeps) => match linked(alloc, inst, train, sweeps) {
            Ok(table) => Ok(table),
            Err(_) => Err(TableRefusal::Memory),
        },
        Err(refusal) => Err(refusal),
    }
}

/// Each sweep of the train once, in order.
fn sweeps_of(
    alloc: Global,
    inst: &Instance,
    train: &TrainSpec,
) -> Result<Rows<DirCell>, TableRefusal>
    requires { IsOfTrain inst.now train.now }
    ensures sweeps { IfOk result (AreSweepsOf inst.now train.now) }
    ensures few { IfOk result (λ sweeps. length sweeps ≤ 50000) }
    ensures refusal { IfErr result (IsTableRefusal inst.now train.now) }
{
    match successors_of(alloc, inst) {
        Ok(after) => gather(alloc, inst, &after, train.length, train.advance + 1),
        Err(_) => Err(TableRefusal::Memory),
    }
}

/// The table of the sweeps, by the places of their first and last cells.
fn linked(
    alloc: Global,
    inst: &Instance,
    train: &TrainSpec,
    sweeps: Rows<DirCell>,
) -> Result<SweepTable, AllocError>
    requires of { IsOfTrain inst.now train.now }
    requires sweeps { AreSweepsOf inst.now train.now sweeps }
    requires few { length sweeps ≤ 50000 }
    ensures sweeps { IfOk result (λ table. IsTableOf inst.now train.now (table_of inst.now table)) }
    ensures rules { IfOk result (λ table. IsTable inst.now (table_of inst.now table)) }
    ensures few { IfOk result (λ table. length table.sweeps ≤ 50000) }
{
    let firsts = firsts_of(alloc, &sweeps, train.length as usize)?;
    let lasts = lasts_of(alloc, &sweeps, train.length as usize)?;
    let starting = grouped(alloc, &firsts)?;
    let ending = grouped(alloc, &lasts)?;
    Ok(SweepTable {
        train: train.length,
        entry: train.entry,
        goal: train.goal,
        sweeps,
        firsts,
        lasts,
        starting,
        ending,
    })
}
