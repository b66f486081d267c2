//! The runs of all trains.
ghost use Rattle.std.specs.Prelude.{◌≡◌, ◌<◌, ℕ, length, IfOk};
ghost use Rattle.clause_list.specs.WholeList.{table_at, train_at};
ghost use Rattle.clause_encoder.specs.TableLists.{tables_of, AreMadeFor};
ghost use Rattle.plan_laws.specs.Telling.{IsInside, told_plan};

use crate::run::run_of;
use cell_net::{Instance, Plan, TrainId};
use clause_encoder::VarMap;
use std::alloc::{AllocError, Global};
use sweep_table::Moves;
use vss_lists::Items;

/// The plan that the valuation tells: a run for each train.
pub(crate) fn plan_of<M: Moves>(
    alloc: Global,
    inst: &Instance,
    values: &[bool],
    tables: &[M],
    map: &VarMap,
) -> Result<Plan, AllocError>
    requires made_for { AreMadeFor M.is_made_for inst.now tables.now }
    requires table_for_each { length tables.now ≡ length inst.now.trains }
    requires numbers_for_each { length map.now.trains ≡ length inst.now.trains }
    requires inside { (i : ℕ) → i < length inst.now.trains → IsInside values.now (table_at (tables_of M.table inst.now tables.now) i) (train_at map.now.trains i) }
    ensures { IfOk result (λ plan. plan ≡ told_plan values.now (tables_of M.table inst.now tables.now) map.now.trains) }
{
    let mut runs = Vec::new(alloc);
    for train in 0..inst.train_count() {
        let table = &tables[train as usize];
        let run = run_of(alloc, inst, values, table, map.numbers(TrainId(train)))?;
        runs.push(run)?;
    }
    Ok(Plan {
        runs: Items::from_vec(runs),
    })
}
