//! The numbers of all trains, of each behind those of the one before.
ghost use Rattle.std.specs.Prelude.{◌≡◌, ◌≤◌, ◌+◌, length, IfOk, IfErr};
ghost use Rattle.clause_list.specs.Coding.{coded_from, behind_all};
ghost use Rattle.clause_encoder.specs.declared.limits.TheConstants.{VARIABLES};
ghost use Rattle.clause_encoder.specs.TrainFaults.{IsNumberFault};
ghost use Rattle.clause_encoder.specs.TableLists.{tables_of, AreMadeFor};

use crate::build::NumberFault;
use crate::family::table_of;
use crate::limits::VARIABLES;
use crate::train::TrainNumbers;
use cell_net::{Instance, TrainId};
use std::alloc::Global;
use sweep_table::Moves;

/// The numbers of the variables of all trains, from `first` on, by the tables of their moves, and the number behind them; one train's passes end
/// before the next one's begin.
pub(crate) fn numbers_of<M: Moves>(
    alloc: Global,
    inst: &Instance,
    tables: &[M],
    first: u32,
) -> Result<(Vec<TrainNumbers>, u32), NumberFault>
    requires made_for { AreMadeFor M.is_made_for inst.now tables.now }
    requires for_each { length tables.now ≡ length inst.now.trains }
    requires first { (1 ≤ first) × (first ≤ VARIABLES + 1) }
    ensures ok { IfOk result (λ trains. trains.0.items ≡ coded_from inst.now first (tables_of M.table inst.now tables.now) inst.now.trains) }
    ensures behind { IfOk result (λ trains. trains.1 ≡ behind_all first trains.0.items) }
    ensures few { IfOk result (λ trains. trains.1 ≤ VARIABLES + 1) }
    ensures err { IfErr result (IsNumberFault (behind_all first (coded_from inst.now first (tables_of M.table inst.now tables.now) inst.now.trains))) }
{
    let mut trains = Vec::new(alloc);
    let mut next = first;
    for place in 0..inst.train_count() {
        let train = inst.train(TrainId(place));
        let table = table_of(tables, place);
        match TrainNumbers::build(alloc, inst, table, train, next) {
            Ok(numbers) => {
                next = numbers.behind();
                match trains.push(numbers) {
                    Ok(()) => {}
                    Err(_) => return Err(NumberFault::Memory),
                }
            }
            Err(fault) => return Err(fault),
        }
    }
    Ok((trains, next))
}
