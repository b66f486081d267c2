//! The tables of the sweeps of all trains.
ghost use Rattle.std.specs.Prelude.{◌≡◌, length, IfOk, IfErr};
ghost use Rattle.clause_encoder.specs.SweepTables.{HaveTables, IsSweepRefusal, swept_refusal};

use crate::task::EncodeRefusal;
use cell_net::{Instance, TrainId};
use std::alloc::Global;
use sweep_table::{SweepTable, TableRefusal};

/// The table of each train's sweeps, or the first train that has too many.
pub(crate) fn sweep_tables(alloc: Global, inst: &Instance) -> Result<Vec<SweepTable>, EncodeRefusal>
    ensures ok { IfOk result (λ tables. HaveTables inst.now (length inst.now.trains) tables.items) }
    ensures err { IfErr result (IsSweepRefusal inst.now) }
{
    let mut tables = Vec::new(alloc);
    for place in 0..inst.train_count() {
        let _train = inst.train(TrainId(place));
        match SweepTable::build(alloc, inst, TrainId(place)) {
            Ok(table) => match tables.push(table) {
                Ok(()) => {}
                Err(_) => return Err(EncodeRefusal::Memory),
            },
            Err(refusal) => return Err(refusal_of(refusal, TrainId(place))),
        }
    }
    Ok(tables)
}

// Why there is no formula, where a train has no table.
fn refusal_of(refusal: TableRefusal, train: TrainId) -> EncodeRefusal
    ensures { result ≡ swept_refusal refusal train }
{
    match refusal {
        TableRefusal::TooManySweeps => EncodeRefusal::TooManySweeps(train),
        TableRefusal::Memory => EncodeRefusal::Memory,
    }
}
