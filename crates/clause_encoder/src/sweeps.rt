//! The formula of a task over the sweeps of its trains.
ghost use Rattle.std.specs.Prelude.{◌≡◌, IfOk, IfErr};
ghost use Rattle.clause_encoder.specs.SweepTables.{IsSweepEncoding, IsEncodeRefusal};

use crate::encoder::{Encoded, encode_over};
use crate::tables::sweep_tables;
use crate::task::{EncodeRefusal, Task};
use cell_net::Instance;
use std::alloc::Global;
use sweep_table::SweepTable;

/// The formula of the task over the sweeps of its trains, whose tables the map keeps; the bound is that of a free task. Causes
/// of a refusal are looked for in the order of `EncodeRefusal`.
pub fn encode(
    alloc: Global,
    inst: &Instance,
    task: &Task,
    bound: u32,
) -> Result<Encoded, EncodeRefusal>
    ensures ok { IfOk result (λ e. IsSweepEncoding inst.now task.now bound e.formula e.map) }
    ensures err { IfErr result (IsEncodeRefusal inst.now task.now) }
{
    match sweep_tables(alloc, inst) {
        Ok(tables) => match encode_over(alloc, inst, tables.as_slice(), task, bound) {
            Ok(encoded) => Ok(keeping(encoded, tables)),
            Err(refusal) => Err(refusal),
        },
        Err(refusal) => Err(refusal),
    }
}

/// The same, with the tables in the map.
pub(crate) fn keeping(encoded: Encoded, tables: Vec<SweepTable>) -> Encoded
    ensures formula { result.formula ≡ encoded.formula }
    ensures map { result.map ≡ record encoded.map { tables = tables.items } }
{
    Encoded {
        formula: encoded.formula,
        map: encoded.map.keeping(tables),
    }
}
