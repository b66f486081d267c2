//! The formula of a bound.
ghost use Rattle.std.specs.Prelude.{◌≡◌, IfErr, IfOk};
ghost use Rattle.clause_encoder.specs.SweepTables.{IsEncodeRefusal};
ghost use Rattle.task_driver.specs.TaskEnds.{bound_task};
ghost use Rattle.task_driver.specs.Encodings.{IsBoundEncoding};

use cell_net::{Instance, Layout, layout_refusals_are_exclusive};
use clause_encoder::{EncodeRefusal, Encoded, Task, encode};
use derivation_log::Bound;
use std::alloc::{AllocError, Global};

/// The formula of the bound, and where its variables stand. Linear in its literals, beside what tables and walks take.
pub(crate) fn encode_bound(
    alloc: Global,
    inst: &Instance,
    bound: Bound,
) -> Result<Encoded, EncodeRefusal>
    ensures ok { IfOk result (λ e. IsBoundEncoding inst.now bound e.formula e.map) }
    ensures err { IfErr result (IsEncodeRefusal inst.now (bound_task inst.now bound)) }
{
    match bound {
        Bound::Given => match kept_layout(alloc, inst) {
            Ok(layout) => encode(alloc, inst, &Task::Given(layout), 0),
            Err(_) => Err(EncodeRefusal::Memory),
        },
        Bound::AtMost(most) => encode(alloc, inst, &Task::Free, most),
    }
}

/// The layout of the kept borders alone.
fn kept_layout(alloc: Global, inst: &Instance) -> Result<Layout, AllocError>
    ensures { IfOk result (λ layout. layout ≡ inst.now.kept) }
{
    // for the proof alone: kept borders are a layout, and few
    let _parts = inst.parts();
    let mut borders = Vec::new(alloc);
    borders.extend_from_slice(inst.kept())?;
    layout_refusals_are_exclusive();
    match Layout::new(inst, borders) {
        Ok(layout) => Ok(layout),
        Err(_) => unreachable!(),
    }
}
