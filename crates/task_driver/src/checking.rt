//! Checking a refutation that was read.
ghost use Rattle.std.specs.Prelude.{◌<◌, ◌^◌, length};
ghost use Rattle.task_driver.specs.TaskEnds.{IsCheckEnd};

use crate::formulas::encode_bound;
use cell_net::Instance;
use clause_encoder::EncodeRefusal;
use derivation_log::Refutation;
use log_checker::{LogVerdict, check_log};
use std::alloc::Global;

/// What the log of the refutation shows of the formula of its bound: with a bound of all candidates or more, of the formula
/// without a unit. A refusal of size comes first. Linear in the literals of the formula and in the hints of the log.
pub fn check(
    alloc: Global,
    inst: &Instance,
    refutation: &Refutation,
) -> Result<LogVerdict, EncodeRefusal>
    requires { length refutation.now.log.steps < 2 ^ 32 }
    ensures { IsCheckEnd inst.now refutation.now result }
{
    let encoded = encode_bound(alloc, inst, refutation.bound)?;
    match check_log(encoded.formula, &refutation.log) {
        Ok(verdict) => Ok(verdict),
        Err(_) => Err(EncodeRefusal::Memory),
    }
}
