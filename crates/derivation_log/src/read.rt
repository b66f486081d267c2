//! The step of a line.
ghost use Rattle.std.specs.Prelude.{◌≡◌, ◌≢◌, IfOk, IsErrOf};
ghost use Rattle.derivation_log.specs.declared.step.Step.{Step};
ghost use Rattle.derivation_log.specs.Text.{step_text, IsInRange, IsLine};

use crate::line_fault::LineFault;
use crate::step::Step;
use crate::testing::test_step;
use std::alloc::Global;

/// The step whose text the line is, without its line feed. The line is tested first, without memory; then each list
/// takes room for just its words.
///
/// `BadLine` exactly where no step with numbers of 1 to 999,999,999 has this text, and `Memory` only where one has.
pub fn read_step(alloc: Global, line: &[u8]) -> Result<Step, LineFault>
    ensures step { IfOk result (λ step. IsInRange step × (line.now ≡ step_text step)) }

    // what was written of a step in range is read back as that step
    ensures only { IfOk result (λ step. (other : Step) → IsInRange other → line.now ≡ step_text other → other ≡ step) }
    ensures bad { IsErrOf result LineFault.BadLine → (step : Step) → IsInRange step → line.now ≢ step_text step }
    ensures tested_first { IsErrOf result LineFault.Memory → IsLine line.now }
{
    let text = match test_step(line) {
        Ok((text, rest)) => {
            if !rest.is_empty() {
                return Err(LineFault::BadLine);
            }
            text
        }
        Err(_) => return Err(LineFault::BadLine),
    };
    match text.read(alloc) {
        Ok(step) => Ok(step),
        Err(_) => Err(LineFault::Memory),
    }
}
