//! The test of a text: whether it begins with a step, or ends within one.
ghost use Rattle.std.specs.Prelude.{◌≡◌, ◌≢◌, ◌↔◌, IfOk, IfErr, IsTrue, slice_index};
ghost use Rattle.vss_text.specs.Reading.{Misses};
ghost use Rattle.derivation_log.specs.Text.{step_text, IsInRange};
ghost use Rattle.derivation_log.specs.Tested.{BeginsWithStep, IsFrontOfStep};

use crate::list::test_list;
use crate::number::number;
use crate::tested::StepText;
use sat_core::{ClauseId, Lit};
use vss_text::{Miss, after, begins_with};

/// The step at the front of the text, and what follows it. One pass, without memory.
pub fn test_step(text: &[u8]) -> Result<(StepText<'_>, &[u8]), Miss>
    ensures found { IfOk result (λ found. BeginsWithStep text.now found.0 found.1.now) }
    ensures missed { IfErr result (Misses IsInRange step_text text.now) }
{
    if begins_with(text, b'd') {
        test_drop(text)
    } else {
        test_add(text)
    }
}

/// Whether the bytes are a front of the line of some step, or all of it. One pass, without memory.
pub fn is_front_of_step(bytes: &[u8]) -> bool
    ensures { IsTrue result ↔ IsFrontOfStep bytes.now }
{
    match test_step(bytes) {
        Ok((_, rest)) => rest.is_empty(),
        Err(Miss::Short) => true,
        Err(Miss::Wrong) => false,
    }
}

fn test_drop(text: &[u8]) -> Result<(StepText<'_>, &[u8]), Miss>
    requires { slice_index text.now 0 ≡ 100 }
    ensures found { IfOk result (λ found. BeginsWithStep text.now found.0 found.1.now) }
    ensures missed { IfErr result (Misses IsInRange step_text text.now) }
{
    let behind = match after(text, b"d ") {
        Ok(behind) => behind,
        Err(miss) => return Err(miss),
    };
    match test_list::<ClauseId>(behind) {
        Ok((ids, rest)) => Ok((StepText::Drop { ids }, rest)),
        Err(miss) => Err(miss),
    }
}

fn test_add(text: &[u8]) -> Result<(StepText<'_>, &[u8]), Miss>
    requires { slice_index text.now 0 ≢ 100 }
    ensures found { IfOk result (λ found. BeginsWithStep text.now found.0 found.1.now) }
    ensures missed { IfErr result (Misses IsInRange step_text text.now) }
{
    let behind = match after(text, b"a ") {
        Ok(behind) => behind,
        Err(miss) => return Err(miss),
    };
    let (id, behind) = match number(behind) {
        Ok(found) => found,
        Err(miss) => return Err(miss),
    };
    let (lits, behind) = match test_list::<Lit>(behind) {
        Ok(found) => found,
        Err(miss) => return Err(miss),
    };
    let behind = match after(behind, b" ") {
        Ok(behind) => behind,
        Err(miss) => return Err(miss),
    };
    match test_list::<ClauseId>(behind) {
        Ok((hints, rest)) => {
            let id = ClauseId(id);
            Ok((StepText::Add { id, lits, hints }, rest))
        }
        Err(miss) => Err(miss),
    }
}
