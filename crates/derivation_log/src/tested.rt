//! Steps at the front of a text, tested without memory.
ghost use Rattle.std.specs.Prelude.{◌≡◌, IfOk};
ghost use Rattle.derivation_log.specs.Text.{IsInRange};

use crate::list::{ListText, read_list};
use crate::step::Step;
use sat_core::{ClauseId, Lit};
use std::alloc::{AllocError, Global};

/// The text of a step that is well formed.
#[derive(Clone, Copy, Debug)]
pub enum StepText<'a> {
    Add {
        id: ClauseId,
        lits: ListText<'a>,
        hints: ListText<'a>,
    },
    Drop {
        ids: ListText<'a>,
    },
}

impl<'a> StepText<'a> {
    ghost use Rattle.derivation_log.specs.Tested.{IsTextOf, IsTested};
    ghost use Rattle.derivation_log.specs.declared.step.Step.{Step};

    /// The step. Takes room for just its words; linear in the text.
    pub fn read(&self, alloc: Global) -> Result<Step, AllocError>
        requires { IsTested self.now }
        ensures in_range { IfOk result IsInRange }
        ensures only { IfOk result (λ step. (other : Step) → IsInRange other → IsTextOf self.now other → other ≡ step) }
    {
        match self {
            StepText::Add { id, lits, hints } => {
                let lits = read_list::<Lit>(alloc, lits)?;
                let hints = read_list::<ClauseId>(alloc, hints)?;
                Ok(Step::Add {
                    id: *id,
                    lits,
                    hints,
                })
            }
            StepText::Drop { ids } => {
                let ids = read_list::<ClauseId>(alloc, ids)?;
                Ok(Step::Drop { ids })
            }
        }
    }
}
