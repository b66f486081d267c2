//! What the plain solver keeps.
ghost use Rattle.std.specs.Prelude.{◌≡◌, IfOk, []};
ghost use Rattle.plain_solver.specs.States.{IsState, events_of, clauses_given};

use conflict_learn::LearnSpace;
use derivation_log::Log;
use sat_core::{Formula, Lit, Valuation};
use search_trail::Trail;
use std::alloc::AllocError;
use vss_lists::Items;

/// All that the solver knows but whether it met want of memory.
#[derive(Drop)]
pub(crate) struct State {
    // the formula's, the units and the learned ones, in the order of their numbers
    pub(crate) clauses: Formula,
    // how many of them are the formula's
    pub(crate) given: u32,
    // of each clause behind these: the unit that was given, or none where it was learned
    pub(crate) history: Vec<Option<Lit>>,
    pub(crate) log: Log,
    pub(crate) trail: Trail,
    pub(crate) space: LearnSpace,
    pub(crate) valuation: Valuation,
    pub(crate) found: bool,
    pub(crate) refuted: bool,
}

/// Nothing is given or derived yet. Linear in the variables.
pub(crate) fn begin(formula: Formula) -> Result<State, AllocError>
    ensures state { IfOk result IsState }
    ensures vars { IfOk result (λ s. s.clauses.vars ≡ formula.vars) }
    ensures formula { IfOk result (λ s. clauses_given s ≡ formula.clauses) }
    ensures nothing_yet { IfOk result (λ s. events_of s ≡ []) }
{
    let alloc = formula.allocator();
    let trail = Trail::new(alloc, formula.vars())?;
    let space = LearnSpace::new(alloc, formula.vars())?;
    let values = vec![in alloc; false; formula.vars() as usize]?;
    Ok(State {
        given: formula.len(),
        clauses: formula,
        history: Vec::new(alloc),
        log: Log {
            steps: Items::new(alloc),
        },
        trail,
        space,
        valuation: Valuation {
            values: Items::from_vec(values),
        },
        found: false,
        refuted: false,
    })
}
