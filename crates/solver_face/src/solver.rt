//! The contract under which every solver stands.
ghost use Rattle.std.specs.Prelude.{◌≡◌, ◌≢◌, ◌+◌, ◌-◌, ◌^◌, ◌<◌, ◌↔◌, ◌++◌, ◌∷◌, [], Some, None, false, IsTrue, IfOk, OnOk, OnErr, IsErr};
ghost use Rattle.derivation_log.specs.Steps.{derived_steps};
ghost use Rattle.sat_core.specs.Clauses.{IsOver};
ghost use Rattle.sat_core.specs.Search.{gives, log_of, units_of, adds_in};
ghost use Rattle.solver_face.specs.Solving.{Solving, IsSound, numbers_used, IsRefuted, Searched, IsAnswer};

use crate::answer::Answer;
use crate::budget::Budget;
use derivation_log::Log;
use sat_core::{Formula, Lit, Valuation};
use std::alloc::AllocError;
use std::sync::ledger::Ledger;
use vss_steps::Steps;

/// Searches for a valuation that satisfies a formula and the units given to it, or for a log that refutes them.
///
/// The clauses of the formula have the numbers from 1 on; each unit and each learned clause takes the next number. After
/// want of memory a solver answers it from then on.
pub trait Solver: Sized + Drop {
    // what contracts see of the solver
    ghost solving: { Self → Solving };

    /// A solver of that formula, with no unit and an empty log. Want of memory stands alone.
    fn new(formula: Formula) -> Result<Self, AllocError>
        ensures vars { IfOk result (λ s. (solving s).vars ≡ formula.vars) }
        ensures formula { IfOk result (λ s. (solving s).formula ≡ formula.clauses) }
        ensures nothing_yet { IfOk result (λ s. (solving s).events ≡ []) }
        ensures fed { IfOk result (λ s. (solving s).starved ≡ false) };

    /// One more clause of one literal, under the next number. The formula, the earlier units, the log and the valuation
    /// that was found stay as they were.
    fn add_unit(&mut self, lit: Lit) -> Result<(), AllocError>
        requires over { IsOver (solving self.old).vars lit }
        requires numbered { numbers_used (solving self.old) < 2 ^ 32 - 1 }
        ensures vars { (solving self.new).vars ≡ (solving self.old).vars }
        ensures formula { (solving self.new).formula ≡ (solving self.old).formula }
        ensures found { (solving self.new).found ≡ (solving self.old).found }
        ensures ok { OnOk result ((solving self.new).events ≡ (solving self.old).events ++ gives lit ∷ []) }
        ensures err { OnErr result ((solving self.new).events ≡ (solving self.old).events) }
        ensures numbers { OnOk result (numbers_used (solving self.new) ≡ numbers_used (solving self.old) + 1) }
        ensures units { OnOk result (units_of (solving self.new).events ≡ units_of (solving self.old).events ++ lit ∷ []) }
        ensures log { log_of (solving self.new).events ≡ log_of (solving self.old).events }
        ensures sound { IsSound (solving self.new) }
        ensures starved { IsTrue (solving self.new).starved ↔ IsErr result }
        ensures stays_starved { IsTrue (solving self.old).starved → IsErr result };

    /// Searches until a valuation is found, the log refutes, or the budget is used up. Each conflict spends one of the
    /// budget and adds one clause to the log, and nothing else does; a conflict that finds no memory changes nothing.
    /// Only visits of clauses through watches tick.
    fn solve<L: Ledger>(
        &mut self,
        budget: &mut Budget,
        steps: &mut Steps<L>,
    ) -> Result<Answer, AllocError>
        requires budget { 0 < budget.old }
        requires numbered { numbers_used (solving self.old) + budget.old < 2 ^ 32 }
        ensures searched { Searched (solving self.old) (solving self.new) budget.old budget.new }
        ensures numbers { numbers_used (solving self.new) + budget.new ≡ numbers_used (solving self.old) + budget.old }
        ensures units { units_of (solving self.new).events ≡ units_of (solving self.old).events }
        ensures answer { IfOk result (IsAnswer (solving self.new) budget.new) }
        ensures stays_refuted { IsRefuted (solving self.old) → IfOk result (λ answer. answer ≡ Answer.Unsat) }
        ensures starved { IsTrue (solving self.new).starved ↔ IsErr result }
        ensures stays_starved { IsTrue (solving self.old).starved → IsErr result };

    /// The valuation that the last `solve` found.
    fn valuation(&self) -> &Valuation
        requires { (solving self.now).found ≢ None }
        ensures { (solving self.now).found ≡ Some result.now.values };

    /// The steps that were derived.
    fn log(&self) -> &Log
        ensures steps { derived_steps result.now.steps ≡ log_of (solving self.now).events }
        ensures sound { IsSound (solving self.now) };

    /// How many conflicts were met: how many clauses the log adds.
    fn conflicts(&self) -> u32
        ensures { result ≡ adds_in (log_of (solving self.now).events) };

    /// What `log` shows, handed out without memory.
    fn into_log(self) -> Log
        ensures { derived_steps result.steps ≡ log_of (solving self).events };
}
