//! Laws of the ends of tasks, which a call hands to its caller's proof. The calls do nothing.
ghost use Rattle.cell_net.specs.declared.parts.InstanceParts.{InstanceParts};
ghost use Rattle.task_driver.specs.TaskEnds.{OutcomesAreTrue, RefutationsAreTrue, SearchesEndAlike, ChecksAreOne};

use formula_laws::formulas_are_one;
use log_checker::verdicts_are_one;
use plan_values::refuted_tasks_are_impossible;
use sat_core::refutations_are_sound;

/// What a search answers is true of layouts and plans: a design is lawful, the least one has the fewest borders, and what is
/// told to be impossible is. Where a check finds that a log refutes, nothing within its bound is feasible.
pub fn outcomes_are_true()
    ensures outcomes { (p : InstanceParts) → OutcomesAreTrue p }
    ensures refutations { (p : InstanceParts) → RefutationsAreTrue p }
{
    refutations_are_sound();
    refuted_tasks_are_impossible();
}

/// Of two searches for one answer both are refused alike for their size, or none is; but for want of memory.
pub fn searches_end_alike()
    ensures { (p : InstanceParts) → SearchesEndAlike p }
{
    formulas_are_one();
}

/// Two checks of one refutation end alike, but for want of memory.
pub fn checks_are_one()
    ensures { (p : InstanceParts) → ChecksAreOne p }
{
    formulas_are_one();
    verdicts_are_one();
}
