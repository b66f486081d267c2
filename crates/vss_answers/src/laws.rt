//! The laws of answers, for the proofs of callers. The calls do nothing.

ghost use Rattle.vss_answers.specs.Laws.{AnswersAreOne, AnswersAreTrue};

use plan_checker::first_breaches_are_one;
use task_driver::{checks_are_one, outcomes_are_true, searches_end_alike};

/// One answer to a job is right, but for what a search finds; and whether that is refused for its size is one answer, too.
pub fn answers_are_one()
    ensures { AnswersAreOne }
{
    first_breaches_are_one();
    checks_are_one();
    searches_end_alike();
}

/// A right answer is true by the rules of layouts and plans alone: what a search tells to be impossible is, the fewest
/// borders are the fewest, and within a bound that is proved to be too few nothing is feasible.
pub fn answers_are_true()
    ensures { AnswersAreTrue }
{
    outcomes_are_true();
}
