//! The law of jobs, for the proofs of callers.

ghost use Rattle.vss_jobs.specs.Laws.{JobsAreOne};

use discretise::scenes_are_one;
use net_reader::network_readings_are_one;
use timetable::timetable_readings_are_one;
use vss_report::{design_readings_are_one, refutation_readings_are_one};

/// Words and told files make one job. A call does nothing; it gives its caller's proof this law.
pub fn jobs_are_one()
    ensures { JobsAreOne }
{
    network_readings_are_one();
    timetable_readings_are_one();
    scenes_are_one();
    design_readings_are_one();
    refutation_readings_are_one();
}
