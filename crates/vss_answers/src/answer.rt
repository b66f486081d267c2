//! What a task answers.

use cell_net::{Instance, Labels};
use derivation_log::Bound;
use plan_checker::Breach;
use sat_core::StepFault;
use vss_lists::Items;
use vss_report::Outcome;

/// What a task answers. Lines are those of the report, counted from 1.
#[derive(Debug, Drop)]
pub enum Answer {
    /// The plan is lawful for the layout of so many borders.
    Lawful {
        borders: usize,
    },
    /// The plan isn't lawful; this is the first breach, of what these labels name.
    Breach {
        breach: Breach,
        labels: Labels,
    },
    /// The log refutes the formula of this bound.
    Proved {
        bound: Bound,
    },
    /// The step on this line is the first that isn't accepted.
    NotProved {
        line: u64,
        fault: StepFault,
    },
    /// Every step is accepted, and the last one adds no empty clause; this is the line behind the log.
    NoEmptyClause {
        line: u64,
    },
    /// A search ended so, in what these labels name.
    Found {
        outcome: Outcome,
        labels: Labels,
    },
    /// The documents of a made case.
    Made {
        network: Items<u8>,
        timetable: Items<u8>,
    },
    /// A search of a made scene with this instance ended so.
    Tried {
        outcome: Outcome,
        inst: Instance,
    },
}
