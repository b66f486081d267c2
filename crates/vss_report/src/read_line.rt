//! The lines of a report, as they are read.
use derivation_log::{Bound, StepText};

/// A line that was read, with the names as they stand in the text.
#[derive(Clone, Copy, Debug)]
pub(crate) enum ReadLine<'a> {
    Header,
    Done,
    Impossible,
    Spent,
    Conflicts(u32),
    BestNone,
    Count(u32),
    Cut { track: &'a [u8], at_m: u32 },
    Joint { name: &'a [u8] },
    Run { train: &'a [u8], start: u32 },
    /// The cells as they stand behind the word `sweep`, a blank before each.
    Sweep { cells: &'a [u8] },
    SmallerNone,
    Refutes(Bound),
    Step(StepText<'a>),
    End,
}
