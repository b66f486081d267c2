//! The files that a task reads.

ghost use Rattle.std.specs.Prelude.{◌≡◌};
ghost use Rattle.vss_stages.specs.Inputs.{limit as most_bytes};

/// The most bytes of a network or a timetable.
const LONGEST_DOCUMENT: u64 = 16_777_216;

/// The most bytes of a report.
const LONGEST_REPORT: u64 = 1_073_741_824;

/// One of the files that a task reads.
#[derive(Clone, Copy, Debug, PartialEq, Eq)]
pub enum Input {
    Network,
    Timetable,
    Report,
}

impl Input {
    /// The most bytes of the file that are read.
    pub fn limit(self) -> u64
        ensures { result ≡ most_bytes self }
    {
        match self {
            Input::Network | Input::Timetable => LONGEST_DOCUMENT,
            Input::Report => LONGEST_REPORT,
        }
    }
}
