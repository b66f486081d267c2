//! Why what was read isn't accepted.

use clause_encoder::EncodeRefusal;
use discretise::CutRefusal;
use net_reader::ReadRefusal;
use timetable::TimeRefusal;
use vss_report::ReportFault;

/// Why what was read isn't accepted. None of these is want of memory.
#[derive(Clone, Copy, Debug, PartialEq, Eq)]
pub enum Refusal {
    /// The network's document.
    Network(ReadRefusal),
    /// The timetable's document, for the network.
    Timetable(TimeRefusal),
    /// The grid on which both are cut into steps of space and time.
    Grid(CutRefusal),
    /// The report, for their scene.
    Report(ReportFault),
    /// The size of the formula that the task takes.
    Sizes(EncodeRefusal),
}
