//! Why a report is not read.
use thiserror::Error;

/// Why a report isn't read.
#[derive(Clone, Copy, Debug, PartialEq, Eq, Error)]
pub enum ReportFault {
    /// At this line, counted from 1, the text goes wrong: no report begins so, or it ends too early, at the line before.
    /// For a design also where borders or runs aren't in their order, or runs are missing or too many.
    #[error("line {0} is no line of a report there")]
    BadLine(u32),
    /// This line names what the scene doesn't have.
    #[error("line {0} names what isn't there")]
    UnknownName(u32),
    /// The report is good, and lacks the part that was asked for.
    #[error("the report lacks that part")]
    NoPart,
    /// There was no memory for what the report states.
    #[error("out of memory")]
    Memory,
}
