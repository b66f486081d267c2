//! Why a line of a log is not read.
use thiserror::Error;

/// Why a line isn't read.
#[derive(Clone, Copy, Debug, PartialEq, Eq, Error)]
pub enum LineFault {
    /// No step has this text.
    #[error("the line is no step of a derivation")]
    BadLine,
    /// There was no memory for the step.
    #[error("out of memory")]
    Memory,
}
