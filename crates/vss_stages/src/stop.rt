//! Why a call ends before its task is done.

use crate::input::Input;

/// Why a call ends before its task is done; `R` tells why what was read isn't accepted.
#[derive(Clone, Copy, Debug, PartialEq, Eq)]
pub enum Stop<R> {
    /// The words ask for no task.
    Usage,
    /// The file could not be read.
    ReadFault(Input),
    /// The file has more bytes than are read.
    TooLong(Input),
    /// What was read isn't accepted.
    Refused(R),
    /// There was not enough memory.
    Memory,
}
