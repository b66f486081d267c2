//! Why a train has no table of sweeps.

/// Why there is no table.
#[derive(Clone, Copy, Debug, PartialEq, Eq)]
pub enum TableRefusal {
    /// The train has more than 50,000 sweeps.
    TooManySweeps,
    /// Want of memory.
    Memory,
}
