//! Numbers of sweeps.

/// A sweep of one train, by its place in the train's table, counted from 0.
#[derive(Clone, Copy, Debug, PartialEq, Eq)]
pub struct SweepId(pub u32);
