//! The limits of an instance, which definitions, code and tests cite.

/// At most so many cells.
pub const CELLS: u32 = 1_000;

/// At most so many candidates.
pub const CANDIDATES: u32 = 512;

/// At most so many trains.
pub const TRAINS: u32 = 32;

/// At most so many time steps.
pub const STEPS: u32 = 400;

/// The greatest length of a train, in cells.
pub const LENGTH: u32 = 64;

/// The greatest advance of a train, and the greatest limit of a cell, in cells a step.
pub const ADVANCE: u32 = 20;
