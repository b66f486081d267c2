//! The limits of a formula, which definitions, code and tests cite.

/// At most so many variables.
pub const VARIABLES: u32 = 2_000_000;

/// At most so many clauses.
pub const CLAUSES: u32 = 8_000_000;

/// At most so many literals in all clauses.
pub const LITERALS: u64 = 32_000_000;
