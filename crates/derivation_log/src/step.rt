//! Steps of a derivation, logs of them, and what a log is to refute.
use sat_core::{ClauseId, Lit};
use vss_lists::Items;

/// One step of a derivation.
#[derive(Debug, Drop)]
pub enum Step {
    /// Adds a clause under a number above all earlier ones. Where its literals are false, the clauses that the hints
    /// name lead to a conflict.
    Add {
        id: ClauseId,
        lits: Items<Lit>,
        hints: Items<ClauseId>,
    },
    /// Drops the clauses with these numbers.
    Drop {
        ids: Items<ClauseId>,
    },
}

/// The steps of a derivation, in order.
#[derive(Debug, Drop)]
pub struct Log {
    pub steps: Items<Step>,
}

/// The question that a refuted formula asks: a layout of the kept borders alone, or any of at most this many borders.
#[derive(Clone, Copy, Debug, PartialEq, Eq)]
pub enum Bound {
    Given,
    AtMost(u32),
}

/// A log that is to refute the formula of that bound.
#[derive(Debug, Drop)]
pub struct Refutation {
    pub bound: Bound,
    pub log: Log,
}
