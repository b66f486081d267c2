//! Units that a search was given.
use sat_core::{ClauseId, Lit};
use vss_lists::Items;

/// A unit under the number that the search gave it, and hints that derive it from the formula and the last unit.
#[derive(Debug, Drop)]
pub struct UnitMark {
    pub id: ClauseId,
    pub lit: Lit,
    /// Numbers of the formula's clauses, and of the last unit, which is numbered directly behind them.
    pub hints: Items<ClauseId>,
}
