//! What learning gives.
use sat_core::{ClauseId, Lit};
use smallvec::SmallVec;

/// A learned clause with its hints, and the level to go back to.
#[derive(Drop)]
pub struct Learned {
    /// Empty at level 0. Else its one literal of the present level stands first.
    pub lits: SmallVec<Lit, 16>,
    /// In the order in which they lead to the conflict where the literals are false.
    pub hints: SmallVec<ClauseId, 16>,
    /// The greatest level of the literals behind the first, or 0.
    pub level: u32,
}
