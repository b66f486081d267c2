//! What a trail says of a literal.
use sat_core::{ClauseId, Lit};

/// A literal of the trail: true since this level, by the clause that forced it, or decided where there is none.
#[derive(Clone, Copy, Debug)]
pub struct Entry {
    pub lit: Lit,
    pub reason: Option<ClauseId>,
    pub level: u32,
}

/// Whether a literal is true, false, or neither.
#[derive(Clone, Copy, Debug, PartialEq, Eq)]
pub enum Truth {
    Yes,
    No,
    Open,
}
