//! What is asked of an instance, and why there is no formula of it.

use cell_net::{Layout, SectionId, TrainId};

/// What is asked: plans under one layout, or under some layout of at most so many borders.
#[derive(Debug, Drop)]
pub enum Task {
    /// A plan under the borders of this layout.
    Given(Layout),
    /// A plan under some layout; the bound is told beside.
    Free,
}

/// Why there is no formula, in the order in which the causes are looked for.
#[derive(Clone, Copy, Debug, PartialEq, Eq)]
pub enum EncodeRefusal {
    /// The train is the first that has more than 50,000 sweeps.
    TooManySweeps(TrainId),
    /// The section is the first that has two cells with more than 64 walks between them.
    TooManyWalks(SectionId),
    /// The list is over more than 2,000,000 variables.
    TooManyVariables,
    /// The list has more than 8,000,000 clauses.
    TooManyClauses,
    /// The clauses of the list have more than 32,000,000 literals together.
    TooManyLiterals,
    /// Want of memory.
    Memory,
}
