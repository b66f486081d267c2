//! What a report tells.
use cell_net::{Layout, Plan};
use derivation_log::Refutation;

/// What is said of layouts with fewer borders than a design.
#[derive(Debug, Drop)]
pub enum Smaller {
    /// It wasn't asked.
    NotAsked,
    /// There are none: the design has the kept borders alone.
    Nothing,
    /// None of them is feasible.
    Refuted(Refutation),
}

/// A layout, a plan that is lawful under it, and what is said of smaller layouts.
#[derive(Debug, Drop)]
pub struct Design {
    pub layout: Layout,
    pub plan: Plan,
    pub smaller: Smaller,
}

/// How a task ended.
#[derive(Debug, Drop)]
pub enum Outcome {
    /// With a design.
    Done(Design),
    /// No layout that was asked for is feasible.
    Impossible(Refutation),
    /// The budget of conflicts was spent first; this is the best design so far.
    Spent {
        conflicts: u32,
        best: Option<(Layout, Plan)>,
    },
}
