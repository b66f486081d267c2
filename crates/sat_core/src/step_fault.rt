//! The faults of derived steps.

/// Why a derived step isn't accepted: the first test that fails, in this order. `Memory` is no fault of the step.
#[derive(Clone, Copy, Debug, PartialEq, Eq)]
pub enum StepFault {
    /// The number of an added clause isn't above every number so far.
    IdOrder,
    /// A variable isn't one of the formula's.
    UnknownVariable,
    /// A variable stands twice in the added clause.
    Twofold,
    /// No live clause has the number, or a drop names it twice.
    UnknownClause,
    /// A hint has a true literal or more than one unassigned literal.
    HintNotUnit,
    /// No hint had only false literals.
    NoConflict,
    /// Hints follow one that had only false literals.
    HintsAfterConflict,
    /// There was no memory to test the step.
    Memory,
}
