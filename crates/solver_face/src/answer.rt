//! The three answers of a solver.

/// How a search ended.
#[derive(Clone, Copy, Debug, PartialEq, Eq)]
pub enum Answer {
    /// A valuation satisfies the formula and the units.
    Sat,
    /// The log refutes the formula and the units.
    Unsat,
    /// The budget is used up, and its last conflict didn't end the search.
    Spent,
}
