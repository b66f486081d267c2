//! Gates as data: a truth table and the clauses that say it.

/// A literal of a gate's clause: a pin, and whether it is to be true. Pin `i` below the number of inputs is input
/// `i`, and the pin behind them is the output.
#[derive(Clone, Copy, Debug, PartialEq, Eq)]
pub struct GateLit {
    pub pin: u32,
    pub positive: bool,
}

/// A clause of a gate: its first `len` literals.
#[derive(Clone, Copy, Debug, PartialEq, Eq)]
pub struct GateClause {
    pub lits: [GateLit; 4],
    pub len: u32,
}

/// A truth table of `IN` inputs, and clauses that say it. `ROWS` is 2 to the power of `IN`; row `r` is the output
/// for the inputs whose `i`-th value is binary digit `i` of `r`.
#[derive(Debug, Drop)]
pub struct Gate<const IN: usize, const ROWS: usize, const CLAUSES: usize> {
    pub rows: [bool; ROWS],
    pub clauses: [GateClause; CLAUSES],
}
