//! How large a counter is.
ghost use Rattle.std.specs.Prelude.{◌≡◌, ◌^◌, ◌<◌, ℕ, List, length, sum_by};
ghost use Rattle.sat_core.specs.declared.literal.Lit.{Lit};
ghost use Rattle.border_counter.specs.Counter.{counter_clauses};

/// The size of a list of clauses.
#[derive(Clone, Copy, Debug, PartialEq, Eq)]
pub struct CounterSize {
    pub clauses: u64,
    pub lits: u64,
}

/// The size of the counter of so many inputs, whatever they are and wherever its variables begin. In constant time.
pub fn counter_size(inputs: u32) -> CounterSize
    requires { inputs < 2 ^ 30 }
    ensures clauses { (lits : List Lit) (first : ℕ) → length (counter_clauses lits first inputs) ≡ result.clauses }
    ensures lits { (lits : List Lit) (first : ℕ) → sum_by length (counter_clauses lits first inputs) ≡ result.lits }
{
    if inputs == 0 {
        return CounterSize {
            clauses: 0,
            lits: 0,
        };
    }
    let count = u64::from(inputs);
    let before = count - 1;
    CounterSize {
        clauses: 2 * (count * count) + before,
        lits: (11 * (before * before) + 17 * before + 8) / 2 + 2 * before,
    }
}
