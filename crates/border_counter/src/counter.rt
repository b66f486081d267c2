//! The counter, whole.
ghost use Rattle.std.specs.Prelude.{◌≡◌, ◌+◌, ◌-◌, ◌^◌, ◌<◌, ◌≤◌, ◌↔◌, ◌++◌, Bool, true, ℕ, List, length, sum_by, count_by, All, IfOk, IsOk, OnOk, OnErr};
ghost use Rattle.sat_core.specs.Clauses.{IsOver, SatisfiesAll};
ghost use Rattle.gate_tables.specs.Wiring.{is_true_in, GainsFront};
ghost use Rattle.border_counter.specs.Counter.{sum_to, at_least_lit, counter_clauses, Counts, counted};

use crate::gates::at_least;
use crate::rows::{add_gates, add_order};
use sat_core::{Formula, Lit};
use std::alloc::AllocError;
use std::marker::Model;

/// Where the variables of a counter stand. It keeps two numbers.
#[derive(Clone, Copy, Debug)]
pub struct CounterOut {
    first_var: u32,
    inputs: u32,
}

impl Model for CounterOut {
    ghost use Rattle.std.specs.Prelude.{◌+◌, ◌^◌, ◌≤◌};
    ghost use Rattle.border_counter.specs.Counter.{CounterParts, sum_to};

    ghost Value = { CounterParts };

    ghost view = { λ c. record { first = c.first_var; inputs = c.inputs } };

    ghost invariant = { λ c. c.first_var + sum_to c.inputs ≤ 2 ^ 32 };

    ghost inverse = { λ c. record { first_var = c.first; inputs = c.inputs } };
}

impl CounterOut {
    /// The literal that is true where at least `j` of the inputs are true, for `j` from 1 to their number.
    pub fn at_least(&self, j: u32) -> Lit
        requires { (1 ≤ j) × (j ≤ self.now.inputs) }
        ensures { result ≡ at_least_lit self.now.first self.now.inputs j }
    {
        at_least(self.first_var, self.inputs, j)
    }
}

/// Adds the counter of these inputs, whose variables are the numbers from `first_var` on, `n * (n + 1) / 2` for `n`
/// inputs: the gates row by row, then the order of the last row. Linear in the clauses, of which there are about `2 * n * n`;
/// can't fail within the formula's room. After want of memory the formula keeps some of the first of these clauses.
pub fn add_counter(
    formula: &mut Formula,
    inputs: &[Lit],
    first_var: u32,
) -> Result<CounterOut, AllocError>
    requires inputs { All (IsOver (first_var - 1)) inputs.now }
    requires variables { first_var + sum_to (length inputs.now) ≤ formula.old.vars + 1 }
    requires numbered { length formula.old.clauses + length (counter_clauses inputs.now first_var (length inputs.now)) < 2 ^ 32 }
    ensures vars { formula.new.vars ≡ formula.old.vars }
    ensures ok { OnOk result (formula.new.clauses ≡ formula.old.clauses ++ counter_clauses inputs.now first_var (length inputs.now)) }
    ensures err { OnErr result (GainsFront formula.old.clauses (counter_clauses inputs.now first_var (length inputs.now)) formula.new.clauses) }
    ensures counter { IfOk result (λ counter. (counter.first ≡ first_var) × (counter.inputs ≡ length inputs.now)) }
    ensures within_room { length (counter_clauses inputs.now first_var (length inputs.now)) ≤ formula.old.spare_clauses → sum_by length (counter_clauses inputs.now first_var (length inputs.now)) ≤ formula.old.spare_lits → IsOk result }
    ensures room_for_clauses { OnOk result (formula.old.spare_clauses ≤ formula.new.spare_clauses + length (counter_clauses inputs.now first_var (length inputs.now))) }
    ensures room_for_lits { OnOk result (formula.old.spare_lits ≤ formula.new.spare_lits + sum_by length (counter_clauses inputs.now first_var (length inputs.now))) }
    ensures all_rows { (values : List Bool) → length values ≡ formula.old.vars → SatisfiesAll values (counter_clauses inputs.now first_var (length inputs.now)) ↔ Counts values inputs.now first_var (length inputs.now) }
    ensures at_least { (values : List Bool) → length values ≡ formula.old.vars → SatisfiesAll values (counter_clauses inputs.now first_var (length inputs.now)) → (j : ℕ) → 1 ≤ j → j ≤ length inputs.now → (is_true_in values (at_least_lit first_var (length inputs.now) j) ≡ true) ↔ (j ≤ count_by (is_true_in values) inputs.now) }
    ensures extends { (before more : List Bool) → length before ≡ first_var - 1 → length (before ++ counted before inputs.now (length inputs.now) ++ more) ≡ formula.old.vars → SatisfiesAll (before ++ counted before inputs.now (length inputs.now) ++ more) (counter_clauses inputs.now first_var (length inputs.now)) }
{
    // variables are numbers of 32 bits, and so are the inputs
    let _vars = formula.vars();
    add_gates(formula, inputs, first_var)?;
    add_order(formula, inputs, first_var)?;
    Ok(CounterOut {
        first_var,
        inputs: inputs.len() as u32,
    })
}
